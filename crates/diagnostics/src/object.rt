//! Objects, as people name them.

use crate::page::Page;
use object_references::name_of;
use object_table::{Id, Stack};
use std::alloc::Global;

/// Writes what `the name of` an object reads, and its id: `card button "Go" (id 6)`. Of one that is gone its id alone.
pub fn write_object(page: &mut Page, alloc: Global, stack: &Stack, card: Id, object: Id) {
    match name_of(alloc, stack, card, object) {
        Ok(name) => page.spelled(name.as_slice()),
        Err(_) => page.word(b"an object that is gone"),
    }
    page.word(b" (id ");
    page.number(object as usize);
    page.word(b")");
}
