//! The externals of the kit and the text tools, each in a box.

use crate::conversations::{Profile, has_profile};
use crate::plain_texts::{Bytes, text};
use externals::External;
use ht_values::Text;
use std::alloc::{AllocError, Global};
use text_tools::TextTool;
use xkit::KitExternal;

pub(crate) type Boxed = Box<dyn External>;

/// Which external is made; a `Count` begins with a number.
#[derive(Clone, Copy)]
pub(crate) enum Made {
    Count(i64),
    Bins,
    Relay,
    Gate,
    Replace,
    Table,
}

fn kit(alloc: Global, made: Result<KitExternal, AllocError>) -> Option<Boxed> {
    let external: Boxed = Box::new(alloc, made.ok()?).ok()?;
    Some(external)
}

fn tool(alloc: Global, made: Result<TextTool, AllocError>) -> Option<Boxed> {
    let external: Boxed = Box::new(alloc, made.ok()?).ok()?;
    Some(external)
}

fn name_of(which: Made) -> Bytes {
    match which {
        Made::Count(_) => b"Count",
        Made::Bins => b"Bins",
        Made::Relay => b"Relay",
        Made::Gate => b"doMenu",
        Made::Replace => b"Replace",
        Made::Table => b"Table",
    }
}

/// None where memory is refused.
pub(crate) fn make_external(alloc: Global, which: Made) -> Option<Boxed> {
    let name = text(alloc, name_of(which))?;
    match which {
        Made::Count(start) => kit(alloc, KitExternal::count(alloc, name, start)),
        Made::Bins => kit(alloc, KitExternal::bins(alloc, name)),
        Made::Relay => kit(alloc, KitExternal::relay(alloc, name)),
        Made::Gate => kit(alloc, KitExternal::gate(alloc, name)),
        Made::Replace => tool(alloc, TextTool::replace(alloc, name)),
        Made::Table => tool(alloc, TextTool::table(alloc, name)),
    }
}

pub(crate) fn begins(alloc: Global, which: Made, due: &Profile) -> bool {
    match make_external(alloc, which) {
        Some(external) => has_profile(&external, due),
        None => false,
    }
}
