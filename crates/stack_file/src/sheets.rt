//! What the lines of a text say, sheet by sheet.

use object_table::{Id, Object};
use stack_text::{Keeping, Part};

/// A background or a card, with its parts and, of a card, what it keeps for those of its background.
#[derive(Drop)]
pub(crate) struct SheetLines {
    pub(crate) id: Id,
    pub(crate) object: Object,
    pub(crate) parts: Vec<Part>,
    pub(crate) keepings: Vec<Keeping>,
}

/// A whole text.
#[derive(Drop)]
pub(crate) struct TextLines {
    pub(crate) next: Id,
    pub(crate) stack: Object,
    pub(crate) backgrounds: Vec<SheetLines>,
    pub(crate) cards: Vec<SheetLines>,
}
