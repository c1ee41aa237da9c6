//! What the text of a stack says of parts, and in which version.

use ht_values::Text;
use object_table::{Id, Object};

/// What is kept beside a part: the text of a field, the hilite of a background's button. A card's
/// button has its hilite among its flags, and nothing is kept beside it.
#[derive(Drop)]
pub enum PartContent {
    Nothing,
    Written(Text),
    Lit(bool),
}

/// A button or a field. What is kept is a card's own, or on a background what is shared.
#[derive(Drop)]
pub struct Part {
    pub id: Id,
    pub object: Object,
    pub content: PartContent,
}

/// What a card keeps for a part of its background.
#[derive(Drop)]
pub struct Keeping {
    pub part: Id,
    pub content: PartContent,
}

/// A version of the stack text. The first has one hilite of a background's button for all cards.
#[derive(Clone, Copy, Debug)]
pub enum Version {
    First,
    Second,
}
