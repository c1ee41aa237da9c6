//! What a reference looks for, and what it finds.

use ht_lex::Ordinal;
use ht_values::Text;
use object_table::{Id, LayerId};

/// One of several objects in their order: by its place, its id, or its number or name.
pub enum Pick {
    Nth(Ordinal),
    /// The id is a text that may be no numeral: then nothing is found.
    ById(Text),
    /// A numeral is a number, any other text that isn't empty a name.
    ByText(Text),
}

/// Written here and not derived, so that no crate above proves anew how it is dropped.
impl Drop for Pick {
    fn drop(self) {
        match self {
            Pick::Nth(_) => {}
            Pick::ById(_) => {}
            Pick::ByText(_) => {}
        }
    }
}

/// What a reference to a card or a background looks for.
pub enum Sought {
    This,
    Next,
    Previous,
    Picked(Pick),
}

/// Written here and not derived, so that no crate above proves anew how it is dropped.
impl Drop for Sought {
    fn drop(self) {
        match self {
            Sought::This => {}
            Sought::Next => {}
            Sought::Previous => {}
            Sought::Picked(_) => {}
        }
    }
}

/// Where a part is looked for: its layer, and the card that is meant with the part. That is the card which the
/// reference has as its owner, else the current one.
#[derive(Clone, Copy, Debug)]
pub struct PartScope {
    pub layer: LayerId,
    pub card: Id,
}

/// An object that a reference found, and the card that is meant with it: texts and hilites are those of this card.
#[derive(Clone, Copy, Debug)]
pub struct Referent {
    pub object: Id,
    pub card: Id,
}
