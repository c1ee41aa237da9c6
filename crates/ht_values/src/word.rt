//! Plain words that texts, the grammar and the objects share.

/// What a text is cut into.
#[derive(Clone, Copy, PartialEq, Eq, Debug)]
pub enum ChunkKind {
    Char,
    Word,
    Item,
    Line,
}

/// Where `put` puts its text: in the place of what stands there, before it or after it.
#[derive(Clone, Copy, PartialEq, Eq, Debug)]
pub enum Where {
    Into,
    Before,
    After,
}

/// What is made on a layer: a card or a background. Buttons and fields are numbered apart.
#[derive(Clone, Copy, PartialEq, Eq, Debug)]
pub enum PartKind {
    Button,
    Field,
}

/// A property by its name.
#[derive(Clone, Copy, PartialEq, Eq, Hash, Debug)]
pub enum Prop {
    Name,
    ShortName,
    Id,
    ShortId,
    Number,
    Script,
    Visible,
    Hilite,
    SharedHilite,
    LockText,
    SharedText,
    CantDelete,
}
