//! Which part of a text a chunk names.

use ht_values::ChunkKind;

/// The number of a piece, from 1, or the last piece.
#[derive(Clone, Copy, PartialEq, Eq, Debug)]
pub enum Index {
    At(i64),
    Last,
}

/// The pieces of a kind from one number to another.
#[derive(Clone, Copy, PartialEq, Eq, Debug)]
pub struct Chunk {
    pub kind: ChunkKind,
    pub from: Index,
    pub to: Index,
}

/// A part of a text: its first byte, and the first byte after it.
#[derive(Clone, Copy, PartialEq, Eq, Debug)]
pub struct Span {
    pub start: usize,
    pub after: usize,
}
