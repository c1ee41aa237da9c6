//! Pieces of a text.

ghost use Rattle.std.specs.Prelude.{◌≡◌, ◌≤◌};
ghost use Rattle.ht_grammar.specs.Depth.{chunk_depth, max_depth};
ghost use Rattle.ht_tree.specs.View.{chunk_of};

use crate::expr::Expr;
use ht_lex::Ordinal;
use ht_values::ChunkKind;

/// Which pieces of a text.
#[cycle(tree)]
pub enum Chunk {
    Piece(ChunkKind, Expr),
    Pieces(ChunkKind, Box<Bounds>),
    NthPiece(Ordinal, ChunkKind),
}

/// The first piece and the last.
#[cycle(tree)]
pub struct Bounds {
    pub first: Expr,
    pub last: Expr,
}

/// Written here and not derived, so that no crate above proves anew how it is dropped.
impl Drop for Bounds {
    #[cycle(tree)]
    fn drop(self) {
        let Bounds { first: _, last: _ } = self;
    }
}

/// Written here and not derived, so that no crate above proves anew how it is dropped.
impl Drop for Chunk {
    #[cycle(tree)]
    fn drop(self) {
        match self {
            Chunk::Piece(_, _) => {}
            Chunk::Pieces(_, _) => {}
            Chunk::NthPiece(_, _) => {}
        }
    }
}

impl Chunk {
    /// The depth of the deepest index, 0 where there is none.
    pub fn depth(&self) -> usize
        ensures value { result ≡ chunk_depth (chunk_of self.now) }
        ensures limit { result ≤ max_depth }
    {
        match self {
            Chunk::Piece(_, index) => index.depth(),
            Chunk::Pieces(_, bounds) => bounds.first.depth().max(bounds.last.depth()),
            Chunk::NthPiece(_, _) => 0,
        }
    }
}
