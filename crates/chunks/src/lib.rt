//! Chunks of texts: chars, words, items and lines.
//!
//! - Reading, putting and deleting them give exactly their texts (`find`, `count`, `part`, `take`, `put`, `delete`),
//!   and so do chunks of chunks (`part_within`, `take_within`, `put_within`, `delete_within`).
//! - Laws: what stands between delimiters is the one list whose join gives the text; a piece that is put stands there,
//!   the other pieces are as they were, and it is read back where its number is reached; a delete that finds nothing
//!   changes nothing.
#![tactic(auto)]

mod change;
mod chunk;
mod delimited;
mod law;
mod location;
mod nested;
mod piece;
mod word_pieces;

pub use change::{delete, put, take};
pub use chunk::{Chunk, Index, Span};
pub use law::{none_deleted, one_list, parts_cut, piece_is_put, pieces_stand, put_reads_back};
pub use location::{count, find, part};
pub use nested::{delete_within, part_within, put_within, take_within};
