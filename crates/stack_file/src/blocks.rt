//! Texts of many lines.

ghost use Rattle.stack_text.specs.Reading.{Gives, text_of_pieces as text_of_pieces_at, block_after, script_at};
ghost use Rattle.stack_file.specs.Pieces.{ended_at};

use crate::lines::Lines;
use ht_values::Text;
use stack_text::ReadError;
use std::alloc::Global;

/// The room for the pieces of a text, each with a return behind it.
const ROOM: usize = 30_001;

/// So many pieces, each with a return behind it.
fn pieces(lines: &mut Lines, alloc: Global, count: u32) -> Result<Vec<u8>, ReadError>
    ensures { Gives (λ x. (x.items, lines.new)) result (ended_at count lines.old) }
{
    let mut text = Vec::new(alloc);
    for _ in 0..count {
        let piece = lines.piece(alloc, count == 1, ROOM - text.len())?;
        text.reserve(piece.len() + 1)?;
        text.extend_from_slice(&piece)?;
        text.push(b'\r')?;
    }
    Ok(text)
}

/// The text of so many pieces.
pub(crate) fn text_of_pieces(
    lines: &mut Lines,
    alloc: Global,
    count: u32,
) -> Result<Text, ReadError>
    ensures { Gives (λ x. (x, lines.new)) result (text_of_pieces_at count lines.old) }
{
    let mut bytes = pieces(lines, alloc, count)?;
    bytes.pop();
    Ok(Text::fitting_vec(bytes)?)
}

/// A text behind a key and the number of its pieces.
#[tactic(auto, unfolding(stack_text::specs::Reading::block_after))]
pub(crate) fn block(lines: &mut Lines, alloc: Global, prefix: &[u8]) -> Result<Text, ReadError>
    ensures { Gives (λ x. (x, lines.new)) result (block_after prefix.now lines.old) }
{
    let count = lines.piece_count(prefix)?;
    text_of_pieces(lines, alloc, count)
}

#[tactic(auto, unfolding(stack_text::specs::Reading::script_at))]
pub(crate) fn script(lines: &mut Lines, alloc: Global) -> Result<Text, ReadError>
    ensures { Gives (λ x. (x, lines.new)) result (script_at lines.old) }
{
    block(lines, alloc, b"script ")
}
