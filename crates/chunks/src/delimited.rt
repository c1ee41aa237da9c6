//! Pieces between delimiters, found a block of bytes at a time.

ghost use Rattle.std.specs.Prelude.{◌≡◌, ◌≤◌, ◌+◌, length, count_by, slice_get};
ghost use Rattle.chunks.specs.Pieces.{delimited, spans_from};
ghost use Rattle.chunks.specs.Scan.{all_kept, is_delimiter, scan};

use crate::chunk::Span;

/// How many bytes are looked at together. Their delimiters are so few that a byte counts them, and so they are counted
/// fast.
const BLOCK: usize = 192;

/// How many delimiters stand in a block.
fn delimiters_in(block: &[u8], delimiter: u8) -> u8
    requires { length block.now ≤ BLOCK }
    ensures { result ≡ count_by (is_delimiter delimiter) block.now }
{
    let mut many: u8 = 0;
    for byte in block {
        if *byte == delimiter {
            many += 1;
        }
    }
    many
}

/// How many delimiters a text has.
#[tactic(auto, using(crate::proofs::Blocks::counted, crate::proofs::Blocks::few_counted))]
fn delimiters(text: &[u8], delimiter: u8) -> usize
    ensures value { result ≡ count_by (is_delimiter delimiter) text.now }
    ensures few { result ≤ length text.now }
{
    let mut many = 0;
    let mut at = 0;
    while at < text.len() {
        let end = at + BLOCK.min(text.len() - at);
        many += usize::from(delimiters_in(&text[at..end], delimiter));
        at = end;
    }
    many
}

/// How many pieces stand between the delimiters of a text.
#[tactic(auto, using(crate::proofs::Blocks::pieces_counted))]
pub(crate) fn delimited_count(text: &[u8], delimiter: u8) -> usize
    ensures value { result ≡ length (delimited delimiter text.now) }
    ensures few { result ≤ length text.now + 1 }
{
    if text.is_empty() {
        return 0;
    }
    delimiters(text, delimiter) + 1
}

/// Where the part stands that has so many before it. Blocks that end before its front, or lie inside of it, are passed
/// over.
#[tactic(auto, using(crate::proofs::Blocks::block_passed, crate::proofs::Blocks::block_uncut, crate::proofs::Scans::inside, crate::proofs::Blocks::part_ended, crate::proofs::Blocks::next_part, crate::proofs::Scans::last_found, crate::proofs::Scans::none_left))]
fn part_at(text: &[u8], delimiter: u8, before: usize) -> Option<Span>
    ensures { result ≡ slice_get (scan (is_delimiter delimiter) all_kept 0 0 text.now) before }
{
    let mut left = before;
    let mut start = 0;
    let mut at = 0;
    'rest: while at < text.len() {
        let end = at + BLOCK.min(text.len() - at);
        let many = usize::from(delimiters_in(&text[at..end], delimiter));
        if 0 < many && many < left {
            left -= many;
            start = end;
        } else if 0 < many {
            for i in at..end {
                if text[i] == delimiter {
                    if left == 0 {
                        return Some(Span { start, after: i });
                    }
                    left -= 1;
                    start = i + 1;
                }
            }
        }
        at = end;
    }
    if left == 0 {
        Some(Span {
            start,
            after: text.len(),
        })
    } else {
        None
    }
}

/// Where the piece between delimiters stands that has so many before it.
#[tactic(auto, using(crate::proofs::Scans::delimited_places))]
pub(crate) fn delimited_at(text: &[u8], delimiter: u8, before: usize) -> Option<Span>
    ensures { result ≡ slice_get (spans_from 0 1 (delimited delimiter text.now)) before }
{
    if text.is_empty() {
        return None;
    }
    part_at(text, delimiter, before)
}
