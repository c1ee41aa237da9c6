//! Words: what stands between spaces and returns.

ghost use Rattle.std.specs.Prelude.{◌≡◌, ◌≤◌, ◌+◌, length, slice_get};
ghost use Rattle.chunks.specs.Pieces.{is_gap as is_gap_of, is_wide};
ghost use Rattle.chunks.specs.Scan.{scan};

use crate::chunk::Span;

/// Whether a byte stands between words.
fn is_gap(byte: u8) -> bool
    ensures { result ≡ is_gap_of byte }
{
    byte == b' ' || byte == 13
}

/// Whether a part between gaps is a word: it isn't empty.
fn is_word(part: Span) -> bool
    ensures { result ≡ is_wide part }
{
    part.start < part.after
}

/// Where the word stands that has so many before it.
#[tactic(auto, using(crate::proofs::Scans::inside, crate::proofs::Scans::ended, crate::proofs::Scans::last_found, crate::proofs::Scans::last_dropped, crate::proofs::Scans::none_left, crate::proofs::Scans::kept_first, crate::proofs::Scans::kept_none))]
pub(crate) fn word_at(text: &[u8], before: usize) -> Option<Span>
    ensures { result ≡ slice_get (scan is_gap_of is_wide 0 0 text.now) before }
{
    let mut left = before;
    let mut start = 0;
    for i in 0..text.len() {
        if is_gap(text[i]) {
            let part = Span { start, after: i };
            if is_word(part) {
                if left == 0 {
                    return Some(part);
                }
                left -= 1;
            }
            start = i + 1;
        }
    }
    let part = Span {
        start,
        after: text.len(),
    };
    if is_word(part) && left == 0 {
        Some(part)
    } else {
        None
    }
}

/// How many words a text has.
#[tactic(auto, using(crate::proofs::Scans::inside, crate::proofs::Scans::ended, crate::proofs::Scans::end_dropped, crate::proofs::Scans::end_kept, crate::proofs::Scans::kept_first, crate::proofs::Scans::kept_none))]
pub(crate) fn word_count(text: &[u8]) -> usize
    ensures value { result ≡ length (scan is_gap_of is_wide 0 0 text.now) }
    ensures few { result ≤ length text.now + 1 }
{
    let mut count = 0;
    let mut start = 0;
    for i in 0..text.len() {
        if is_gap(text[i]) {
            if is_word(Span { start, after: i }) {
                count += 1;
            }
            start = i + 1;
        }
    }
    let part = Span {
        start,
        after: text.len(),
    };
    if is_word(part) { count + 1 } else { count }
}
