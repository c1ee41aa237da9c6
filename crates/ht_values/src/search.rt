//! Where a run of one text is the same as another. Bytes are folded as they are compared, which takes no memory; after
//! many in vain the search goes over folded copies, if there is memory for them, in the time of the sum of the lengths.

ghost use Rattle.std.specs.Prelude.{◌≡◌, ◌<◌, ◌≤◌, ◌↔◌, ◌==◌, length, IfOk, IfSome, IsTrue};
ghost use Rattle.std.specs.Char.{to_ascii_lowercase};
ghost use Rattle.bstr.specs.Find.{FindsNeedle, IsFirst, OccursAt, Passes};
ghost use Rattle.ht_values.specs.declared.text.TheConstants.{LIMIT};
ghost use Rattle.ht_values.specs.Operators.{is_in as is_in_texts};
ghost use Rattle.ht_values.specs.Search.{place_of as place_of_texts};
ghost use Rattle.ht_values.specs.Text.{folded};

use crate::text::{Text, folded_copy};
use bstr::ByteSlice;
use std::alloc::{AllocError, Global};

/// The most bytes that are compared in vain before folded copies are searched.
const MOST_COMPARED: usize = 1_024;

/// The first place from one on at which a byte of the text is the same as this one.
fn same_byte_from(byte: u8, text: &[u8], from: usize) -> Option<usize>
    requires { from ≤ length text.now }
    ensures { IsFirst (Passes (λ b. to_ascii_lowercase b == to_ascii_lowercase byte) text.now) from (length text.now)
        result }
{
    let spellings = [byte.to_ascii_lowercase(), byte.to_ascii_uppercase()];
    let ahead = &text[from..];
    match ahead.find_byteset(&spellings) {
        Some(ahead) => Some(from + ahead),
        None => None,
    }
}

/// Whether a run of the text from this place on is the same as another.
fn stands_at(run: &[u8], text: &[u8], place: usize) -> bool
    requires { place ≤ length text.now }
    ensures { IsTrue result ↔ OccursAt (folded text.now) (folded run.now) place }
{
    let ahead = &text[place..];
    run.len() <= ahead.len() && (&ahead[..run.len()]).eq_ignore_ascii_case(run)
}

/// The first place at which a run of the text is the same as another, found in folded copies.
fn place_in_copies(alloc: Global, run: &[u8], text: &[u8]) -> Result<Option<usize>, AllocError>
    ensures { IfOk result (λ place. FindsNeedle (folded text.now) (folded run.now) 0 place) }
{
    let run = folded_copy(alloc, run)?;
    let text = folded_copy(alloc, text)?;
    Ok((&text[..]).find(&run))
}

/// The first place at which a run of the text is the same as another that isn't empty.
fn first_place(alloc: Global, run: &[u8], text: &[u8]) -> Option<usize>
    requires { 0 < length run.now }
    ensures { FindsNeedle (folded text.now) (folded run.now) 0 result }
{
    let mut from = 0;
    let mut compared: usize = 0;
    while let Some(place) = same_byte_from(run[0], text, from) {
        if stands_at(run, text, place) {
            return Some(place);
        }
        from = place + 1;
        compared = compared.saturating_add(run.len());
        if MOST_COMPARED < compared {
            if let Ok(place) = place_in_copies(alloc, run, text) {
                return place;
            }
            compared = 0;
        }
    }
    None
}

/// The first place, counted from 0, at which a run of the text is the same as another text.
#[tactic(auto, using(crate::proofs::Searches::finds_first_place))]
pub(crate) fn place_of(alloc: Global, run: &Text, text: &Text) -> Option<usize>
    ensures value { result ≡ place_of_texts run.now text.now }
    ensures within { IfSome result (λ place. place ≤ LIMIT) }
{
    if run.len() == 0 {
        return Some(0);
    }
    first_place(alloc, run.as_slice(), text.as_slice())
}

/// Whether a run of the text is the same as another text.
pub(crate) fn is_in(alloc: Global, run: &Text, text: &Text) -> bool
    ensures { result ≡ is_in_texts run.now text.now }
{
    place_of(alloc, run, text).is_some()
}
