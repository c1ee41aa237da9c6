//! The words of a line, each by its form.

ghost use Rattle.std.specs.Prelude.{◌≡◌, ◌<◌, ◌==◌, length, position, codes, IfSome, IfOk, IfErr, option_copied};
ghost use Rattle.std.specs.Prelude.{option_map, option_and_then};
ghost use Rattle.std.specs.List.{list_any};
ghost use Rattle.stack_text.specs.Reading.{after_prefix, short_text, at_least, flag_at, count_at, piece_at};
ghost use Rattle.stack_text.specs.Reading.{is_piece as is_piece_in, around_space, both as both_of, pair_at};
ghost use Rattle.stack_text.specs.Reading.{part_header, version_at};
ghost use Rattle.stack_text.specs.Words.{number_at as number_of};
ghost use Rattle.stack_text.specs.declared.fault.ReadError.TheVariants.{Memory};
ghost use Rattle.stack_file.specs.Pieces.{around as around_byte};

use ht_values::{LIMIT, PartKind, Text};
use memchr::memchr;
use stack_text::{ReadError, Version, number_at, unspell};
use std::alloc::Global;

/// The greatest number of pieces of a text.
const MOST_PIECES: u32 = 30_001;

/// Where a byte comes first.
#[tactic(auto, using(crate::proofs::Found::first_place))]
pub(crate) fn place_of(bytes: &[u8], byte: u8) -> Option<usize>
    ensures value { result ≡ position (λ b. b == byte) bytes.now }
    ensures within { IfSome result (λ i. i < length bytes.now) }
{
    memchr(byte, bytes)
}

fn has_return(bytes: &[u8]) -> bool
    ensures { result ≡ list_any (λ b. b == 13) bytes.now }
{
    place_of(bytes, b'\r').is_some()
}

fn rest_after<'a>(line: &'a [u8], prefix: &[u8]) -> Option<&'a [u8]>
    ensures { option_copied result ≡ after_prefix prefix.now line.now }
{
    line.strip_prefix(prefix)
}

pub(crate) fn number_in(line: &[u8], prefix: &[u8]) -> Option<u32>
    ensures { result ≡ option_and_then number_of (after_prefix prefix.now line.now) }
{
    number_at(rest_after(line, prefix)?)
}

pub(crate) fn count_in(line: &[u8], prefix: &[u8], least: u32) -> Option<u32>
    ensures { result ≡ option_and_then (at_least least) (after_prefix prefix.now line.now) }
{
    let number = number_at(rest_after(line, prefix)?)?;
    if number < least { None } else { Some(number) }
}

/// A number of pieces.
fn piece_count(word: &[u8]) -> Option<u32>
    ensures { result ≡ count_at word.now }
{
    let count = number_at(word)?;
    if count <= MOST_PIECES {
        Some(count)
    } else {
        None
    }
}

pub(crate) fn piece_count_in(line: &[u8], prefix: &[u8]) -> Option<u32>
    ensures { result ≡ option_and_then count_at (after_prefix prefix.now line.now) }
{
    piece_count(rest_after(line, prefix)?)
}

fn flag_of(word: &[u8]) -> Option<bool>
    ensures { result ≡ flag_at word.now }
{
    if word == b"true".as_slice() {
        Some(true)
    } else if word == b"false".as_slice() {
        Some(false)
    } else {
        None
    }
}

pub(crate) fn flag_in(line: &[u8], prefix: &[u8]) -> Option<bool>
    ensures { result ≡ option_and_then flag_at (after_prefix prefix.now line.now) }
{
    flag_of(rest_after(line, prefix)?)
}

fn text_of(alloc: Global, spelling: &[u8]) -> Result<Option<Text>, ReadError>
    ensures value { IfOk result (λ o. o ≡ short_text spelling.now) }
    ensures err { IfErr result (λ e. e ≡ Memory) }
{
    match unspell(alloc, spelling)? {
        None => Ok(None),
        Some(bytes) if LIMIT < bytes.len() => Ok(None),
        Some(bytes) => Ok(Some(Text::fitting_vec(bytes)?)),
    }
}

pub(crate) fn name_in(alloc: Global, line: &[u8]) -> Result<Option<Text>, ReadError>
    ensures value { IfOk result (λ o. o ≡ option_and_then short_text (after_prefix (codes "name |") line.now)) }
    ensures err { IfErr result (λ e. e ≡ Memory) }
{
    match rest_after(line, b"name |") {
        None => Ok(None),
        Some(spelling) => text_of(alloc, spelling),
    }
}

/// Whether a piece has no return, is shorter than the room, and isn't empty where it is alone.
fn is_piece(alone: bool, room: usize, piece: &[u8]) -> bool
    ensures { result ≡ is_piece_in alone room piece.now }
{
    !has_return(piece) && piece.len() < room && !(alone && piece.is_empty())
}

fn piece_of(
    alloc: Global,
    alone: bool,
    room: usize,
    spelling: &[u8],
) -> Result<Option<Vec<u8>>, ReadError>
    ensures value { IfOk result (λ o. option_map (λ v. v.items) o ≡ piece_at alone room spelling.now) }
    ensures short { IfOk result (λ o. IfSome o (λ v. length v.items < room)) }
    ensures err { IfErr result (λ e. e ≡ Memory) }
{
    match unspell(alloc, spelling)? {
        Some(piece) if is_piece(alone, room, &piece) => Ok(Some(piece)),
        Some(_) => Ok(None),
        None => Ok(None),
    }
}

pub(crate) fn piece_in(
    alloc: Global,
    alone: bool,
    room: usize,
    line: &[u8],
) -> Result<Option<Vec<u8>>, ReadError>
    ensures value { IfOk result (λ o. option_map (λ v. v.items) o
        ≡ option_and_then (piece_at alone room) (after_prefix (codes "|") line.now)) }
    ensures short { IfOk result (λ o. IfSome o (λ v. length v.items < room)) }
    ensures err { IfErr result (λ e. e ≡ Memory) }
{
    match rest_after(line, b"|") {
        None => Ok(None),
        Some(spelling) => piece_of(alloc, alone, room, spelling),
    }
}

/// What stands before a byte where it comes first, and what stands after it.
pub(crate) fn around(bytes: &[u8], byte: u8) -> Option<(&[u8], &[u8])>
    ensures { option_map (λ x. (x.0.now, x.1.now)) result ≡ around_byte byte bytes.now }
{
    let place = place_of(bytes, byte)?;
    Some((&bytes[..place], &bytes[place + 1..]))
}

fn words_of(line: &[u8]) -> Option<(&[u8], &[u8])>
    ensures { option_map (λ x. (x.0.now, x.1.now)) result ≡ around_space line.now }
{
    around(line, b' ')
}

/// Two values, where both are there.
fn both<A: Copy, B: Copy>(first: Option<A>, second: Option<B>) -> Option<(A, B)>
    ensures { result ≡ both_of first second }
{
    match (first, second) {
        (Some(first), Some(second)) => Some((first, second)),
        _ => None,
    }
}

pub(crate) fn card_in(line: &[u8]) -> Option<(u32, u32)>
    ensures { result ≡ option_and_then (pair_at number_of number_of) (after_prefix (codes "card ") line.now) }
{
    let (id, background) = words_of(rest_after(line, b"card ")?)?;
    both(number_at(id), number_at(background))
}

pub(crate) fn text_in(line: &[u8]) -> Option<(u32, u32)>
    ensures { result ≡ option_and_then (pair_at number_of count_at) (after_prefix (codes "text ") line.now) }
{
    let (field, count) = words_of(rest_after(line, b"text ")?)?;
    both(number_at(field), piece_count(count))
}

pub(crate) fn hilite_in(line: &[u8]) -> Option<(u32, bool)>
    ensures { result ≡ option_and_then (pair_at number_of flag_at) (after_prefix (codes "hilite ") line.now) }
{
    let (button, lit) = words_of(rest_after(line, b"hilite ")?)?;
    both(number_at(button), flag_of(lit))
}

/// The kind and the id of a part.
pub(crate) fn part_in(line: &[u8]) -> Option<(PartKind, u32)>
    ensures { result ≡ part_header line.now }
{
    match number_in(line, b"button ") {
        Some(id) => Some((PartKind::Button, id)),
        None => {
            let id = number_in(line, b"field ")?;
            Some((PartKind::Field, id))
        }
    }
}

fn version_of(word: &[u8]) -> Option<Version>
    ensures { result ≡ version_at word.now }
{
    if word == b"1".as_slice() {
        Some(Version::First)
    } else if word == b"2".as_slice() {
        Some(Version::Second)
    } else {
        None
    }
}

pub(crate) fn version_in(line: &[u8]) -> Option<Version>
    ensures { result ≡ option_and_then version_at (after_prefix (codes "htstack ") line.now) }
{
    version_of(rest_after(line, b"htstack ")?)
}
