//! Names and reserved words.

ghost use Rattle.std.specs.Prelude.{◌≡◌, ◌<◌, [], length, map, slice_index, slice_index_or};
ghost use Rattle.std.specs.List.{list_all};
ghost use Rattle.ht_values.specs.Text.{entry, same};
ghost use Rattle.ht_lex.specs.Words as words;

use crate::key::{Constant, Key, Ordinal};
use ht_values::{ChunkKind, PartKind};

/// The reserved words, each with its key: those that begin with `a`, with `b`, and so on. Other spellings of a word
/// have its key.
const RESERVED: &[&[(&[u8], Key)]] = &[
    &[
        (b"add", Key::Add),
        (b"after", Key::After),
        (b"and", Key::And),
    ],
    &[
        (b"background", Key::Background),
        (b"bg", Key::Background),
        (b"bkgnd", Key::Background),
        (b"backgrounds", Key::Backgrounds),
        (b"bgs", Key::Backgrounds),
        (b"bkgnds", Key::Backgrounds),
        (b"before", Key::Before),
        (b"by", Key::By),
        (b"button", Key::Part(PartKind::Button)),
        (b"btn", Key::Part(PartKind::Button)),
        (b"buttons", Key::Parts(PartKind::Button)),
        (b"btns", Key::Parts(PartKind::Button)),
    ],
    &[
        (b"card", Key::Card),
        (b"cd", Key::Card),
        (b"cards", Key::Cards),
        (b"cds", Key::Cards),
        (b"contains", Key::Contains),
        (b"char", Key::Piece(ChunkKind::Char)),
        (b"character", Key::Piece(ChunkKind::Char)),
        (b"chars", Key::Pieces(ChunkKind::Char)),
        (b"characters", Key::Pieces(ChunkKind::Char)),
        (b"comma", Key::Constant(Constant::Comma)),
        (b"colon", Key::Constant(Constant::Colon)),
    ],
    &[
        (b"delete", Key::Delete),
        (b"div", Key::Div),
        (b"divide", Key::Divide),
        (b"do", Key::Do),
    ],
    &[
        (b"else", Key::Else),
        (b"end", Key::End),
        (b"exit", Key::Exit),
        (b"eighth", Key::Ordinal(Ordinal::Eighth)),
        (b"empty", Key::Constant(Constant::Empty)),
        (b"eight", Key::Constant(Constant::Eight)),
    ],
    &[
        (b"for", Key::For),
        (b"forever", Key::Forever),
        (b"from", Key::From),
        (b"function", Key::Function),
        (b"field", Key::Part(PartKind::Field)),
        (b"fld", Key::Part(PartKind::Field)),
        (b"fields", Key::Parts(PartKind::Field)),
        (b"flds", Key::Parts(PartKind::Field)),
        (b"first", Key::Ordinal(Ordinal::First)),
        (b"fourth", Key::Ordinal(Ordinal::Fourth)),
        (b"fifth", Key::Ordinal(Ordinal::Fifth)),
        (b"formFeed", Key::Constant(Constant::FormFeed)),
        (b"false", Key::Constant(Constant::False)),
        (b"four", Key::Constant(Constant::Four)),
        (b"five", Key::Constant(Constant::Five)),
    ],
    &[
        (b"get", Key::Get),
        (b"global", Key::Global),
        (b"go", Key::Go),
    ],
    &[],
    &[
        (b"id", Key::Id),
        (b"if", Key::If),
        (b"in", Key::In),
        (b"into", Key::Into),
        (b"is", Key::Is),
        (b"item", Key::Piece(ChunkKind::Item)),
        (b"items", Key::Pieces(ChunkKind::Item)),
    ],
    &[],
    &[],
    &[
        (b"line", Key::Piece(ChunkKind::Line)),
        (b"lines", Key::Pieces(ChunkKind::Line)),
        (b"last", Key::Ordinal(Ordinal::Last)),
        (b"lineFeed", Key::Constant(Constant::LineFeed)),
    ],
    &[
        (b"me", Key::Me),
        (b"mod", Key::Mod),
        (b"multiply", Key::Multiply),
    ],
    &[
        (b"next", Key::Next),
        (b"not", Key::Not),
        (b"number", Key::Number),
        (b"ninth", Key::Ordinal(Ordinal::Ninth)),
        (b"nine", Key::Constant(Constant::Nine)),
    ],
    &[
        (b"of", Key::Of),
        (b"on", Key::On),
        (b"or", Key::Or),
        (b"one", Key::Constant(Constant::One)),
    ],
    &[
        (b"pass", Key::Pass),
        (b"previous", Key::Previous),
        (b"prev", Key::Previous),
        (b"put", Key::Put),
    ],
    &[(b"quote", Key::Constant(Constant::Quote))],
    &[(b"repeat", Key::Repeat), (b"return", Key::Return)],
    &[
        (b"send", Key::Send),
        (b"set", Key::Set),
        (b"stack", Key::Stack),
        (b"subtract", Key::Subtract),
        (b"second", Key::Ordinal(Ordinal::Second)),
        (b"sixth", Key::Ordinal(Ordinal::Sixth)),
        (b"seventh", Key::Ordinal(Ordinal::Seventh)),
        (b"space", Key::Constant(Constant::Space)),
        (b"six", Key::Constant(Constant::Six)),
        (b"seven", Key::Constant(Constant::Seven)),
    ],
    &[
        (b"the", Key::The),
        (b"then", Key::Then),
        (b"there", Key::There),
        (b"this", Key::This),
        (b"to", Key::To),
        (b"third", Key::Ordinal(Ordinal::Third)),
        (b"tenth", Key::Ordinal(Ordinal::Tenth)),
        (b"tab", Key::Constant(Constant::Tab)),
        (b"true", Key::Constant(Constant::True)),
        (b"two", Key::Constant(Constant::Two)),
        (b"three", Key::Constant(Constant::Three)),
        (b"ten", Key::Constant(Constant::Ten)),
    ],
    &[(b"until", Key::Until)],
    &[],
    &[
        (b"while", Key::While),
        (b"with", Key::With),
        (b"word", Key::Piece(ChunkKind::Word)),
        (b"words", Key::Pieces(ChunkKind::Word)),
    ],
    &[],
    &[],
    &[(b"zero", Key::Constant(Constant::Zero))],
];

/// Whether two words are equal after A-Z is folded to a-z.
pub fn is_same(a: &[u8], b: &[u8]) -> bool
    ensures { result ≡ same a.now b.now }
{
    a.eq_ignore_ascii_case(b)
}

/// The key of a row whose word is the same, the first from the front.
fn key_among(mut rows: &[(&[u8], Key)], word: &[u8]) -> Option<Key>
    ensures { result ≡ entry (map (λ row. (row.0.now, row.1)) rows.entry.now) word.now }
{
    while let [row, later @ ..] = rows {
        if is_same(row.0, word) {
            return Some(row.1);
        }
        rows = later;
    }
    None
}

/// The rows at a place of a table.
#[tactic(auto, using(crate::proofs::Reserved::plain_at))]
fn rows_at<'a>(table: &[&'a [(&'a [u8], Key)]], place: usize) -> &'a [(&'a [u8], Key)]
    requires { place < length table.now }
    ensures { map (λ row. (row.0.now, row.1)) result.now
        ≡ slice_index_or (map {B = words.Rows} (λ rows. map (λ row. (row.0.now, row.1)) rows.now) table.now) place [] }
{
    table[place]
}

/// The key of a reserved word, whose case is ignored; none where the word isn't reserved. No word of one byte is.
pub(crate) fn key_of(word: &[u8]) -> Option<Key>
    ensures { result ≡ words.key_of word.now }
{
    if word.len() < 2 {
        return None;
    }
    let first = byte_at(word, 0).to_ascii_lowercase();
    if !first.is_ascii_lowercase() {
        return None;
    }
    key_among(rows_at(RESERVED, (first - b'a') as usize), word)
}

/// The byte at a place, and 0 past the end.
pub(crate) fn byte_at(bytes: &[u8], place: usize) -> u8
    ensures { result ≡ slice_index bytes.now place }
{
    if place < bytes.len() { bytes[place] } else { 0 }
}

/// Whether a byte may begin a word: A-Z, a-z or `_`.
pub(crate) fn begins_word(byte: u8) -> bool
    ensures { result ≡ words.begins_word byte }
{
    byte.is_ascii_alphabetic() || byte == b'_'
}

/// Whether a byte may stand in a word after its first: a letter, a digit or `_`.
pub(crate) fn goes_on_word(byte: u8) -> bool
    ensures { result ≡ words.goes_on_word byte }
{
    byte.is_ascii_alphanumeric() || byte == b'_'
}

/// Whether each byte may stand in a word.
fn goes_on(bytes: &[u8]) -> bool
    ensures { result ≡ list_all words.goes_on_word bytes.now }
{
    bytes.iter().all(|byte| goes_on_word(*byte))
}

/// Whether the bytes are a word and nothing else.
fn is_word(bytes: &[u8]) -> bool
    ensures { result ≡ words.is_word bytes.now }
{
    begins_word(byte_at(bytes, 0)) && goes_on(bytes)
}

/// Whether the bytes are a name: a word that isn't reserved. Variables, parameters, handlers and messages have names.
pub fn is_name(bytes: &[u8]) -> bool
    ensures { result ≡ words.is_name bytes.now }
{
    is_word(bytes) && key_of(bytes).is_none()
}
