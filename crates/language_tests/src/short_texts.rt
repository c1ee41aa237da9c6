//! Texts of about as many bytes as stand in a text's own place.

use crate::cases::{Case, first_unmet};
use ht_values::{IN_PLACE, Text, Value, joined};
use std::alloc::{AllocError, Global};

/// The bytes of a text, and those that are put behind it.
struct Grown(&'static [u8], &'static [u8]);

const GROWN: &[Grown] = &[
    Grown(b"", b""),
    Grown(b"", b"ABCDEFGHIJKLMNOPQRSTU"),
    Grown(b"", b"ABCDEFGHIJKLMNOPQRSTUV"),
    Grown(b"", b"ABCDEFGHIJKLMNOPQRSTUVW"),
    Grown(b"ABCDEFGHIJKLMNOPQRSTU", b"v"),
    Grown(b"ABCDEFGHIJKLMNOPQRSTU", b"vw"),
    Grown(b"ABCDEFGHIJKLMNOPQRSTUV", b""),
    Grown(b"ABCDEFGHIJKLMNOPQRSTUV", b"w"),
    Grown(b"ABCDEFGHIJKLMNOPQRSTUVW", b"x"),
    Grown(
        b"A",
        b"bcdefghijklmnopqrstuvwxyz bcdefghijklmnopqrstuvwxyz bcdefghijklmnopqrstuvwxyz",
    ),
];

fn has_bytes(text: &Text, bytes: &[u8]) -> bool {
    text.as_slice() == bytes && text.len() == bytes.len()
}

/// Whether the text has these bytes, and so have its copy and a text of the same list.
fn is_kept(alloc: Global, text: &Text, bytes: &[u8]) -> bool {
    has_bytes(text, bytes)
        && matches!(text.try_clone(alloc), Ok(copy) if has_bytes(&copy, bytes) && copy.same(text))
        && matches!(listed(alloc, bytes), Some(made) if has_bytes(&made, bytes) && text.same(&made))
        && is_short_or_long(alloc, bytes)
        && is_put_over(alloc, text, bytes)
}

/// Whether a text of these bytes is made in its own place, if so few stand there.
fn is_short_or_long(alloc: Global, bytes: &[u8]) -> bool {
    IN_PLACE < bytes.len() || has_bytes(&Text::copied_in_place(alloc, bytes), bytes)
}

/// Whether a value that was another one becomes the text.
fn is_put_over(alloc: Global, text: &Text, bytes: &[u8]) -> bool {
    let mut value = Value::of_truth(true);
    value.copy_from(alloc, text).is_ok()
        && matches!(value.spelled(alloc), Ok(spelling) if has_bytes(spelling.text(), bytes))
}

/// The text of a list of these bytes.
fn listed(alloc: Global, bytes: &[u8]) -> Option<Text> {
    Text::from_vec(Vec::from_slice(alloc, bytes).ok()?).ok()
}

/// Whether the text folds to the same bytes in small letters, and isn't the same as one with a byte more.
fn is_folded_and_compared(alloc: Global, text: &Text, small: &[u8]) -> bool {
    let is_folded = matches!(
        text.folded(alloc),
        Ok(folded) if has_bytes(&folded, small) && folded.is_folded() && folded.same(text)
    );
    is_folded && matches!(joined(alloc, small, b"", b"."), Ok(more) if !text.same(&more))
}

fn together(alloc: Global, left: &[u8], right: &[u8]) -> Result<Vec<u8>, AllocError> {
    let mut bytes = Vec::from_slice(alloc, left)?;
    bytes.extend_from_slice(right)?;
    Ok(bytes)
}

fn is_grown(alloc: Global, left: &[u8], right: &[u8]) -> Option<bool> {
    let mut bytes = together(alloc, left, right).ok()?;
    let mut text = Text::from_slice(alloc, left).ok()?;
    text.append(right).ok()?;
    let is_whole = is_kept(alloc, &text, &bytes)
        && matches!(joined(alloc, left, b"", right), Ok(whole) if has_bytes(&whole, &bytes));
    bytes.make_ascii_lowercase();
    Some(is_whole && is_folded_and_compared(alloc, &text, &bytes))
}

impl Case for Grown {
    fn is_met(&self, alloc: Global) -> bool {
        is_grown(alloc, self.0, self.1) == Some(true)
    }
}

#[test]
fn texts_grow_out_of_their_own_place(rt: HostRuntime) {
    assert!(rt; IN_PLACE == 22);
    assert!(rt; first_unmet(rt.alloc(), GROWN) == None);
}
