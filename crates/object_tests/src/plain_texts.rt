//! Texts by their bytes.

use ht_values::Text;
use std::alloc::Global;

pub(crate) type Bytes = &'static [u8];

/// The text of these bytes; none where memory is refused.
pub(crate) fn text(alloc: Global, bytes: &[u8]) -> Option<Text> {
    Text::from_slice(alloc, bytes).ok()
}

pub(crate) fn is_text(text: &Text, bytes: &[u8]) -> bool {
    text.as_slice() == bytes
}

/// Whether these are the bytes of the text that is due, or with `None` there is none.
pub(crate) fn is_text_or_none(text: Option<&[u8]>, due: Option<&[u8]>) -> bool {
    match text {
        Some(text) => matches!(due, Some(bytes) if text == bytes),
        None => due.is_none(),
    }
}
