//! Numerals, and the numbers that texts mean.

ghost use Rattle.std.specs.Prelude.{◌≡◌, ◌≤◌, ◌<◌, ◌-◌, ◌^◌, length, IfSome, IsTrue, pos, neg_ℤ, if◌then◌else◌};
ghost use Rattle.std.specs.List.{list_all, prefix_len, suffix_len};
ghost use Rattle.std.specs.Char.{is_ascii_digit};
ghost use Rattle.std.specs.Option.{SomeIff};
ghost use Rattle.std.specs.Str.Parse.{digits_value};
ghost use Rattle.ht_values.specs.Number.{is_space, is_numeral, number_of as number_of_text, ranged};
ghost use Rattle.ht_values.specs.Number.{spelled as spelled_of, trimmed as trimmed_of, value_of};
ghost use Rattle.ht_values.specs.Number.{without_front_spaces as without_front_spaces_of};
ghost use Rattle.ht_values.specs.Text.{numeral as numeral_text};

use crate::fault::Fault;
use crate::text::Text;

/// How many spaces stand at the front.
fn front_spaces(text: &[u8]) -> usize
    ensures value { result ≡ prefix_len is_space text.now }
    ensures within { result ≤ length text.now }
{
    let mut at = 0;
    while at < text.len() && text[at] == b' ' {
        at += 1;
    }
    at
}

/// The text without the spaces at its front.
pub fn without_front_spaces(text: &[u8]) -> &[u8]
    ensures { result.now ≡ without_front_spaces_of text.now }
{
    &text[front_spaces(text)..]
}

/// How many bytes stand before the spaces at the end.
#[tactic(auto, using(crate::proofs::Trims::one_space, crate::proofs::Trims::no_space, crate::proofs::Trims::none_before))]
fn before_spaces(text: &[u8]) -> usize
    ensures value { result ≡ length text.now - suffix_len is_space text.now }
    ensures within { result ≤ length text.now }
{
    let mut at = text.len();
    while 0 < at && text[at - 1] == b' ' {
        at -= 1;
    }
    at
}

/// The text without the spaces at both ends.
fn trimmed(text: &[u8]) -> &[u8]
    ensures { result.now ≡ trimmed_of text.now }
{
    let rest = without_front_spaces(text);
    &rest[..before_spaces(rest)]
}

/// Whether each byte is a digit.
fn all_digits(text: &[u8]) -> bool
    ensures { result ≡ list_all is_ascii_digit text.now }
{
    text.iter().all(|byte| byte.is_ascii_digit())
}

/// What digits spell, where it is below 2^64.
#[tactic(auto, using(crate::proofs::Digits::is_digit, crate::proofs::Digits::one_more, crate::proofs::Digits::no_less))]
fn magnitude(digits: &[u8]) -> Option<u64>
    requires { IsTrue (list_all is_ascii_digit digits.now) }
    ensures { SomeIff result (digits_value 10 digits.now < 2 ^ 64) (digits_value 10 digits.now) }
{
    let mut value: u64 = 0;
    for digit in digits {
        value = value
            .checked_mul(10)?
            .checked_add(u64::from(*digit - b'0'))?;
    }
    Some(value)
}

/// A number of this size, if it is in range.
fn signed(negative: bool, size: u64) -> Result<i64, Fault>
    ensures { result ≡ ranged (if negative then neg_ℤ (pos size) else pos size) }
{
    let number = if negative {
        0_i64.checked_sub_unsigned(size)
    } else {
        0_i64.checked_add_unsigned(size)
    };
    number.ok_or(Fault::OutOfRange)
}

/// The number that an optional `-` and digits spell.
fn spelled(text: &[u8]) -> Result<i64, Fault>
    ensures { result ≡ spelled_of text.now }
{
    let negative = !text.is_empty() && text[0] == b'-';
    let digits = if negative { &text[1..] } else { text };
    if digits.is_empty() || !all_digits(digits) {
        return Err(Fault::NotANumber);
    }
    match magnitude(digits) {
        Some(size) => signed(negative, size),
        None => Err(Fault::OutOfRange),
    }
}

/// The number of a text: that of a numeral, and 0 for a text of no bytes or of spaces alone. A text that is spelled as
/// a number is `OutOfRange` where that does not fit 64 bits, and any other text is `NotANumber`. It takes no memory.
/// Whole numbers of 64 bits are this project's profile.
#[tactic(auto, unfolding(crate::specs::Number::number_of))]
#[inline(never)]
pub fn number_of(text: &Text) -> Result<i64, Fault>
    ensures { result ≡ number_of_text text.now }
{
    let inner = trimmed(text.as_slice());
    if inner.is_empty() {
        Ok(0)
    } else {
        spelled(inner)
    }
}

/// The number of a numeral: an optional `-` and digits between spaces, in range. No other text has one.
#[tactic(auto, using(crate::proofs::Numerals::numeral_spelled))]
#[inline(never)]
pub fn numeral(text: &Text) -> Option<i64>
    ensures { SomeIff result (IsTrue (is_numeral text.now)) (value_of text.now) }
{
    spelled(trimmed(text.as_slice())).ok()
}

/// The number whose numeral these bytes are, where that has no sign and at most 18 digits. It takes no memory.
pub fn plain_number(text: &[u8]) -> Option<i64>
    ensures { IfSome result (λ n. numeral_text n ≡ text.now) }
{
    // Most texts that are no numerals begin with another byte than a digit.
    if text.is_empty() || !text[0].is_ascii_digit() || 18 < text.len() {
        return None;
    }
    if text[0] == b'0' && 1 < text.len() {
        return None;
    }
    if !all_digits(text) {
        return None;
    }
    let size = magnitude(text)?;
    match signed(false, size) {
        Ok(number) => Some(number),
        Err(_) => None,
    }
}
