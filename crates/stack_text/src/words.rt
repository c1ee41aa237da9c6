//! Texts and numbers as words of a line.

ghost use Rattle.std.specs.Prelude.{◌≡◌, ◌≢◌, ◌<◌, ◌≤◌, ◌++◌, ◌^◌, ℕ, List, All, Some, None, decimal, length};
ghost use Rattle.std.specs.Prelude.{OnOk, IfOk, IfSome, IfNone, not, position, if◌then◌else◌};
ghost use Rattle.std.specs.List.{list_all, position_or_len};
ghost use Rattle.std.specs.Option.{option_map};
ghost use Rattle.stack_text.specs.Words.{hex_digit as digit_of, hex_value as value_of, is_plain as is_plain_byte};
ghost use Rattle.stack_text.specs.Words.{spelled_byte, spelled, escape_of, char_at, unspelled};
ghost use Rattle.stack_text.specs.Words.{number_at as number_spelled};

use std::alloc::{AllocError, Global};

fn hex_digit(digit: u8) -> u8
    requires { digit < 16 }
    ensures { result ≡ digit_of digit }
{
    if digit < 10 {
        b'0' + digit
    } else {
        b'a' - 10 + digit
    }
}

fn is_plain(byte: u8) -> bool
    ensures { result ≡ is_plain_byte byte }
{
    32 <= byte && byte <= 126 && byte != b'\\'
}

/// Whether each byte stands for itself. It looks at each byte, so that many are seen at once.
fn is_all_plain(bytes: &[u8]) -> bool
    ensures { result ≡ list_all is_plain_byte bytes.now }
{
    let mut plain = true;
    for byte in bytes {
        plain &= is_plain(*byte);
    }
    plain
}

/// Where the first byte is that doesn't stand for itself.
fn first_escaped(bytes: &[u8]) -> Option<usize>
    ensures { result ≡ position (λ b. not (is_plain_byte b)) bytes.now }
{
    bytes.iter().position(|b| !is_plain(*b))
}

/// How many bytes at the beginning stand for themselves.
#[tactic(auto, using(crate::proofs::Runs::length_by_place))]
fn plain_length(bytes: &[u8]) -> usize
    ensures value { result ≡ position_or_len (λ b. not (is_plain_byte b)) bytes.now }
    ensures within { result ≤ length bytes.now }
{
    first_escaped(bytes).unwrap_or(bytes.len())
}

/// Copies the bytes at the beginning that stand for themselves, and gives the others.
fn copy_plain<'a>(out: &mut Vec<u8>, bytes: &'a [u8]) -> Result<&'a [u8], AllocError>
    ensures spelled { IfOk result (λ rest. out.new.items ++ spelled rest.now ≡ out.old.items ++ spelled bytes.now) }
    ensures text { IfOk result (λ rest. option_map (λ t. out.new.items ++ t) (unspelled rest.now)
        ≡ option_map (λ t. out.old.items ++ t) (unspelled bytes.now)) }
    ensures shorter { IfOk result (λ rest. length rest.now ≤ length bytes.now) }
{
    let length = plain_length(bytes);
    if length == 0 {
        return Ok(bytes);
    }
    let (plain, rest) = bytes.split_at(length);
    out.extend_from_slice(plain)?;
    Ok(rest)
}

fn spell_byte(out: &mut Vec<u8>, byte: u8) -> Result<(), AllocError>
    ensures { OnOk result (out.new.items ≡ out.old.items ++ spelled_byte byte) }
{
    if is_plain(byte) {
        out.push(byte)?;
    } else {
        out.extend_from_slice(&[b'\\', hex_digit(byte / 16), hex_digit(byte % 16)])?;
    }
    Ok(())
}

/// Writes a text as it is spelled, run by run.
fn spell_runs(out: &mut Vec<u8>, text: &[u8]) -> Result<(), AllocError>
    ensures { OnOk result (out.new.items ≡ out.old.items ++ spelled text.now) }
{
    let mut rest = text;
    for _ in 0..text.len() {
        rest = copy_plain(out, rest)?;
        let [byte, after @ ..] = rest else { break };
        spell_byte(out, *byte)?;
        rest = after;
    }
    Ok(())
}

/// Writes a text at the end as it is spelled on a line: bytes 32 to 126 but the backslash as they
/// are, every other byte as a backslash and two lower-case hexadecimal digits.
#[tactic(auto, using(crate::proofs::Runs::plain_spelled))]
pub fn spell_into(out: &mut Vec<u8>, text: &[u8]) -> Result<(), AllocError>
    ensures { OnOk result (out.new.items ≡ out.old.items ++ spelled text.now) }
{
    if is_all_plain(text) {
        out.extend_from_slice(text)
    } else {
        spell_runs(out, text)
    }
}

fn hex_value(digit: u8) -> Option<u8>
    ensures { result ≡ value_of digit }
{
    match digit {
        b'0'..=b'9' => Some(digit - b'0'),
        b'a'..=b'f' => Some(digit - b'a' + 10),
        _ => None,
    }
}

fn escape(high: u8, low: u8) -> Option<u8>
    ensures { result ≡ escape_of (value_of high) (value_of low) }
{
    let high = hex_value(high)?;
    let low = hex_value(low)?;
    let byte = high * 16 + low;
    if is_plain(byte) { None } else { Some(byte) }
}

/// The first byte of a text, and the spelling of the others.
fn char_of(bytes: &[u8]) -> Option<(u8, &[u8])>
    ensures value { option_map (λ x. (x.0, x.1.now)) result ≡ char_at bytes.now }
    ensures shorter { IfSome result (λ x. length x.1.now < length bytes.now) }
{
    match bytes {
        [] => None,
        [b'\\', high, low, rest @ ..] => Some((escape(*high, *low)?, rest)),
        [byte, rest @ ..] => {
            if is_plain(*byte) {
                Some((*byte, rest))
            } else {
                None
            }
        }
    }
}

/// Writes the text that the bytes spell, run by run, and says whether they spell one.
fn unspell_runs(out: &mut Vec<u8>, bytes: &[u8]) -> Result<bool, AllocError>
    ensures { IfOk result (λ known. option_map (λ t. out.old.items ++ t) (unspelled bytes.now)
        ≡ (if known then Some out.new.items else None)) }
{
    let mut rest = bytes;
    for _ in 0..bytes.len() {
        rest = copy_plain(out, rest)?;
        if rest.is_empty() {
            break;
        }
        match char_of(rest) {
            None => return Ok(false),
            Some((byte, after)) => {
                out.push(byte)?;
                rest = after;
            }
        }
    }
    Ok(true)
}

/// Writes at the end the text that the bytes spell, and says whether they spell one. They spell none where a byte
/// stands for itself that may not, or one is escaped that stands for itself. Then what was written is of no account.
#[tactic(auto, using(crate::proofs::Runs::plain_unspelled))]
pub fn unspell_into(out: &mut Vec<u8>, bytes: &[u8]) -> Result<bool, AllocError>
    ensures { IfOk result (λ known. option_map (λ t. out.old.items ++ t) (unspelled bytes.now)
        ≡ (if known then Some out.new.items else None)) }
{
    if is_all_plain(bytes) {
        out.extend_from_slice(bytes)?;
        Ok(true)
    } else {
        unspell_runs(out, bytes)
    }
}

/// The text that the bytes spell, or `None` where they spell none: where a byte stands for itself
/// that may not, or one is escaped that stands for itself.
pub fn unspell(alloc: Global, bytes: &[u8]) -> Result<Option<Vec<u8>>, AllocError>
    ensures value { IfOk result (λ o. option_map (λ v. v.items) o ≡ unspelled bytes.now) }
    ensures found { IfOk result (λ o. IfSome o (λ v. bytes.now ≡ spelled v.items)) }
    ensures none { IfOk result (λ o. IfNone o ((t : List ℕ) → All (λ b. b < 256) t → bytes.now ≢ spelled t)) }
{
    let mut text = Vec::new(alloc);
    if unspell_into(&mut text, bytes)? {
        Ok(Some(text))
    } else {
        Ok(None)
    }
}

/// The number that the bytes spell: `0`, or a digit 1 to 9 and at most six digits more.
pub fn number_at(bytes: &[u8]) -> Option<u32>
    ensures value { result ≡ number_spelled bytes.now }
    ensures found { IfSome result (λ n. (n < 10 ^ 7) × (bytes.now ≡ decimal n)) }
    ensures none { IfNone result ((n : ℕ) → n < 10 ^ 7 → bytes.now ≢ decimal n) }
{
    number_of(bytes)
}

fn number_of(bytes: &[u8]) -> Option<u32>
    ensures { result ≡ number_spelled bytes.now }
{
    if bytes.is_empty() || 7 < bytes.len() || (bytes[0] == b'0' && bytes.len() != 1) {
        return None;
    }
    let mut number = 0;
    for byte in bytes {
        if !byte.is_ascii_digit() {
            return None;
        }
        number = number * 10 + u32::from(*byte - b'0');
    }
    Some(number)
}
