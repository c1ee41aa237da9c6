//! Texts made of parts.

ghost use Rattle.std.specs.Prelude.{◌≡◌, ◌≤◌, ◌+◌, ◌++◌, length, IfOk, IsOk};
ghost use Rattle.ht_values.specs.Outcome.{Gives, within_limit};
ghost use Rattle.ht_values.specs.declared.few_bytes.TheConstants.{IN_PLACE};
ghost use Rattle.ht_values.specs.declared.text.TheConstants.{LIMIT};

use crate::failure::Failure;
use crate::fault::Fault;
use crate::few_bytes::{FewBytes, IN_PLACE};
use crate::text::{LIMIT, Text, list_of_parts};
use std::alloc::{AllocError, Global};

/// A text of three parts, one after another: `TooLong` where they are over 30,000 bytes, before any memory is taken,
/// else `Memory` where a growth was refused. It takes no memory where the text has at most 22 bytes.
pub fn joined(alloc: Global, left: &[u8], between: &[u8], right: &[u8]) -> Result<Text, Failure>
    ensures value { Gives result (within_limit (left.now ++ between.now ++ right.now)) }
    ensures short { length left.now + length between.now + length right.now ≤ IN_PLACE → IsOk result }
{
    if LIMIT < left.len()
        || LIMIT < between.len()
        || LIMIT < right.len()
        || LIMIT < left.len() + between.len() + right.len()
    {
        return Err(Failure::Fault(Fault::TooLong));
    }
    Ok(joined_fitting(alloc, left, between, right)?)
}

/// A text of three parts that are known to fit, one after another. It takes no memory where the text has at most 22
/// bytes, and else the room for all of them at once.
pub fn joined_fitting(
    alloc: Global,
    left: &[u8],
    between: &[u8],
    right: &[u8],
) -> Result<Text, AllocError>
    requires { length left.now + length between.now + length right.now ≤ LIMIT }
    ensures value { IfOk result (λ t. t ≡ left.now ++ between.now ++ right.now) }
    ensures short { length left.now + length between.now + length right.now ≤ IN_PLACE → IsOk result }
{
    let count = left.len() + between.len() + right.len();
    if count <= IN_PLACE {
        return Ok(Text::in_place(alloc, joined_few(left, between, right)));
    }
    Text::fitting_vec(list_of_parts(alloc, count, left, between, right)?)
}

/// Three parts of few bytes, one after another.
fn joined_few(left: &[u8], between: &[u8], right: &[u8]) -> FewBytes
    requires { length left.now + length between.now + length right.now ≤ IN_PLACE }
    ensures { result ≡ left.now ++ between.now ++ right.now }
{
    let mut few = FewBytes::copied(left);
    few.append(between);
    few.append(right);
    few
}
