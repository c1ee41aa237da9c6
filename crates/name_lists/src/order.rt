//! The order of names by their folded forms. A name is told by where it is written, so that the order of thousands
//! takes little memory.

ghost use Rattle.std.specs.Prelude.{◌≡◌, ◌<◌, ℕ, List, [], length, slice_index_or, IfOk};
ghost use Rattle.std.specs.Cmp.Lexicographic.{slice_cmp};
ghost use Rattle.std.specs.Ordering.{nat_cmp};
ghost use Rattle.ht_values.specs.Text.{folded};
ghost use Rattle.name_lists.specs.Places.{place_of_name};
ghost use Rattle.name_lists.specs.Parameters.{arguments_of, bindings_of, names_bound};
ghost use Rattle.name_lists.specs.Order.{IsOrderOf, form_by};
ghost use Rattle.name_lists.specs.declared.order.TheConstants.{MOST_UNORDERED};

use ht_values::Text;
use std::alloc::{AllocError, Global};
use std::cmp::Ordering;

/// The name at a place, as it is written where its argument stands. At no place it has no byte.
fn name_at<'a>(written: &'a [Text], arguments: &[usize], place: usize) -> &'a [u8]
    ensures { folded result.now ≡ form_by written.now arguments.now place }
{
    match arguments.get(place) {
        Some(argument) => written_at(written, *argument),
        None => &[],
    }
}

/// The name that is written at a place. At no place it has no byte.
fn written_at(written: &[Text], place: usize) -> &[u8]
    ensures { result.now ≡ slice_index_or written.now place [] }
{
    match written.get(place) {
        Some(name) => name.as_slice(),
        None => &[],
    }
}

/// How two names stand in order, by the bytes of their folded forms.
fn compare_forms(left: &[u8], right: &[u8]) -> Ordering
    ensures { result ≡ slice_cmp nat_cmp (folded left.now) (folded right.now) }
{
    left.iter()
        .map(|byte| byte.to_ascii_lowercase())
        .cmp(right.iter().map(|byte| byte.to_ascii_lowercase()))
}

/// The numbers below one.
fn numbers_below(alloc: Global, end: usize) -> Result<Vec<usize>, AllocError>
    ensures { IfOk result (λ n. (length n.items ≡ end)
        × ((i : ℕ) → i < end → slice_index_or n.items i 0 ≡ i)) }
{
    let mut numbers = Vec::with_capacity(alloc, end)?;
    for number in 0..end {
        numbers.push(number)?;
    }
    Ok(numbers)
}

/// So many names are looked at one by one, and no order of them is kept: about as many as there are letters.
pub(crate) const MOST_UNORDERED: usize = 32;

/// The places of the names in the order of their folded forms, if they are many.
pub(crate) fn order_of(
    alloc: Global,
    written: &[Text],
    arguments: &[usize],
) -> Result<Vec<usize>, AllocError>
    requires { arguments.now ≡ arguments_of written.now }
    ensures { IfOk result (λ order. MOST_UNORDERED < length arguments.now
        → IsOrderOf (names_bound (bindings_of written.now)) order.items) }
{
    if arguments.len() <= MOST_UNORDERED {
        return Ok(Vec::new(alloc));
    }
    ordered(alloc, written, arguments)
}

/// The places of the names in the order of their folded forms.
fn ordered(alloc: Global, written: &[Text], arguments: &[usize]) -> Result<Vec<usize>, AllocError>
    requires { arguments.now ≡ arguments_of written.now }
    ensures { IfOk result (λ order. IsOrderOf (names_bound (bindings_of written.now)) order.items) }
{
    let mut order = numbers_below(alloc, arguments.len())?;
    order.sort_unstable_by(|place, other| {
        let name = name_at(written, arguments, *place);
        compare_forms(name, name_at(written, arguments, *other))
    });
    Ok(order)
}

/// The place of the name that is the same, by halves.
pub(crate) fn searched(
    written: &[Text],
    arguments: &[usize],
    order: &[usize],
    name: &[u8],
) -> Option<usize>
    requires arguments { arguments.now ≡ arguments_of written.now }
    requires ordered { IsOrderOf (names_bound (bindings_of written.now)) order.now }
    ensures { result ≡ place_of_name name.now (names_bound (bindings_of written.now)) }
{
    match order.binary_search_by(|place| compare_forms(name_at(written, arguments, *place), name)) {
        Ok(at) => Some(order[at]),
        Err(_) => None,
    }
}

/// The place of the name that is the same, one by one.
pub(crate) fn scanned(written: &[Text], arguments: &[usize], name: &[u8]) -> Option<usize>
    requires { arguments.now ≡ arguments_of written.now }
    ensures { result ≡ place_of_name name.now (names_bound (bindings_of written.now)) }
{
    for place in 0..arguments.len() {
        if name_at(written, arguments, place).eq_ignore_ascii_case(name) {
            return Some(place);
        }
    }
    None
}
