//! One of several objects in their order.

ghost use Rattle.std.specs.Prelude.{◌≡◌, List, ℕ, length, option_and_then};
ghost use Rattle.object_table.specs.Content.{Content};
ghost use Rattle.object_table.specs.Numbers.{at_number, of_kind};
ghost use Rattle.object_table.specs.References.{pick as pick_of};
ghost use Rattle.object_references.specs.References as references;
ghost use Rattle.object_references.specs.declared.referent.Pick.TheVariants as variants;

use crate::parts::parts_of;
use crate::referent::Pick;
use ht_lex::Ordinal;
use ht_values::{PartKind, Text, numeral};
use object_table::{Id, IdList, LayerId, Stack, Which};

/// The number of an ordinal among so many: the last has the number that they count.
pub fn ordinal_number(ordinal: Ordinal, count: usize) -> usize
    ensures { result ≡ references.ordinal_number ordinal count }
{
    match ordinal.from_first() {
        Some(number) => usize::from(number),
        None => count,
    }
}

fn by_id(text: &Text) -> Option<Which<'_>>
    ensures { (s : Content) (ids : List ℕ)
        → option_and_then (λ w. pick_of s w ids) result ≡ references.picked s ids (variants.ById text.now) }
{
    let id = usize::try_from(numeral(text)?).ok()?;
    Some(Which::Id(id))
}

fn by_text(text: &Text) -> Option<Which<'_>>
    ensures { (s : Content) (ids : List ℕ)
        → option_and_then (λ w. pick_of s w ids) result ≡ references.picked s ids (variants.ByText text.now) }
{
    match numeral(text) {
        Some(number) => Some(Which::Number(usize::try_from(number).ok()?)),
        None if text.len() == 0 => None,
        None => Some(Which::Name(text)),
    }
}

/// What is meant of a list of so many. `None` where nothing can be: by an id that is no numeral, and by the empty text,
/// which is no name.
fn which(pick: &Pick, count: usize) -> Option<Which<'_>>
    ensures { (s : Content) (ids : List ℕ) → length ids ≡ count
        → option_and_then (λ w. pick_of s w ids) result ≡ references.picked s ids pick.now }
{
    match pick {
        Pick::Nth(ordinal) => Some(Which::Number(ordinal_number(*ordinal, count))),
        Pick::ById(text) => by_id(text),
        Pick::ByText(text) => by_text(text),
    }
}

/// One of an order.
pub(crate) fn picked(stack: &Stack, order: &IdList, pick: &Pick) -> Option<Id>
    ensures { result ≡ references.picked stack.now.content order.now pick.now }
{
    stack.pick(order, which(pick, order.len())?)
}

/// One of the parts of a kind on a layer. They are walked once.
pub(crate) fn picked_part(stack: &Stack, layer: LayerId, kind: PartKind, pick: &Pick) -> Option<Id>
    ensures { result ≡ references.picked stack.now.content (references.parts_on stack.now.content layer kind) pick.now }
{
    match pick {
        Pick::Nth(ordinal) => nth_part(stack, layer, kind, *ordinal),
        Pick::ById(text) => stack.find_part(layer, kind, by_id(text)?),
        Pick::ByText(text) => stack.find_part(layer, kind, by_text(text)?),
    }
}

fn nth_part(stack: &Stack, layer: LayerId, kind: PartKind, ordinal: Ordinal) -> Option<Id>
    ensures { result ≡ references.picked stack.now.content (references.parts_on stack.now.content layer kind)
        (variants.Nth ordinal) }
{
    match ordinal.from_first() {
        Some(number) => stack.find_part(layer, kind, Which::Number(usize::from(number))),
        None => last_part(stack, parts_of(stack, layer), kind),
    }
}

/// The last of these parts that is of a kind.
fn last_part(stack: &Stack, parts: &[Id], kind: PartKind) -> Option<Id>
    ensures { result ≡ at_number (of_kind stack.now.content kind parts.now)
        (length (of_kind stack.now.content kind parts.now)) }
{
    let mut last = None;
    for part in parts {
        if stack.is_part(*part, kind) {
            last = Some(*part);
        }
    }
    last
}
