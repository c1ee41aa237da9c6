//! Buttons and fields by reference.

ghost use Rattle.std.specs.Prelude.{◌≡◌, [], length, unwrap_or};
ghost use Rattle.object_table.specs.Numbers.{of_kind};
ghost use Rattle.object_table.specs.Layers.{layer_parts};
ghost use Rattle.object_references.specs.References as references;

use crate::cards::{background_found, card_found, met_here};
use crate::picking::picked_part;
use crate::referent::{PartScope, Pick, Referent, Sought};
use ht_grammar::Layer;
use ht_values::{Fault, PartKind, Text};
use object_table::{Id, LayerId, Stack, Which};
use structural_changes::home_of;

/// The layer that is meant. Without a word for it a button is on the card and a field on the background.
pub fn layer_meant(layer: Option<Layer>, kind: PartKind) -> Layer
    ensures { result ≡ references.layer_meant layer kind }
{
    match (layer, kind) {
        (Some(layer), _) => layer,
        (None, PartKind::Button) => Layer::Card,
        (None, PartKind::Field) => Layer::Background,
    }
}

/// A card, or its background, as the place where a part is looked for.
pub fn scope_by(stack: &Stack, layer: Layer, card: Id) -> PartScope
    ensures { result ≡ references.scope_by stack.now.content layer card }
{
    let layer = match layer {
        Layer::Card => LayerId::OfCard(card),
        Layer::Background => LayerId::OfBackground(home_of(stack, card)),
    };
    PartScope { layer, card }
}

/// Where a part is looked for whose owner is a card: there, or on its background. `NoSuchObject` where there is no such
/// card.
pub fn scope_of_card(
    stack: &Stack,
    current: Id,
    layer: Layer,
    sought: &Sought,
) -> Result<PartScope, Fault>
    ensures { result ≡ references.scope_of_card stack.now.content current layer sought.now }
{
    Ok(scope_by(stack, layer, card_found(stack, current, sought)?))
}

/// Where a part is looked for whose owner is a background. `NoSuchObject` where there is no such background, and for a
/// part of a card.
pub fn scope_of_background(
    stack: &Stack,
    current: Id,
    layer: Layer,
    sought: &Sought,
) -> Result<PartScope, Fault>
    ensures { result ≡ references.scope_of_background stack.now.content current layer sought.now }
{
    match layer {
        Layer::Card => Err(Fault::NoSuchObject),
        Layer::Background => Ok(PartScope {
            layer: LayerId::OfBackground(background_found(stack, current, sought)?),
            card: current,
        }),
    }
}

/// The parts of a layer in their order, none where there is no such layer.
pub(crate) fn parts_of(stack: &Stack, layer: LayerId) -> &[Id]
    ensures { result.now ≡ unwrap_or (layer_parts stack.now.content layer) [] }
{
    match stack.parts(layer) {
        Some(parts) => parts.as_slice(),
        None => &[],
    }
}

/// How many parts of a kind a layer has, 0 where there is no such layer.
pub fn part_count(stack: &Stack, layer: LayerId, kind: PartKind) -> usize
    ensures { result ≡ length (references.parts_on stack.now.content layer kind) }
{
    count_among(stack, parts_of(stack, layer), kind)
}

fn count_among(stack: &Stack, parts: &[Id], kind: PartKind) -> usize
    ensures { result ≡ length (of_kind stack.now.content kind parts.now) }
{
    parts
        .iter()
        .filter(|part| stack.is_part(**part, kind))
        .count()
}

/// The part of a kind that is picked where it is looked for. `NoSuchObject` where there is none.
pub fn part_met(
    stack: &Stack,
    kind: PartKind,
    scope: PartScope,
    pick: &Pick,
) -> Result<Referent, Fault>
    ensures { result ≡ references.part_met stack.now.content kind scope pick.now }
{
    let part = picked_part(stack, scope.layer, kind, pick).ok_or(Fault::NoSuchObject)?;
    Ok(met_here(scope.card, part))
}

/// The first field of a name, also of the empty one, on the current card or on its background. `NoSuchObject` where
/// there is none.
pub fn field_named(stack: &Stack, current: Id, layer: Layer, name: &Text) -> Result<Referent, Fault>
    ensures { result ≡ references.field_named stack.now.content current layer name.now }
{
    let scope = scope_by(stack, layer, current);
    let field = stack
        .find_part(scope.layer, PartKind::Field, Which::Name(name))
        .ok_or(Fault::NoSuchObject)?;
    Ok(met_here(current, field))
}
