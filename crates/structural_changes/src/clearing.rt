//! Entries that clear places.

ghost use Rattle.std.specs.Prelude.{◌≡◌, true, OnOk, map};
ghost use Rattle.std.specs.List.{AllByRecursion};
ghost use Rattle.ht_values.specs.declared.word.PartKind.TheVariants.{Button, Field};
ghost use Rattle.stack_places.specs.Places.{whole, layer_parts as parts_of, field_text, button_hilite};
ghost use Rattle.structural_changes.specs.Prepared.{Adds, Opens, has_content};
ghost use Rattle.structural_changes.specs.Writes.{clear};

use crate::preparing::{add_entry, add_ready};
use object_table::{Id, Stack};
use stack_places::{BoxedObject, StackEntry};
use std::alloc::{AllocError, Global};

/// Adds that these objects go.
pub(crate) fn clear_objects(
    alloc: Global,
    stack: &mut Stack,
    entries: &mut Vec<StackEntry>,
    ids: &[Id],
) -> Result<(), AllocError>
    ensures adds { OnOk result (Adds stack.old stack.new entries.old.items entries.new.items
        (map (λ id. clear (whole id)) ids.now)) }
    ensures opens { Opens stack.old stack.new }
{
    entries.reserve(ids.len())?;
    for id in ids {
        let gone = BoxedObject::new(alloc, None)?;
        add_entry(stack, entries, StackEntry::Object(*id, gone))?;
    }
    Ok(())
}

/// Adds that the lists of parts of these layers go.
pub(crate) fn clear_parts(
    stack: &mut Stack,
    entries: &mut Vec<StackEntry>,
    layers: &[Id],
) -> Result<(), AllocError>
    ensures adds { OnOk result (Adds stack.old stack.new entries.old.items entries.new.items
        (map (λ id. clear (parts_of id)) layers.now)) }
    ensures opens { Opens stack.old stack.new }
{
    for layer in layers {
        add_entry(stack, entries, StackEntry::Parts(*layer, None))?;
    }
    Ok(())
}

/// Adds that these texts go, each of a field for a card, or for 0. They are there, so they have room.
pub(crate) fn clear_texts(
    stack: &Stack,
    entries: &mut Vec<StackEntry>,
    texts: &[(Id, Id)],
) -> Result<(), AllocError>
    requires { AllByRecursion (λ p. has_content Field stack.now.content p ≡ true) texts.now }
    ensures { OnOk result (Adds stack.now stack.now entries.old.items entries.new.items
        (map (λ p. clear (field_text p.0 p.1)) texts.now)) }
{
    stack.law_of_room();
    entries.reserve(texts.len())?;
    for text in texts {
        add_ready(stack, entries, StackEntry::FieldText(text.0, text.1, None));
    }
    Ok(())
}

/// Adds that these hilites go, each of a button for a card, or for 0. They are there, so they have room.
pub(crate) fn clear_hilites(
    stack: &Stack,
    entries: &mut Vec<StackEntry>,
    hilites: &[(Id, Id)],
) -> Result<(), AllocError>
    requires { AllByRecursion (λ p. has_content Button stack.now.content p ≡ true) hilites.now }
    ensures { OnOk result (Adds stack.now stack.now entries.old.items entries.new.items
        (map (λ p. clear (button_hilite p.0 p.1)) hilites.now)) }
{
    stack.law_of_room();
    entries.reserve(hilites.len())?;
    for hilite in hilites {
        add_ready(stack, entries, StackEntry::Hilite(hilite.0, hilite.1, None));
    }
    Ok(())
}
