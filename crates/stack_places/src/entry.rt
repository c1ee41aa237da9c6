//! What one exchange in a stack needs.

ghost use Rattle.std.specs.Prelude.{◌≡◌, unwrap_or};
ghost use Rattle.object_table.specs.Setting.{value_at, with_value_at};
ghost use Rattle.stack_places.specs.Exchange.{exchanged, taken, card_of, IsReady};
ghost use Rattle.stack_places.specs.Exchange.{is_structural as makes_or_removes};

use crate::boxed::BoxedObject;
use object_table::{FieldText, Id, IdList, PropValue, Stack};

/// A place of a stack, with the value that isn't there now. A value that would make every entry larger stands in a box,
/// which is made before the exchange.
#[derive(Drop)]
pub enum StackEntry {
    /// An object and a value of one of its properties. Where there is no such object, or it has no such property,
    /// the exchange changes nothing.
    Prop(Id, PropValue),
    /// A field and a card, or 0 for the text that the cards share.
    FieldText(Id, Id, Option<FieldText>),
    /// A button of a background and a card, or 0 for the hilite that the cards share.
    Hilite(Id, Id, Option<bool>),
    Object(Id, BoxedObject),
    CardOrder(IdList),
    BackgroundOrder(IdList),
    /// A card or a background, and the list of its parts.
    Parts(Id, Option<IdList>),
    NextId(Id),
}

impl StackEntry {
    /// Exchanges the value of the place with the entry's. It takes no memory.
    #[tactic(auto, unfolding(crate::specs::Exchange::exchanged, crate::specs::Exchange::taken, crate::specs::Exchange::IsReady))]
    pub fn exchange(&mut self, stack: &mut Stack)
        requires { IsReady stack.old.room self.old }
        ensures stack { stack.new ≡ record stack.old { content = exchanged stack.old.content self.old } }
        ensures entry { self.new ≡ taken stack.old.content self.old }
    {
        match self {
            StackEntry::Prop(id, value) => exchange_property(stack, *id, value),
            StackEntry::FieldText(field, card, text) => stack.swap_text(*field, *card, text),
            StackEntry::Hilite(button, card, hilite) => stack.swap_hilite(*button, *card, hilite),
            StackEntry::Object(id, object) => object.exchange(stack, *id),
            StackEntry::CardOrder(cards) => stack.swap_order(cards),
            StackEntry::BackgroundOrder(backgrounds) => stack.swap_backgrounds(backgrounds),
            StackEntry::Parts(layer, parts) => stack.swap_parts(*layer, parts),
            StackEntry::NextId(next) => stack.swap_next(next),
        }
    }

    /// The card, or 0, whose text or hilite the entry exchanges. `None` where it exchanges neither.
    #[tactic(auto, unfolding(crate::specs::Exchange::card_of))]
    pub fn card(&self) -> Option<Id>
        ensures { result ≡ card_of self.now }
    {
        match self {
            StackEntry::FieldText(_, card, _) | StackEntry::Hilite(_, card, _) => Some(*card),
            StackEntry::Prop(_, _)
            | StackEntry::Object(_, _)
            | StackEntry::CardOrder(_)
            | StackEntry::BackgroundOrder(_)
            | StackEntry::Parts(_, _)
            | StackEntry::NextId(_) => None,
        }
    }

    /// Whether the entry makes or removes an object.
    #[tactic(auto, unfolding(crate::specs::Exchange::is_structural))]
    pub fn is_structural(&self) -> bool
        ensures { result ≡ makes_or_removes self.now }
    {
        matches!(self, StackEntry::Object(_, _))
    }
}

fn exchange_property(stack: &mut Stack, id: Id, value: &mut PropValue)
    ensures stack { stack.new ≡ record stack.old { content = with_value_at stack.old.content id value.old } }
    ensures value { value.new ≡ unwrap_or (value_at stack.old.content id value.old) value.old }
{
    if stack.may_set(id, value) {
        stack.swap_prop(id, value);
    }
}
