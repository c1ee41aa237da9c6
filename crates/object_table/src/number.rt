//! The numbers of objects: backgrounds and cards in their orders, parts by kind within their layer.

ghost use Rattle.std.specs.Prelude.{◌≡◌, ◌==◌, ◌<◌, find, position, IfSome, length};
ghost use Rattle.object_table.specs.Numbers.{number_in, number_of, of_kind, part_number, layer_of};
ghost use Rattle.object_table.specs.Objects.{contains_id, has_kind, is_of, parts_at};

use crate::ids::Id;
use crate::object::Kind;
use crate::stack::Stack;
use ht_values::PartKind;

impl Stack {
    /// The number of an object, counted from 1: of a background or a card in its order, of a part among
    /// those of its kind in its layer. `None` for the stack itself, and where there is no object or it
    /// stands nowhere.
    pub fn number(&self, id: Id) -> Option<usize>
        ensures { result ≡ number_of self.now.content id }
    {
        match self.object(id)?.kind {
            Kind::Stack => None,
            Kind::Background { .. } => self.backgrounds().number_of(id),
            Kind::Card { .. } => self.cards().number_of(id),
            Kind::CardButton { .. } | Kind::BackgroundButton { .. } => {
                self.part_number(PartKind::Button, id)
            }
            Kind::CardField { .. } | Kind::BackgroundField { .. } => {
                self.part_number(PartKind::Field, id)
            }
        }
    }

    fn part_number(&self, kind: PartKind, part: Id) -> Option<usize>
        ensures { result ≡ part_number self.now.content kind part }
    {
        let layer = self.layer_of(part)?;
        self.number_among(self.parts_at(layer), kind, part)
    }

    fn layer_of(&self, part: Id) -> Option<Id>
        ensures { result ≡ layer_of self.now.content part }
    {
        match self.layer_among(self.backgrounds().as_slice(), part) {
            Some(background) => Some(background),
            None => self.layer_among(self.cards().as_slice(), part),
        }
    }

    fn layer_among(&self, layers: &[Id], part: Id) -> Option<Id>
        ensures { result ≡ find (λ layer. contains_id part (parts_at self.now.content layer)) layers.now }
    {
        layers
            .iter()
            .copied()
            .find(|layer| self.has_part(*layer, part))
    }

    fn has_part(&self, layer: Id, part: Id) -> bool
        ensures { result ≡ contains_id part (parts_at self.now.content layer) }
    {
        self.parts_at(layer).contains(&part)
    }

    fn number_among(&self, parts: &[Id], kind: PartKind, part: Id) -> Option<usize>
        ensures { result ≡ number_in part (of_kind self.now.content kind parts.now) }
    {
        Some(self.place_among(parts, kind, part)? + 1)
    }

    fn place_among(&self, parts: &[Id], kind: PartKind, part: Id) -> Option<usize>
        ensures value { result ≡ position (λ x. x == part) (of_kind self.now.content kind parts.now) }
        ensures within { IfSome result (λ i. i < length parts.now) }
    {
        parts
            .iter()
            .copied()
            .filter(|id| self.is_part(*id, kind))
            .position(|id| id == part)
    }

    /// Whether an object is there and is a button, or a field.
    pub fn is_part(&self, id: Id, kind: PartKind) -> bool
        ensures { result ≡ has_kind (is_of kind) self.now.content id }
    {
        match self.object(id) {
            Some(object) => object.kind.is_part(kind),
            None => false,
        }
    }
}
