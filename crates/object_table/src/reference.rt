//! References to parts: by number, by id or by name.

ghost use Rattle.std.specs.Prelude.{◌≡◌, ◌==◌, find};
ghost use Rattle.object_table.specs.Numbers.{at_number, of_kind};
ghost use Rattle.object_table.specs.References.{is_named, part_found, pick as picked};

use crate::ids::{Id, IdList};
use crate::name::SoughtName;
use crate::object::LayerId;
use crate::stack::Stack;
use ht_values::{PartKind, Text};

/// Which one is meant of an order, or of the parts of a kind on a layer.
#[derive(Clone, Copy)]
pub enum Which<'a> {
    /// By its number in their order, counted from 1.
    Number(usize),
    /// By its id. It may be more than any id is.
    Id(usize),
    /// By its name: the first in their order whose name is the same.
    Name(&'a Text),
}

impl Stack {
    /// The one that is meant in a list of objects.
    pub fn pick(&self, ids: &IdList, which: Which<'_>) -> Option<Id>
        ensures { result ≡ picked self.now.content which.entry ids.now }
    {
        match which {
            Which::Number(number) => ids.at_number(number),
            Which::Id(id) => id_in(ids.as_slice(), id),
            Which::Name(name) => self.named_in(ids.as_slice(), name),
        }
    }

    fn named_in(&self, ids: &[Id], name: &Text) -> Option<Id>
        ensures { result ≡ find (is_named self.now.content name.now) ids.now }
    {
        let sought = SoughtName::new(name);
        ids.iter().copied().find(|id| self.is_named(*id, &sought))
    }

    /// The part of this kind on a layer that is meant. `None` where there is no such layer or no such part
    /// on it.
    pub fn find_part(&self, layer: LayerId, kind: PartKind, which: Which<'_>) -> Option<Id>
        ensures { result ≡ part_found self.now.content layer kind which.entry }
    {
        let parts = self.parts(layer)?.as_slice();
        match which {
            Which::Number(number) => self.numbered_among(parts, kind, number),
            Which::Id(id) => self.id_among(parts, kind, id),
            Which::Name(name) => self.named_among(parts, kind, name),
        }
    }

    fn numbered_among(&self, parts: &[Id], kind: PartKind, number: usize) -> Option<Id>
        ensures { result ≡ at_number (of_kind self.now.content kind parts.now) number }
    {
        let mut before = number.checked_sub(1)?;
        for part in parts {
            if self.is_part(*part, kind) {
                if before == 0 {
                    return Some(*part);
                }
                before -= 1;
            }
        }
        None
    }

    fn id_among(&self, parts: &[Id], kind: PartKind, id: usize) -> Option<Id>
        ensures { result ≡ find (λ x. x == id) (of_kind self.now.content kind parts.now) }
    {
        parts
            .iter()
            .copied()
            .filter(|part| self.is_part(*part, kind))
            .find(|part| *part as usize == id)
    }

    fn named_among(&self, parts: &[Id], kind: PartKind, name: &Text) -> Option<Id>
        ensures { result ≡ find (is_named self.now.content name.now) (of_kind self.now.content kind parts.now) }
    {
        let sought = SoughtName::new(name);
        parts
            .iter()
            .copied()
            .filter(|part| self.is_part(*part, kind))
            .find(|part| self.is_named(*part, &sought))
    }

    fn is_named(&self, id: Id, sought: &SoughtName<'_>) -> bool
        ensures { result ≡ is_named self.now.content sought.now id }
    {
        match self.object(id) {
            Some(object) => object.name.same(sought),
            None => false,
        }
    }
}

fn id_in(ids: &[Id], id: usize) -> Option<Id>
    ensures { result ≡ find (λ x. x == id) ids.now }
{
    ids.iter().copied().find(|x| *x as usize == id)
}
