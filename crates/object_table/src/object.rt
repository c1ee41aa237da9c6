//! What an object is.

ghost use Rattle.std.specs.Prelude.{◌≡◌, [], IsSome, is_some};
ghost use Rattle.object_table.specs.Flags.{visible_of, hilite_of, shared_hilite_of, lock_text_of, shared_text_of};
ghost use Rattle.object_table.specs.Flags.{cant_delete_of, with_visible, with_hilite, with_shared_hilite};
ghost use Rattle.object_table.specs.Flags.{with_lock_text, with_shared_text, with_cant_delete};
ghost use Rattle.object_table.specs.Layers.{layer_id, is_of_layer};
ghost use Rattle.object_table.specs.Objects.{is_of};
ghost use Rattle.object_table.specs.Setting.{value_in, with_value};

use crate::ids::Id;
use crate::name::ObjectName;
use crate::property::PropValue;
use ht_values::{PartKind, Text};
use std::alloc::Global;
use std::mem;

/// The kind of an object, with the flags that its kind has.
#[derive(Clone, Copy, Debug)]
pub enum Kind {
    Stack,
    Background {
        cant_delete: bool,
    },
    Card {
        background: Id,
        cant_delete: bool,
    },
    CardButton {
        visible: bool,
        hilite: bool,
    },
    BackgroundButton {
        visible: bool,
        shared_hilite: bool,
    },
    CardField {
        visible: bool,
        lock_text: bool,
    },
    BackgroundField {
        visible: bool,
        lock_text: bool,
        shared_text: bool,
    },
}

/// An object: its name, its script, and its kind with its flags.
pub struct Object {
    pub name: ObjectName,
    pub script: Text,
    pub kind: Kind,
}

/// Written here and not derived, so that no crate above proves anew how it is dropped.
impl Drop for Object {
    fn drop(self) {
        let Object {
            name: _,
            script: _,
            kind: _,
        } = self;
    }
}

impl Object {
    /// An object of this kind with an empty name and an empty script. It takes no memory.
    pub fn empty(alloc: Global, kind: Kind) -> Object
        ensures { result ≡ record { name = []; script = []; kind = kind } }
    {
        Object {
            name: ObjectName::new(Text::new(alloc)),
            script: Text::new(alloc),
            kind,
        }
    }

    pub(crate) fn may_set(&self, value: &PropValue) -> bool
        ensures { result ≡ is_some (value_in value.now self.now) }
    {
        match value {
            PropValue::NameIs(_) | PropValue::ScriptIs(_) => true,
            PropValue::VisibleIs(_) => {
                self.kind.is_part(PartKind::Button) || self.kind.is_part(PartKind::Field)
            }
            PropValue::HiliteIs(_) => matches!(self.kind, Kind::CardButton { .. }),
            PropValue::SharedHiliteIs(_) => matches!(self.kind, Kind::BackgroundButton { .. }),
            PropValue::LockTextIs(_) => self.kind.is_part(PartKind::Field),
            PropValue::SharedTextIs(_) => matches!(self.kind, Kind::BackgroundField { .. }),
            PropValue::CantDeleteIs(_) => {
                matches!(self.kind, Kind::Background { .. } | Kind::Card { .. })
            }
        }
    }

    pub(crate) fn swap_value(&mut self, value: &mut PropValue)
        requires { IsSome (value_in value.old self.old) }
        ensures value { value_in value.old self.old ≡ Some value.new }
        ensures object { self.new ≡ with_value value.old self.old }
    {
        match value {
            PropValue::NameIs(name) => self.name.swap_text(name),
            PropValue::ScriptIs(script) => mem::swap(&mut self.script, script),
            PropValue::VisibleIs(flag) => self.kind.swap_visible(flag),
            PropValue::HiliteIs(flag) => self.kind.swap_hilite(flag),
            PropValue::SharedHiliteIs(flag) => self.kind.swap_shared_hilite(flag),
            PropValue::LockTextIs(flag) => self.kind.swap_lock_text(flag),
            PropValue::SharedTextIs(flag) => self.kind.swap_shared_text(flag),
            PropValue::CantDeleteIs(flag) => self.kind.swap_cant_delete(flag),
        }
    }
}

/// What has parts: a card or a background, by its id.
#[derive(Clone, Copy, Debug)]
pub enum LayerId {
    OfCard(Id),
    OfBackground(Id),
}

impl LayerId {
    /// The id of the card or background.
    pub(crate) fn id(self) -> Id
        ensures { result ≡ layer_id self }
    {
        match self {
            LayerId::OfCard(id) | LayerId::OfBackground(id) => id,
        }
    }
}

impl Kind {
    /// Whether this is the kind of what the layer says: a card or a background.
    pub(crate) fn is_of(self, layer: LayerId) -> bool
        ensures { result ≡ is_of_layer layer self }
    {
        match layer {
            LayerId::OfCard(_) => matches!(&self, Kind::Card { .. }),
            LayerId::OfBackground(_) => matches!(&self, Kind::Background { .. }),
        }
    }

    /// Whether this is a button, or a field, of a card or of a background.
    pub(crate) fn is_part(self, kind: PartKind) -> bool
        ensures { result ≡ is_of kind self }
    {
        match kind {
            PartKind::Button => matches!(
                &self,
                Kind::CardButton { .. } | Kind::BackgroundButton { .. }
            ),
            PartKind::Field => matches!(
                &self,
                Kind::CardField { .. } | Kind::BackgroundField { .. }
            ),
        }
    }
}

impl Kind {
    fn swap_visible(&mut self, flag: &mut bool)
        requires { IsSome (visible_of self.old) }
        ensures value { visible_of self.old ≡ Some flag.new }
        ensures kind { self.new ≡ with_visible flag.old self.old }
    {
        match self {
            Kind::CardButton { visible, .. } => mem::swap(visible, flag),
            Kind::BackgroundButton { visible, .. } => mem::swap(visible, flag),
            Kind::CardField { visible, .. } => mem::swap(visible, flag),
            Kind::BackgroundField { visible, .. } => mem::swap(visible, flag),
            Kind::Stack | Kind::Background { .. } | Kind::Card { .. } => unreachable!(),
        }
    }

    fn swap_hilite(&mut self, flag: &mut bool)
        requires { IsSome (hilite_of self.old) }
        ensures value { hilite_of self.old ≡ Some flag.new }
        ensures kind { self.new ≡ with_hilite flag.old self.old }
    {
        match self {
            Kind::CardButton { hilite, .. } => mem::swap(hilite, flag),
            Kind::Stack
            | Kind::Background { .. }
            | Kind::Card { .. }
            | Kind::BackgroundButton { .. }
            | Kind::CardField { .. }
            | Kind::BackgroundField { .. } => unreachable!(),
        }
    }

    fn swap_shared_hilite(&mut self, flag: &mut bool)
        requires { IsSome (shared_hilite_of self.old) }
        ensures value { shared_hilite_of self.old ≡ Some flag.new }
        ensures kind { self.new ≡ with_shared_hilite flag.old self.old }
    {
        match self {
            Kind::BackgroundButton { shared_hilite, .. } => mem::swap(shared_hilite, flag),
            Kind::Stack
            | Kind::Background { .. }
            | Kind::Card { .. }
            | Kind::CardButton { .. }
            | Kind::CardField { .. }
            | Kind::BackgroundField { .. } => unreachable!(),
        }
    }

    fn swap_lock_text(&mut self, flag: &mut bool)
        requires { IsSome (lock_text_of self.old) }
        ensures value { lock_text_of self.old ≡ Some flag.new }
        ensures kind { self.new ≡ with_lock_text flag.old self.old }
    {
        match self {
            Kind::CardField { lock_text, .. } => mem::swap(lock_text, flag),
            Kind::BackgroundField { lock_text, .. } => mem::swap(lock_text, flag),
            Kind::Stack
            | Kind::Background { .. }
            | Kind::Card { .. }
            | Kind::CardButton { .. }
            | Kind::BackgroundButton { .. } => unreachable!(),
        }
    }

    fn swap_shared_text(&mut self, flag: &mut bool)
        requires { IsSome (shared_text_of self.old) }
        ensures value { shared_text_of self.old ≡ Some flag.new }
        ensures kind { self.new ≡ with_shared_text flag.old self.old }
    {
        match self {
            Kind::BackgroundField { shared_text, .. } => mem::swap(shared_text, flag),
            Kind::Stack
            | Kind::Background { .. }
            | Kind::Card { .. }
            | Kind::CardButton { .. }
            | Kind::BackgroundButton { .. }
            | Kind::CardField { .. } => unreachable!(),
        }
    }

    fn swap_cant_delete(&mut self, flag: &mut bool)
        requires { IsSome (cant_delete_of self.old) }
        ensures value { cant_delete_of self.old ≡ Some flag.new }
        ensures kind { self.new ≡ with_cant_delete flag.old self.old }
    {
        match self {
            Kind::Background { cant_delete, .. } => mem::swap(cant_delete, flag),
            Kind::Card { cant_delete, .. } => mem::swap(cant_delete, flag),
            Kind::Stack
            | Kind::CardButton { .. }
            | Kind::BackgroundButton { .. }
            | Kind::CardField { .. }
            | Kind::BackgroundField { .. } => unreachable!(),
        }
    }
}
