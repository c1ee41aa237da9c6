//! The flags of each kind of object.

ghost use Rattle.std.specs.Prelude.{◌≡◌};
ghost use Rattle.object_table.specs.Flags.{visible_of, shared_hilite_of, lock_text_of, shared_text_of, cant_delete_of};

use object_table::Kind;

pub(crate) fn visible(kind: Kind) -> Option<bool>
    ensures { result ≡ visible_of kind }
{
    match kind {
        Kind::CardButton { visible, .. } => Some(visible),
        Kind::BackgroundButton { visible, .. } => Some(visible),
        Kind::CardField { visible, .. } => Some(visible),
        Kind::BackgroundField { visible, .. } => Some(visible),
        Kind::Stack | Kind::Background { .. } | Kind::Card { .. } => None,
    }
}

pub(crate) fn shared_hilite(kind: Kind) -> Option<bool>
    ensures { result ≡ shared_hilite_of kind }
{
    match kind {
        Kind::BackgroundButton { shared_hilite, .. } => Some(shared_hilite),
        Kind::Stack
        | Kind::Background { .. }
        | Kind::Card { .. }
        | Kind::CardButton { .. }
        | Kind::CardField { .. }
        | Kind::BackgroundField { .. } => None,
    }
}

pub(crate) fn lock_text(kind: Kind) -> Option<bool>
    ensures { result ≡ lock_text_of kind }
{
    match kind {
        Kind::CardField { lock_text, .. } => Some(lock_text),
        Kind::BackgroundField { lock_text, .. } => Some(lock_text),
        Kind::Stack
        | Kind::Background { .. }
        | Kind::Card { .. }
        | Kind::CardButton { .. }
        | Kind::BackgroundButton { .. } => None,
    }
}

pub(crate) fn shared_text(kind: Kind) -> Option<bool>
    ensures { result ≡ shared_text_of kind }
{
    match kind {
        Kind::BackgroundField { shared_text, .. } => Some(shared_text),
        Kind::Stack
        | Kind::Background { .. }
        | Kind::Card { .. }
        | Kind::CardButton { .. }
        | Kind::BackgroundButton { .. }
        | Kind::CardField { .. } => None,
    }
}

pub(crate) fn cant_delete(kind: Kind) -> Option<bool>
    ensures { result ≡ cant_delete_of kind }
{
    match kind {
        Kind::Background { cant_delete } => Some(cant_delete),
        Kind::Card { cant_delete, .. } => Some(cant_delete),
        Kind::Stack
        | Kind::CardButton { .. }
        | Kind::BackgroundButton { .. }
        | Kind::CardField { .. }
        | Kind::BackgroundField { .. } => None,
    }
}
