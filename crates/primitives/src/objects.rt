//! Objects, as the rules find and change them. Where no such object is there, that is fault 3.

ghost use Rattle.std.specs.Prelude.{◌≡◌, true, length, IsSome, OnOk};
ghost use Rattle.properties.specs.PropertyText.{property_of as property_text};
ghost use Rattle.journal_entries.specs.Changes.{fits as fits_state};
ghost use Rattle.change_journal.specs.Rising.{Made};
ghost use Rattle.object_references.specs.References as references;
ghost use Rattle.object_references.specs.Settings as settings;
ghost use Rattle.containers.specs.Base.{base};
ghost use Rattle.meaning.specs.Menu.{closing as closing_of, differ};
ghost use Rattle.meaning.specs.Menu.{new_background_messages as messages_of_new_background};
ghost use Rattle.meaning.specs.Menu.{new_card_messages as messages_of_new_card, new_layer as layer_of_new};
ghost use Rattle.meaning.specs.Menu.{opening as opening_of};
ghost use Rattle.meaning.specs.Places.{Adds};
ghost use Rattle.meaning.specs.Values.{Yields};

use change_journal::{Change, World};
use externals::External;
use ht_grammar::Layer;
use ht_values::{Fault, PartKind, Prop, Value};
use meaning::{Budget, Frame, Stop, SystemMessage};
use object_references::{
    PartScope, Pick, Referent, Sought, background_met, card_found, card_met, first_card_found,
    layer_meant, name_of, part_count, part_met, scope_by, scope_of_background, scope_of_card,
};
use object_table::{Id, LayerId};
use properties::get;
use std::alloc::AllocError;
use structural_changes::home_of;

/// The name of the object to which the message was sent.
#[tactic(auto, using(meaning::proofs::Rules::yields_rules))]
pub(crate) fn target_name<E: External>(
    world: &World<E>,
    run: &Budget,
    frame: &Frame,
) -> Result<Value, Stop>
    ensures { Yields (settings.name_of world.now.history.now.stack world.now.history.now.current frame.now.target)
        result }
{
    let name = name_of(run.alloc(), world.stack(), world.current(), frame.target)?;
    Ok(Value::of_text(name))
}

/// A property of an object, or the fault in its place.
#[tactic(auto, using(meaning::proofs::Rules::yields_rules))]
#[inline(never)]
pub fn property<E: External>(
    world: &World<E>,
    run: &Budget,
    object: Referent,
    name: Prop,
) -> Result<Value, Stop>
    ensures { Yields (property_text world.now.history.now.stack object.card object.object name) result }
{
    let text = get(run.alloc(), world.stack(), object.card, object.object, name)?;
    Ok(Value::of_text(text))
}

/// How many parts of a kind there are on the current card or on its background.
pub(crate) fn parts_here<E: External>(
    world: &World<E>,
    layer: Option<Layer>,
    kind: PartKind,
) -> usize
    ensures { result ≡ length (settings.parts_here world.now.history.now.stack
        world.now.history.now.current layer kind) }
{
    let scope = scope_by(world.stack(), layer_meant(layer, kind), world.current());
    part_count(world.stack(), scope.layer, kind)
}

/// Remembers what a pick meant.
fn mean_pick(run: &Budget, pick: &Pick) {
    match pick {
        Pick::ById(text) | Pick::ByText(text) => run.trace().mean_text(text),
        Pick::Nth(_) => {}
    }
}

/// Remembers what was sought.
fn mean_sought(run: &Budget, sought: &Sought) {
    match sought {
        Sought::Picked(pick) => mean_pick(run, pick),
        Sought::This | Sought::Next | Sought::Previous => {}
    }
}

/// Where a part of a card is looked for.
#[tactic(auto, using(meaning::proofs::Rules::yields_rules))]
#[inline(never)]
pub fn card_scope<E: External>(
    world: &World<E>,
    run: &Budget,
    layer: Layer,
    card: &Sought,
) -> Result<PartScope, Stop>
    ensures { Yields (references.scope_of_card world.now.history.now.stack world.now.history.now.current layer card.now)
        result }
{
    match scope_of_card(world.stack(), world.current(), layer, card) {
        Ok(scope) => Ok(scope),
        Err(fault) => {
            mean_sought(run, card);
            Err(Stop::Fault(fault))
        }
    }
}

/// Where a part of a background is looked for.
#[tactic(auto, using(meaning::proofs::Rules::yields_rules))]
#[inline(never)]
pub fn background_scope<E: External>(
    world: &World<E>,
    run: &Budget,
    layer: Layer,
    background: &Sought,
) -> Result<PartScope, Stop>
    ensures { Yields (references.scope_of_background world.now.history.now.stack world.now.history.now.current layer
        background.now) result }
{
    match scope_of_background(world.stack(), world.current(), layer, background) {
        Ok(scope) => Ok(scope),
        Err(fault) => {
            mean_sought(run, background);
            Err(Stop::Fault(fault))
        }
    }
}

/// The part that is looked for.
#[tactic(auto, using(meaning::proofs::Rules::yields_rules))]
#[inline(never)]
pub fn part_in<E: External>(
    world: &World<E>,
    run: &Budget,
    kind: PartKind,
    scope: PartScope,
    pick: &Pick,
) -> Result<Referent, Stop>
    ensures { Yields (references.part_met world.now.history.now.stack kind scope pick.now) result }
{
    match part_met(world.stack(), kind, scope, pick) {
        Ok(part) => Ok(part),
        Err(fault) => {
            mean_pick(run, pick);
            Err(Stop::Fault(fault))
        }
    }
}

/// The card that is looked for.
#[tactic(auto, using(meaning::proofs::Rules::yields_rules))]
#[inline(never)]
pub fn card_there<E: External>(
    world: &World<E>,
    run: &Budget,
    card: &Sought,
) -> Result<Referent, Stop>
    ensures { Yields (references.card_met world.now.history.now.stack world.now.history.now.current card.now) result }
{
    match card_met(world.stack(), world.current(), card) {
        Ok(card) => Ok(card),
        Err(fault) => {
            mean_sought(run, card);
            Err(Stop::Fault(fault))
        }
    }
}

/// The background that is looked for.
#[tactic(auto, using(meaning::proofs::Rules::yields_rules))]
#[inline(never)]
pub fn background_there<E: External>(
    world: &World<E>,
    run: &Budget,
    background: &Sought,
) -> Result<Referent, Stop>
    ensures { Yields (references.background_met world.now.history.now.stack world.now.history.now.current
        background.now) result }
{
    match background_met(world.stack(), world.current(), background) {
        Ok(background) => Ok(background),
        Err(fault) => {
            mean_sought(run, background);
            Err(Stop::Fault(fault))
        }
    }
}

/// The card to go to.
#[tactic(auto, using(meaning::proofs::Rules::yields_rules))]
#[inline(never)]
pub fn card_to<E: External>(world: &World<E>, run: &Budget, card: &Sought) -> Result<Id, Stop>
    ensures { Yields (references.card_found world.now.history.now.stack world.now.history.now.current card.now) result }
{
    match card_found(world.stack(), world.current(), card) {
        Ok(card) => Ok(card),
        Err(fault) => {
            mean_sought(run, card);
            Err(Stop::Fault(fault))
        }
    }
}

/// The first card of the background to go to.
#[tactic(auto, using(meaning::proofs::Rules::yields_rules))]
#[inline(never)]
pub fn background_to<E: External>(
    world: &World<E>,
    run: &Budget,
    background: &Sought,
) -> Result<Id, Stop>
    ensures { Yields (references.first_card_found world.now.history.now.stack world.now.history.now.current
        background.now) result }
{
    match first_card_found(world.stack(), world.current(), background) {
        Ok(card) => Ok(card),
        Err(fault) => {
            mean_sought(run, background);
            Err(Stop::Fault(fault))
        }
    }
}

/// Whether a card is of another background than the current one.
pub fn has_other_background<E: External>(world: &World<E>, card: Id) -> bool
    ensures { result ≡ differ world.now.history.now.stack world.now.history.now.current
        world.now.history.now.stack card }
{
    home_of(world.stack(), world.current()) != home_of(world.stack(), card)
}

/// Where a new part stands.
pub fn new_layer<E: External>(world: &World<E>, run: &Budget) -> LayerId
    ensures { result ≡ layer_of_new world.now.history.now run.now }
{
    if run.edit_background() {
        LayerId::OfBackground(home_of(world.stack(), world.current()))
    } else {
        LayerId::OfCard(world.current())
    }
}

/// Makes a change that fits, in the open batch. Where it is out of memory, the history round the batch is kept all the
/// same.
#[tactic(auto, using(containers::proofs::Bases::made_keeps, containers::proofs::Bases::is_open))]
pub fn make<E: External>(world: &mut World<E>, change: Change) -> Result<(), AllocError>
    requires open { IsSome (base world.old.history).start }
    requires fits { fits_state world.old.history.now change ≡ true }
    ensures ok { OnOk result (Made world.old.history world.new.history change) }
    ensures base { base world.new.history ≡ base world.old.history }
{
    world.make(change)
}

/// Makes objects, in the open batch, unless there would be too many, which is a fault.
#[tactic(auto, using(meaning::proofs::Rules::adds_rules))]
pub fn add<E: External>(world: &mut World<E>, change: Change) -> Result<(), Stop>
    requires open { IsSome (base world.old.history).start }
    ensures meaning { Adds world.old.history change result world.new.history }
    ensures base { base world.new.history ≡ base world.old.history }
{
    if !world.fits(&change) {
        return Err(Stop::Fault(Fault::TooMany));
    }
    Ok(make(world, change)?)
}

/// The messages before another card becomes current.
pub fn closing(differs: bool) -> &'static [SystemMessage]
    ensures { result.now ≡ closing_of differs }
{
    if differs {
        &[SystemMessage::CloseCard, SystemMessage::CloseBackground]
    } else {
        &[SystemMessage::CloseCard]
    }
}

/// The messages after another card became current.
pub fn opening(differs: bool) -> &'static [SystemMessage]
    ensures { result.now ≡ opening_of differs }
{
    if differs {
        &[SystemMessage::OpenBackground, SystemMessage::OpenCard]
    } else {
        &[SystemMessage::OpenCard]
    }
}

/// The messages after a card was made.
pub fn new_card_messages() -> &'static [SystemMessage]
    ensures { result.now ≡ messages_of_new_card }
{
    &[SystemMessage::NewCard, SystemMessage::OpenCard]
}

/// The messages after a card was made with its background.
pub fn new_background_messages() -> &'static [SystemMessage]
    ensures { result.now ≡ messages_of_new_background }
{
    &[
        SystemMessage::NewCard,
        SystemMessage::OpenBackground,
        SystemMessage::OpenCard,
    ]
}
