//! References to objects.

ghost use Rattle.std.specs.Prelude.{◌≡◌, ◌≤◌, ◌<◌, ℕ, IsSome};
ghost use Rattle.ht_grammar.specs.Depth.{depth, destination_depth, owner_depth, part_depth, ref_depth, selector_depth};
ghost use Rattle.ht_grammar.specs.Depth.{which_depth, max_depth};
ghost use Rattle.ht_tree.specs.StatementView.{destination_of};
ghost use Rattle.ht_tree.specs.View.{owner_of, part_of, ref_of, selector_of, which_of};
ghost use Rattle.containers.specs.Base.{base};
ghost use Rattle.meaning.specs.Meaning.{Leads, Meets, Owns, PartMet, Picks, Seeks, Val};
ghost use Rattle.meaning.specs.declared.frame.Frame.{Frame};
ghost use Rattle.meaning.specs.State.{RunState};
ghost use Rattle.change_journal.specs.History.{History};
ghost use Rattle.ht_grammar.specs.Trees as tree;
ghost use Rattle.interp.specs.Keeps.{Keeps};
ghost use Rattle.interp.specs.Picks.{expr_in};

use crate::expr::value_of;
use change_journal::World;
use externals::External;
use ht_grammar::Layer;
use ht_lex::Ordinal;
use ht_tree::{Destination, Expr, Owner, Part, Ref, Selector, Which};
use ht_values::{PartKind, Value};
use meaning::{Budget, Frame, Stop};
use object_references::{
    PartScope, Pick, Referent, Sought, layer_meant, met_here, met_if_there, scope_by,
};
use object_table::Id;
use primitives::objects::{
    background_scope, background_there, background_to, card_scope, card_there, card_to, part_in,
};

/// What a reference to a card or a background looks for.
#[cycle(run)]
#[tactic(auto, using(meaning::proofs::Rules::seeks_rules))]
#[inline(never)]
pub(crate) fn seek<E: External>(
    world: &mut World<E>,
    run: &mut Budget,
    frame: &Frame,
    nested: u32,
    selector: &Selector,
) -> Result<Sought, Stop>
    requires nested { nested ≤ 100 }
    requires deep { selector_depth (selector_of selector.now) < max_depth }
    requires open { IsSome (base world.old.history).start }
    ensures meaning { Seeks world.old.history run.old frame.now nested (selector_of selector.now) result
        world.new.history run.new }
    ensures keeps { Keeps world.old.history run.old world.new.history run.new }
{
    match selector {
        Selector::This => Ok(Sought::This),
        Selector::Next => Ok(Sought::Next),
        Selector::Previous => Ok(Sought::Previous),
        Selector::Nth(ordinal) => Ok(Sought::Picked(Pick::Nth(*ordinal))),
        Selector::Which(which) => {
            let met = value_of(world, run, frame, nested, expr_of(which));
            sought(run, which, met)
        }
    }
}

/// Where a part is looked for: on a layer of the owner, or of the current card.
#[cycle(run)]
#[tactic(auto, using(meaning::proofs::Rules::owns_rules))]
#[inline(never)]
pub(crate) fn scope<E: External>(
    world: &mut World<E>,
    run: &mut Budget,
    frame: &Frame,
    nested: u32,
    layer: Layer,
    owner: &Owner,
) -> Result<PartScope, Stop>
    requires nested { nested ≤ 100 }
    requires deep { owner_depth (owner_of owner.now) < max_depth }
    requires open { IsSome (base world.old.history).start }
    ensures meaning { Owns world.old.history run.old frame.now nested layer (owner_of owner.now) result
        world.new.history run.new }
    ensures keeps { Keeps world.old.history run.old world.new.history run.new }
{
    match owner {
        Owner::NoOwner => Ok(scope_by(world.stack(), layer, world.current())),
        Owner::OnCard(card) => {
            let card = seek(world, run, frame, nested, card);
            on_card(world, run, layer, card)
        }
        Owner::OnBackground(background) => {
            let background = seek(world, run, frame, nested, background);
            on_background(world, run, layer, background)
        }
    }
}

/// The expression that says which of several is meant.
fn expr_of(which: &Which) -> &Expr
    ensures value { result.now ≡ expr_in (which_of which.now) }
    ensures depth { depth result.now ≡ which_depth (which_of which.now) }
{
    match which {
        Which::ById(id) => id,
        Which::ByText(text) => text,
    }
}

/// The one of several that a value picks which was computed, if it was.
#[tactic(auto, using(crate::proofs::Picks::pick_rules))]
fn picked(run: &Budget, which: &Which, met: Result<Value, Stop>) -> Result<Pick, Stop>
    ensures { (w w1 : History) (r : RunState) (f : Frame) (d : ℕ)
        → Val w r f d (expr_in (which_of which.now)) met w1 run.now
        → Picks w r f d (which_of which.now) result w1 run.now }
{
    let text = met?.into_text(run.alloc())?;
    match which {
        Which::ById(_) => Ok(Pick::ById(text)),
        Which::ByText(_) => Ok(Pick::ByText(text)),
    }
}

/// What a value means that says which card or background is sought, if it was computed.
#[tactic(auto, using(meaning::proofs::Rules::seeks_which_rules))]
#[inline(never)]
fn sought(run: &Budget, which: &Which, met: Result<Value, Stop>) -> Result<Sought, Stop>
    ensures { (w w1 : History) (r : RunState) (f : Frame) (d : ℕ)
        → Val w r f d (expr_in (which_of which.now)) met w1 run.now
        → Seeks w r f d (tree.which (which_of which.now)) result w1 run.now }
{
    let pick = picked(run, which, met)?;
    Ok(Sought::Picked(pick))
}

/// Where a part of a card that was sought is looked for, if it was.
#[tactic(auto, using(meaning::proofs::Rules::owns_rules))]
#[inline(never)]
fn on_card<E: External>(
    world: &World<E>,
    run: &Budget,
    layer: Layer,
    card: Result<Sought, Stop>,
) -> Result<PartScope, Stop>
    ensures { (w : History) (r : RunState) (f : Frame) (d : ℕ) (sl : tree.Selector)
        → Seeks w r f d sl card world.now.history run.now
        → Owns w r f d layer (tree.on_card sl) result world.now.history run.now }
{
    let card = card?;
    card_scope(world, run, layer, &card)
}

/// Where a part of a background that was sought is looked for, if it was.
#[tactic(auto, using(meaning::proofs::Rules::owns_rules))]
#[inline(never)]
fn on_background<E: External>(
    world: &World<E>,
    run: &Budget,
    layer: Layer,
    background: Result<Sought, Stop>,
) -> Result<PartScope, Stop>
    ensures { (w : History) (r : RunState) (f : Frame) (d : ℕ) (sl : tree.Selector)
        → Seeks w r f d sl background world.now.history run.now
        → Owns w r f d layer (tree.on_background sl) result world.now.history run.now }
{
    let background = background?;
    background_scope(world, run, layer, &background)
}

/// A button or a field: what is looked for, then its owner, then the part.
#[cycle(run)]
#[tactic(auto, using(meaning::proofs::Rules::partmet_rules))]
#[inline(never)]
pub(crate) fn meet_part<E: External>(
    world: &mut World<E>,
    run: &mut Budget,
    frame: &Frame,
    nested: u32,
    part: &Part,
) -> Result<Referent, Stop>
    requires nested { nested ≤ 100 }
    requires deep { part_depth (part_of part.now) ≤ max_depth }
    requires open { IsSome (base world.old.history).start }
    ensures meaning { PartMet world.old.history run.old frame.now nested (part_of part.now) result world.new.history
        run.new }
    ensures keeps { Keeps world.old.history run.old world.new.history run.new }
{
    match part {
        Part::Plain(layer, kind, which, owner) => {
            let met = value_of(world, run, frame, nested, expr_of(which));
            plain_part(world, run, frame, nested, *layer, *kind, which, owner, met)
        }
        Part::Nth(ordinal, layer, kind, owner) => {
            nth_part(world, run, frame, nested, *ordinal, *layer, *kind, owner)
        }
    }
}

/// A part that a value picks which was computed, if it was: its owner is looked for, then the part.
#[cycle(run)]
#[tactic(auto, using(meaning::proofs::Rules::partmet_rules))]
#[inline(never)]
pub(crate) fn plain_part<E: External>(
    world: &mut World<E>,
    run: &mut Budget,
    frame: &Frame,
    nested: u32,
    layer: Option<Layer>,
    kind: PartKind,
    which: &Which,
    owner: &Owner,
    met: Result<Value, Stop>,
) -> Result<Referent, Stop>
    requires nested { nested ≤ 100 }
    requires deep { owner_depth (owner_of owner.now) < max_depth }
    requires open { IsSome (base world.old.history).start }
    ensures meaning { (w : History) (r : RunState)
        → Val w r frame.now nested (expr_in (which_of which.now)) met world.old.history run.old
        → PartMet w r frame.now nested (tree.part layer kind (which_of which.now) (owner_of owner.now)) result
        world.new.history run.new }
    ensures keeps { Keeps world.old.history run.old world.new.history run.new }
{
    let pick = picked(run, which, met)?;
    let scope = scope(world, run, frame, nested, layer_meant(layer, kind), owner)?;
    part_in(world, run, kind, scope, &pick)
}

/// A part by its ordinal: its owner is looked for, then the part.
#[cycle(run)]
#[tactic(auto, using(meaning::proofs::Rules::partmet_rules))]
#[inline(never)]
pub(crate) fn nth_part<E: External>(
    world: &mut World<E>,
    run: &mut Budget,
    frame: &Frame,
    nested: u32,
    ordinal: Ordinal,
    layer: Option<Layer>,
    kind: PartKind,
    owner: &Owner,
) -> Result<Referent, Stop>
    requires nested { nested ≤ 100 }
    requires deep { owner_depth (owner_of owner.now) < max_depth }
    requires open { IsSome (base world.old.history).start }
    ensures meaning { PartMet world.old.history run.old frame.now nested
        (tree.nth_part ordinal layer kind (owner_of owner.now)) result world.new.history run.new }
    ensures keeps { Keeps world.old.history run.old world.new.history run.new }
{
    let scope = scope(world, run, frame, nested, layer_meant(layer, kind), owner)?;
    part_in(world, run, kind, scope, &Pick::Nth(ordinal))
}

/// The object of a reference, and the card that is meant with it.
#[cycle(run)]
#[tactic(auto, using(meaning::proofs::Rules::meets_rules, meaning::proofs::Rules::yields_rules))]
#[inline(never)]
pub(crate) fn meet<E: External>(
    world: &mut World<E>,
    run: &mut Budget,
    frame: &Frame,
    nested: u32,
    reference: &Ref,
) -> Result<Referent, Stop>
    requires nested { nested ≤ 100 }
    requires deep { ref_depth (ref_of reference.now) ≤ max_depth }
    requires open { IsSome (base world.old.history).start }
    ensures meaning { Meets world.old.history run.old frame.now nested (ref_of reference.now) result world.new.history
        run.new }
    ensures keeps { Keeps world.old.history run.old world.new.history run.new }
{
    match reference {
        Ref::Me => Ok(met_if_there(world.stack(), world.current(), frame.me)?),
        Ref::Target => Ok(met_if_there(world.stack(), world.current(), frame.target)?),
        Ref::ThisStack => Ok(met_here(world.current(), 0)),
        Ref::Card(selector) => {
            let sought = seek(world, run, frame, nested, selector)?;
            card_there(world, run, &sought)
        }
        Ref::Background(selector) => {
            let sought = seek(world, run, frame, nested, selector)?;
            background_there(world, run, &sought)
        }
        Ref::Part(part) => meet_part(world, run, frame, nested, part),
    }
}

/// The card that `go` leads to.
#[cycle(run)]
#[tactic(auto, using(meaning::proofs::Rules::leads_rules))]
#[inline(never)]
pub(crate) fn lead<E: External>(
    world: &mut World<E>,
    run: &mut Budget,
    frame: &Frame,
    nested: u32,
    destination: &Destination,
) -> Result<Id, Stop>
    requires nested { nested ≤ 100 }
    requires deep { destination_depth (destination_of destination.now) ≤ max_depth }
    requires open { IsSome (base world.old.history).start }
    ensures meaning { Leads world.old.history run.old frame.now nested (destination_of destination.now) result
        world.new.history run.new }
    ensures keeps { Keeps world.old.history run.old world.new.history run.new }
{
    match destination {
        Destination::ToCard(selector) => {
            let sought = seek(world, run, frame, nested, selector)?;
            card_to(world, run, &sought)
        }
        Destination::ToBackground(selector) => {
            let sought = seek(world, run, frame, nested, selector)?;
            background_to(world, run, &sought)
        }
    }
}
