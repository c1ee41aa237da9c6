//! Chunks of expressions and of containers.

ghost use Rattle.std.specs.Prelude.{◌≤◌, ◌<◌, IsSome};
ghost use Rattle.ht_grammar.specs.Depth.{chunk_depth, container_depth, max_depth};
ghost use Rattle.ht_tree.specs.View.{chunk_of};
ghost use Rattle.containers.specs.Base.{base};
ghost use Rattle.meaning.specs.Meaning.{ChunkOf, Resolves};
ghost use Rattle.interp.specs.Edits.{EditsContainer};
ghost use Rattle.interp.specs.Keeps.{Keeps};

use crate::numbers::number_value;
use crate::reference::meet_part;
use change_journal::World;
use containers::{Edit, Place};
use externals::External;
use ht_tree::{Chunk, Container, ContainerKind};
use meaning::{Budget, Frame, Stop};
use primitives::places::{edit, edit_variable, field_place, nth_piece, pieces_at, variable_place};

/// Which pieces are meant: each index is converted as soon as it is computed.
#[cycle(run)]
#[tactic(auto, using(meaning::proofs::Rules::chunkof_rules))]
#[inline(never)]
pub(crate) fn pieces<E: External>(
    world: &mut World<E>,
    run: &mut Budget,
    frame: &Frame,
    nested: u32,
    chunk: &Chunk,
) -> Result<chunks::Chunk, Stop>
    requires nested { nested ≤ 100 }
    requires deep { chunk_depth (chunk_of chunk.now) < max_depth }
    requires open { IsSome (base world.old.history).start }
    ensures meaning { ChunkOf world.old.history run.old frame.now nested (chunk_of chunk.now) result world.new.history
        run.new }
    ensures keeps { Keeps world.old.history run.old world.new.history run.new }
{
    match chunk {
        Chunk::Piece(kind, index) => {
            let at = number_value(world, run, frame, nested, index)?;
            Ok(pieces_at(*kind, at, at))
        }
        Chunk::Pieces(kind, bounds) => {
            let from = number_value(world, run, frame, nested, &bounds.first)?;
            let to = number_value(world, run, frame, nested, &bounds.last)?;
            Ok(pieces_at(*kind, from, to))
        }
        Chunk::NthPiece(ordinal, kind) => Ok(nth_piece(*ordinal, *kind)),
    }
}

/// The place of a container.
#[cycle(run)]
#[tactic(auto, using(meaning::proofs::Rules::resolves_rules))]
#[inline(never)]
pub(crate) fn resolve<'a, E: External>(
    world: &mut World<E>,
    run: &mut Budget,
    frame: &Frame,
    nested: u32,
    container: &'a Container,
) -> Result<Place<'a>, Stop>
    requires nested { nested ≤ 100 }
    requires deep { container_depth container.now < max_depth }
    requires open { IsSome (base world.old.history).start }
    ensures meaning { Resolves world.old.history run.old frame.now nested container.now result
        world.new.history run.new }
    ensures keeps { Keeps world.old.history run.old world.new.history run.new }
{
    match container.kind() {
        ContainerKind::Variable(name) => Ok(variable_place(world, run, frame, name)),
        ContainerKind::Field(part) => {
            let referent = meet_part(world, run, frame, nested, part)?;
            field_place(world, run, frame, referent)
        }
        ContainerKind::Chunk(chunk, inner) => {
            let pieces = pieces(world, run, frame, nested, chunk)?;
            let place = resolve(world, run, frame, nested, inner)?;
            Ok(place.with(pieces)?)
        }
    }
}

/// Edits a container in the open batch. No place is made for a variable.
#[cycle(run)]
#[tactic(auto, using(crate::proofs::Edits::edit_rules))]
#[inline(never)]
pub(crate) fn edit_container<E: External>(
    world: &mut World<E>,
    run: &mut Budget,
    frame: &mut Frame,
    nested: u32,
    container: &Container,
    change: Edit,
) -> Result<(), Stop>
    requires nested { nested ≤ 100 }
    requires deep { container_depth container.now < max_depth }
    requires open { IsSome (base world.old.history).start }
    ensures meaning { EditsContainer world.old.history run.old frame.old nested container.now change result
        world.new.history run.new frame.new }
    ensures keeps { Keeps world.old.history run.old world.new.history run.new }
{
    match container.kind() {
        ContainerKind::Variable(name) => { edit_variable(world, run, frame, name, change) }
        _ => {
            let place = resolve(world, run, frame, nested, container)?;
            edit(world, run, frame, place, change)
        }
    }
}
