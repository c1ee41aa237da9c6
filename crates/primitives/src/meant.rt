//! What was meant where an edit or a `set` ends by a fault. No clause speaks of it, and nothing here stops a run.

use change_journal::World;
use chunks::{Chunk, Index};
use containers::{Container, Edit, Place, read, resolve};
use externals::External;
use ht_values::{Fault, Name, Prop, Text, Value, truth_of};
use meaning::{Budget, Frame};

/// The operand of arithmetic, to be told if the edit ends by a fault. A number takes no memory; what is no number is
/// copied, as it can only be told.
pub(crate) fn operand_of(run: &Budget, edit: &Edit) -> Option<Value> {
    let Edit::Alter(_, operand) = edit else {
        return None;
    };
    match operand.number() {
        Ok(number) => Some(Value::of_number(number)),
        Err(_) => operand.try_clone(run.alloc()).ok(),
    }
}

/// Remembers what an edit meant that ended by a fault: the bounds of a chunk that isn't taken, or the two numbers of
/// arithmetic.
#[inline(never)]
pub(crate) fn mean_edit<E: External>(
    world: &World<E>,
    run: &Budget,
    frame: &Frame,
    place: &Place<'_>,
    operand: Option<Value>,
    fault: Fault,
) {
    match fault {
        Fault::BadArgument => mean_bounds(run, place.chunks()),
        Fault::NotANumber | Fault::OutOfRange | Fault::DivideByZero | Fault::NotExact => {
            mean_part(world, run, frame, place);
            if let Some(operand) = operand {
                run.trace().mean(&operand);
            }
        }
        _ => {}
    }
}

/// The same of an edit of a variable.
#[inline(never)]
pub(crate) fn mean_edit_of_variable<E: External>(
    world: &World<E>,
    run: &Budget,
    frame: &Frame,
    name: &Name,
    operand: Option<Value>,
    fault: Fault,
) {
    let container = Container::Variable(name);
    if let Ok(place) = resolve(run.alloc(), world, &frame.variables, container) {
        mean_edit(world, run, frame, &place, operand, fault);
    }
}

/// Remembers what a place reads.
fn mean_part<E: External>(world: &World<E>, run: &Budget, frame: &Frame, place: &Place<'_>) {
    let part = read(run.alloc(), world, &frame.variables, place, run.delimiter());
    if let Ok(part) = part {
        run.trace().mean(&part);
    }
}

/// Remembers the bounds of the innermost chunk into which nothing can be put.
fn mean_bounds(run: &Budget, chunks: &[Chunk]) {
    for chunk in chunks.iter().rev() {
        if let (Index::At(from), Index::At(to)) = (chunk.from, chunk.to) {
            if from < 1 || to < from {
                mean_numbers(run, from, to);
                return;
            }
        }
    }
}

/// Remembers two numbers, or one where they are the same.
fn mean_numbers(run: &Budget, from: i64, to: i64) {
    run.trace().mean(&Value::of_number(from));
    if from != to {
        run.trace().mean(&Value::of_number(to));
    }
}

/// A copy of the text for a property that is a truth value, where it is none, which can only be told.
pub(crate) fn untrue_text(run: &Budget, property: Prop, text: &Text) -> Option<Text> {
    match property {
        Prop::Name | Prop::Script => None,
        _ => match truth_of(text) {
            Ok(_) => None,
            Err(_) => text.try_clone(run.alloc()).ok(),
        },
    }
}

/// Remembers a text that is no truth value, where that is the fault.
pub(crate) fn mean_untrue(run: &Budget, text: Option<Text>, fault: Fault) {
    if let (Some(text), Fault::NotLogical) = (&text, fault) {
        run.trace().mean_text(text);
    }
}
