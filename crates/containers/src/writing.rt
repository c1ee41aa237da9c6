//! Writing containers.

ghost use Rattle.std.specs.Prelude.{◌≡◌, List, ℕ, [], true, false, Option, Some, IsSome, IfSome, unwrap_or, OnOk};
ghost use Rattle.std.specs.Prelude.{OnErr, IfErr, IfOk, Ok, Err};
ghost use Rattle.std.specs.FinMap as finite;
ghost use Rattle.std.specs.Option.{ok_or};
ghost use Rattle.ht_values.specs.declared.fault.Fault.TheVariants.{NoSuchObject};
ghost use Rattle.ht_values.specs.declared.word.Where.TheVariants.{Into};
ghost use Rattle.ht_values.specs.Outcome.{Gives, and_then};
ghost use Rattle.ht_values.specs.Operators.{binary as binary_of};
ghost use Rattle.ht_values.specs.Text.{folded, numeral as numeral_of};
ghost use Rattle.object_table.specs.PartContents.{text_at};
ghost use Rattle.journal_entries.specs.declared.change.Change.TheVariants as made_change;
ghost use Rattle.change_journal.specs.History.{History};
ghost use Rattle.change_journal.specs.Rising.{Made};
ghost use Rattle.containers.specs.Base.{base};
ghost use Rattle.containers.specs.declared.edit.Edit.TheVariants.{Alter, Put};
ghost use Rattle.containers.specs.Edits.{due, edited as edited_text};
ghost use Rattle.containers.specs.Places.{global, named};
ghost use Rattle.containers.specs.Variables.{VariablesView, is_global};
ghost use Rattle.containers.specs.Writes.{Declares, Writes};

use crate::edit::Edit;
use crate::place::{Place, Storage};
use crate::standing::Standing;
use crate::store::Store;
use crate::variables::Variables;
use change_journal::Change;
use chunks::Chunk;
use ht_values::{
    Failure, Fault, Name, Op, Text, Value, Where, law_of_value, number_by, plain_number,
};
use object_table::Id;
use std::alloc::{AllocError, Global};

/// What an edit makes of a global: one without a value is empty.
fn global_edited<W: Store>(
    alloc: Global,
    world: &W,
    name: &Name,
    edit: Edit,
    chunks: &[Chunk],
    delimiter: u8,
) -> Result<Option<Value>, Failure>
    ensures { Gives result (edited_text delimiter chunks.now edit
        (unwrap_or (finite.get (W.history world.now).now.globals (folded name.now)) [])) }
{
    match world.global(name.folded()) {
        Some(text) => edit.edited(alloc, Standing::Text(text), chunks, delimiter),
        None => edit.edited(alloc, Standing::Text(&Text::new(alloc)), chunks, delimiter),
    }
}

/// What an edit makes of a text of a field, or that it isn't there.
fn field_edited<W: Store>(
    alloc: Global,
    world: &W,
    field: Id,
    card: Id,
    edit: Edit,
    chunks: &[Chunk],
    delimiter: u8,
) -> Result<Option<Value>, Failure>
    ensures due { Gives result (and_then (ok_or (text_at (W.history world.now).now.stack field card) NoSuchObject)
        (λ t. edited_text delimiter chunks.now edit t)) }
    ensures there { OnOk result (IsSome (text_at (W.history world.now).now.stack field card)) }
{
    match world.stack().text(field, card) {
        Some(text) => edit.edited(alloc, Standing::Text(text), chunks, delimiter),
        None => Err(Failure::Fault(Fault::NoSuchObject)),
    }
}

/// Puts a value into a global.
#[tactic(auto, using(crate::proofs::Bases::made_keeps, crate::proofs::Bases::is_open, ht_values::proofs::Folding::folded_is_folded))]
fn put_into_global<W: Store>(
    alloc: Global,
    world: &mut W,
    name: &Name,
    value: Value,
) -> Result<(), AllocError>
    requires { IsSome (base (W.history world.old)).start }
    ensures ok { OnOk result (Made (W.history world.old) (W.history world.new)
        (made_change.Global (folded name.now) (Some value))) }
    ensures err { OnErr result (W.history world.new ≡ W.history world.old) }
    ensures base { base (W.history world.new) ≡ base (W.history world.old) }
{
    let text = value.into_text(alloc)?;
    world.put_global(name.folded(), Some(text))
}

/// Edits a global.
#[tactic(auto, using(crate::proofs::Rules::writes_rules))]
fn edit_global<W: Store>(
    alloc: Global,
    world: &mut W,
    name: &Name,
    edit: Edit,
    chunks: &[Chunk],
    delimiter: u8,
) -> Result<(), Failure>
    requires { IsSome (base (W.history world.old)).start }
    ensures ok { OnOk result ((v : VariablesView)
        → Writes (W.history world.old) v (global (folded name.now))
        (edited_text delimiter chunks.now edit
        (unwrap_or (finite.get (W.history world.old).now.globals (folded name.now)) [])) (W.history world.new) v) }
    ensures fault { IfErr result (λ e. Gives {A = Option (List ℕ)} (Err e)
        (edited_text delimiter chunks.now edit
        (unwrap_or (finite.get (W.history world.old).now.globals (folded name.now)) []))) }
    ensures err { OnErr result (W.history world.new ≡ W.history world.old) }
    ensures base { base (W.history world.new) ≡ base (W.history world.old) }
{
    match global_edited(alloc, world, name, edit, chunks, delimiter)? {
        Some(value) => Ok(put_into_global(alloc, world, name, value)?),
        None => Ok(()),
    }
}

/// Puts the numeral of a number into a global.
#[tactic(auto, using(crate::proofs::Bases::made_keeps, crate::proofs::Bases::is_open, ht_values::proofs::Folding::folded_is_folded))]
fn put_number_into_global<W: Store>(
    world: &mut W,
    name: &Name,
    number: i64,
) -> Result<(), AllocError>
    requires { IsSome (base (W.history world.old)).start }
    ensures ok { OnOk result (Made (W.history world.old) (W.history world.new)
        (made_change.Global (folded name.now) (Some (numeral_of number)))) }
    ensures err { OnErr result (W.history world.new ≡ W.history world.old) }
    ensures base { base (W.history world.new) ≡ base (W.history world.old) }
{
    world.put_global_number(name.folded(), number)
}

/// The number whose numeral the value of a name is that means a global, where it is known without reading the value.
fn known_global<W: Store>(world: &W, variables: &Variables, name: &Name) -> Option<i64>
    ensures global { IfSome result (λ n. is_global variables.now name.now ≡ true) }
    ensures value { IfSome result (λ n. finite.get (W.history world.now).now.globals (folded name.now)
        ≡ Some (numeral_of n)) }
{
    match world.known_number(name.folded()) {
        Some(number) if variables.is_global(name) => Some(number),
        _ => None,
    }
}

/// The number whose numeral the value of a name is that means a global, where that has no sign.
fn read_global<W: Store>(world: &W, variables: &Variables, name: &Name) -> Option<i64>
    ensures global { IfSome result (λ n. is_global variables.now name.now ≡ true) }
    ensures value { IfSome result (λ n. finite.get (W.history world.now).now.globals (folded name.now)
        ≡ Some (numeral_of n)) }
{
    if !variables.is_global(name) {
        return None;
    }
    plain_number(world.global(name.folded())?.as_slice())
}

/// The number that an operator gives of a number and of an operand that is kept as one.
fn computed(op: Op, number: i64, operand: &Value) -> Option<i64>
    ensures { IfSome result (λ n. binary_of op (numeral_of number) operand.now ≡ Ok (numeral_of n)) }
{
    number_by(op, number, operand.kept_number()?)
}

/// Computes with a global whose value is the numeral of a number, where the operand is kept as one and the operator
/// gives a number, and says whether it does; else nothing changes.
#[tactic(auto, using(crate::proofs::Rules::writes_rules))]
fn alter_global<W: Store>(
    world: &mut W,
    name: &Name,
    number: i64,
    op: Op,
    operand: &Value,
) -> Result<bool, AllocError>
    requires open { IsSome (base (W.history world.old)).start }
    requires value { finite.get (W.history world.old).now.globals (folded name.now) ≡ Some (numeral_of number) }
    ensures altered { IfOk result (λ b. b ≡ true → (v : VariablesView) (d : ℕ)
        → Writes (W.history world.old) v (global (folded name.now))
        (edited_text d [] (Alter op operand.now)
        (unwrap_or (finite.get (W.history world.old).now.globals (folded name.now)) [])) (W.history world.new) v) }
    ensures not { IfOk result (λ b. b ≡ false → W.history world.new ≡ W.history world.old) }
    ensures err { OnErr result (W.history world.new ≡ W.history world.old) }
    ensures base { base (W.history world.new) ≡ base (W.history world.old) }
{
    let Some(number) = computed(op, number, operand) else {
        return Ok(false);
    };
    law_of_value(&Value::of_number(number));
    put_number_into_global(world, name, number)?;
    Ok(true)
}

/// Puts a value into a text of a field.
#[tactic(auto, using(crate::proofs::Bases::made_keeps, crate::proofs::Bases::is_open))]
fn put_into_field<W: Store>(
    alloc: Global,
    world: &mut W,
    field: Id,
    card: Id,
    value: Value,
) -> Result<(), AllocError>
    requires open { IsSome (base (W.history world.old)).start }
    requires there { IsSome (text_at (W.history world.old).now.stack field card) }
    ensures ok { OnOk result (Made (W.history world.old) (W.history world.new)
        (made_change.FieldText field card value)) }
    ensures err { OnErr result (W.history world.new ≡ W.history world.old) }
    ensures base { base (W.history world.new) ≡ base (W.history world.old) }
{
    let text = value.into_text(alloc)?;
    world.make(Change::FieldText(field, card, text))
}

/// Edits a container in the open batch: a global and a text of a field by a change of the world, a variable of the
/// handler's own among its variables. The delimiter is that of items. A field's text that isn't there any more is
/// `NoSuchObject`, before any fault of the edit. After a fault, and where it is out of memory, nothing has changed.
#[tactic(auto, using(crate::proofs::Rules::writes_rules))]
pub fn write<W: Store>(
    alloc: Global,
    world: &mut W,
    variables: &mut Variables,
    place: &Place<'_>,
    edit: Edit,
    delimiter: u8,
) -> Result<(), Failure>
    requires { IsSome (base (W.history world.old)).start }
    ensures ok { OnOk result (Writes (W.history world.old) variables.old place.now.storage
        (due (W.history world.old).now variables.old delimiter place.now edit) (W.history world.new) variables.new) }
    ensures fault { IfErr result (λ e. Gives {A = Option (List ℕ)} (Err e)
        (due (W.history world.old).now variables.old delimiter place.now edit)) }
    ensures err { OnErr result ((W.history world.new ≡ W.history world.old) × (variables.new ≡ variables.old)) }
    ensures base { base (W.history world.new) ≡ base (W.history world.old) }
{
    let chunks = &place.chunks;
    match place.storage {
        Storage::Own(name) => variables.edit(alloc, name, edit, chunks, delimiter),
        Storage::Global(name) => edit_global(alloc, world, name, edit, chunks, delimiter),
        Storage::Field(field, card) => {
            match field_edited(alloc, world, field, card, edit, chunks, delimiter)? {
                Some(value) => Ok(put_into_field(alloc, world, field, card, value)?),
                None => Ok(()),
            }
        }
    }
}

/// Puts a number into a variable of the handler's own that has a value, as `edit_variable` does, and says whether there
/// is one; else nothing changes. It takes no memory.
#[tactic(auto, using(crate::proofs::Rules::writes_rules))]
#[inline]
pub fn put_number(variables: &mut Variables, name: &Name, number: i64) -> bool
    ensures put { result ≡ true → (h : History) (d : ℕ)
        → Writes h variables.old (named variables.old name.now)
        (due h.now variables.old d (record { storage = named variables.old name.now; chunks = [] })
        (Put Into (numeral_of number))) h variables.new }
    ensures not { result ≡ false → variables.new ≡ variables.old }
{
    law_of_value(&Value::of_number(number));
    variables.put_number(name, number)
}

/// Computes with a variable of the handler's own, as `edit_variable` does, where it and the operand are kept as numbers
/// and the operator gives a number of them, and says whether it does; else nothing changes. It takes no memory.
#[tactic(auto, using(crate::proofs::Rules::writes_rules))]
#[inline]
fn alter_own(variables: &mut Variables, name: &Name, op: Op, operand: &Value) -> bool
    ensures altered { result ≡ true → (h : History) (d : ℕ)
        → Writes h variables.old (named variables.old name.now)
        (due h.now variables.old d (record { storage = named variables.old name.now; chunks = [] })
        (Alter op operand.now)) h variables.new }
    ensures not { result ≡ false → variables.new ≡ variables.old }
{
    match variables.compute(name, op, operand) {
        Some(number) => {
            law_of_value(&Value::of_number(number));
            true
        }
        None => false,
    }
}

/// Computes with a variable, as `edit_variable` does, where two numbers are computed with as such, and says whether
/// they are; else, and where memory was refused, nothing changes. The handler's own variables take no memory.
#[tactic(auto, using(crate::proofs::Rules::writes_rules))]
#[inline]
pub fn alter_number<W: Store>(
    world: &mut W,
    variables: &mut Variables,
    name: &Name,
    op: Op,
    operand: &Value,
) -> Result<bool, AllocError>
    requires { IsSome (base (W.history world.old)).start }
    ensures altered { IfOk result (λ b. b ≡ true → (d : ℕ)
        → Writes (W.history world.old) variables.old (named variables.old name.now)
        (due (W.history world.old).now variables.old d
        (record { storage = named variables.old name.now; chunks = [] }) (Alter op operand.now))
        (W.history world.new) variables.new) }
    ensures not { IfOk result (λ b. b ≡ false
        → (W.history world.new ≡ W.history world.old) × (variables.new ≡ variables.old)) }
    ensures err { OnErr result ((W.history world.new ≡ W.history world.old) × (variables.new ≡ variables.old)) }
    ensures base { base (W.history world.new) ≡ base (W.history world.old) }
{
    if let Some(number) = known_global(world, variables, name) {
        return alter_global(world, name, number, op, operand);
    }
    if alter_own(variables, name, op, operand) {
        return Ok(true);
    }
    match read_global(world, variables, name) {
        Some(number) => alter_global(world, name, number, op, operand),
        None => Ok(false),
    }
}

/// Puts a value into a variable, whatever stands there.
#[tactic(auto, using(crate::proofs::Rules::writes_rules))]
fn put_variable<W: Store>(
    alloc: Global,
    world: &mut W,
    variables: &mut Variables,
    name: &Name,
    value: Value,
) -> Result<(), AllocError>
    requires { IsSome (base (W.history world.old)).start }
    ensures ok { OnOk result (Writes (W.history world.old) variables.old
        (named variables.old name.now) (Ok (Some value))
        (W.history world.new) variables.new) }
    ensures err { OnErr result ((W.history world.new ≡ W.history world.old) × (variables.new ≡ variables.old)) }
    ensures base { base (W.history world.new) ≡ base (W.history world.old) }
{
    match variables.put(alloc, name, value)? {
        Some(value) => put_into_global(alloc, world, name, value),
        None => Ok(()),
    }
}

/// Edits a variable in the open batch, as `write` does at its place, which needs not be made. The delimiter is that of
/// items. After a fault, and where it is out of memory, nothing has changed.
#[tactic(auto, using(crate::proofs::Rules::writes_rules))]
pub fn edit_variable<W: Store>(
    alloc: Global,
    world: &mut W,
    variables: &mut Variables,
    name: &Name,
    edit: Edit,
    delimiter: u8,
) -> Result<(), Failure>
    requires { IsSome (base (W.history world.old)).start }
    ensures ok { OnOk result (Writes (W.history world.old) variables.old (named variables.old name.now)
        (due (W.history world.old).now variables.old delimiter
        (record { storage = named variables.old name.now; chunks = [] }) edit) (W.history world.new) variables.new) }
    ensures fault { IfErr result (λ e. Gives {A = Option (List ℕ)} (Err e)
        (due (W.history world.old).now variables.old delimiter
        (record { storage = named variables.old name.now; chunks = [] }) edit)) }
    ensures err { OnErr result ((W.history world.new ≡ W.history world.old) × (variables.new ≡ variables.old)) }
    ensures base { base (W.history world.new) ≡ base (W.history world.old) }
{
    match edit {
        Edit::Put(Where::Into, value) => {
            law_of_value(&value);
            Ok(put_variable(alloc, world, variables, name, value)?)
        }
        edit => edit_named(alloc, world, variables, name, edit, delimiter),
    }
}

/// Edits a variable by the text that stands there.
#[tactic(auto, using(crate::proofs::Rules::writes_rules))]
#[inline(never)]
fn edit_named<W: Store>(
    alloc: Global,
    world: &mut W,
    variables: &mut Variables,
    name: &Name,
    edit: Edit,
    delimiter: u8,
) -> Result<(), Failure>
    requires { IsSome (base (W.history world.old)).start }
    ensures ok { OnOk result (Writes (W.history world.old) variables.old (named variables.old name.now)
        (due (W.history world.old).now variables.old delimiter
        (record { storage = named variables.old name.now; chunks = [] }) edit) (W.history world.new) variables.new) }
    ensures fault { IfErr result (λ e. Gives {A = Option (List ℕ)} (Err e)
        (due (W.history world.old).now variables.old delimiter
        (record { storage = named variables.old name.now; chunks = [] }) edit)) }
    ensures err { OnErr result ((W.history world.new ≡ W.history world.old) × (variables.new ≡ variables.old)) }
    ensures base { base (W.history world.new) ≡ base (W.history world.old) }
{
    if variables.is_global(name) {
        edit_global(alloc, world, name, edit, &[], delimiter)
    } else {
        variables.edit_whole(alloc, name, edit, delimiter)
    }
}

/// `global`: a name means a global from here on, which gets the empty text where it had no value. Where memory was
/// refused the history is as before, though the name may mean a global.
#[tactic(auto, using(crate::proofs::Rules::declares_rules, crate::proofs::Bases::made_keeps, crate::proofs::Bases::is_open, ht_values::proofs::Folding::folded_is_folded))]
pub fn declare<W: Store>(
    alloc: Global,
    world: &mut W,
    variables: &mut Variables,
    name: &Name,
) -> Result<(), AllocError>
    requires { IsSome (base (W.history world.old)).start }
    ensures ok { OnOk result (Declares (W.history world.old) variables.old name.now
        (W.history world.new) variables.new) }
    ensures err { OnErr result (W.history world.new ≡ W.history world.old) }
    ensures base { base (W.history world.new) ≡ base (W.history world.old) }
{
    variables.declare(alloc, name)?;
    match world.global(name.folded()) {
        Some(_) => Ok(()),
        None => world.put_global(name.folded(), Some(Text::new(alloc))),
    }
}
