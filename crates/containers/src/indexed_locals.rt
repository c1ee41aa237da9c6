//! The names that a handler has met, and where each stands.

ghost use Rattle.std.specs.Prelude.{◌≡◌, ◌<◌, ◌++◌, ◌∷◌, ℕ, Ok, List, [], true, false, length, Err, IfErr, IfOk};
ghost use Rattle.std.specs.Prelude.{
  OnOk,
  OnErr,
  get_or,
  IfNone,
  IfSome,
  find,
  map,
  option_copied,
  position,
  slice_index_or,
  slice_set,
  unwrap_or,
  is_none,
};
ghost use Rattle.std.specs.Prelude.{Some, None};
ghost use Rattle.ht_values.specs.Outcome.{Gives, within_limit};
ghost use Rattle.ht_values.specs.Operators.{binary as binary_of};
ghost use Rattle.ht_values.specs.Text.{folded, numeral as numeral_of, same};
ghost use Rattle.containers.specs.declared.variables.Local.{Local};
ghost use Rattle.name_lists.specs.declared.places.TheConstants.{MOST_SCANNED};
ghost use Rattle.name_lists.specs.Parameters.{bindings_of};
ghost use Rattle.containers.specs.Variables.{local_given};

use crate::variables::Local;
use ht_values::{Failure, Name, Op, Text, Value};
use name_lists::{Binding, FoldedName, MOST_SCANNED, NamePlaces, Parameters};
use std::alloc::{AllocError, Global};
use std::marker::Model;

/// For how many more names there is room where a handler with parameters begins.
const MORE_NAMES: usize = 3;

/// The names that a handler has met, in the order in which they came. The first few are looked at one by one; where
/// another one stands is told in a few steps, however many there are and whichever came.
#[derive(Drop)]
pub(crate) struct Locals {
    items: Vec<Local>,
    places: NamePlaces,
}

impl Model for Locals {
    ghost use Rattle.std.specs.Prelude.{List, map};
    ghost use Rattle.containers.specs.declared.variables.Local.{Local};
    ghost use Rattle.name_lists.specs.Places.{AreIndexed, place_kept};

    ghost Value = { List Local };

    ghost view = { λ l. l.items.items };

    ghost invariant = { λ l. AreIndexed (place_kept l.places) (map (λ x. x.name) l.items.items) };
}

impl Locals {
    /// No names. It takes no memory.
    pub(crate) fn new(alloc: Global) -> Locals
        ensures { result ≡ [] }
    {
        Locals {
            items: Vec::new(alloc),
            places: NamePlaces::new(alloc),
        }
    }

    /// Becomes the parameters of a handler, each with its argument. Where those stand that aren't among the first few
    /// is shared by all calls. Where memory was refused nothing changes.
    #[inline(always)]
    pub(crate) fn bind(
        &mut self,
        alloc: Global,
        parameters: &Parameters,
        arguments: &[Value],
    ) -> Result<(), AllocError>
        ensures ok { OnOk result (self.new ≡ map (local_given arguments.now) (bindings_of parameters.now)) }
        ensures err { OnErr result (self.new ≡ self.old) }
    {
        let items = all_given(alloc, parameters, arguments)?;
        self.places = parameters.places(alloc)?;
        self.items = items;
        Ok(())
    }

    /// The names and their values as a slice.
    #[inline]
    pub(crate) fn as_slice(&self) -> &[Local]
        ensures { result.now ≡ self.now }
    {
        &self.items
    }

    /// The name that is the same, with its value.
    #[inline(always)]
    pub(crate) fn find(&self, name: &Name) -> Option<&Local>
        ensures { option_copied result ≡ find (λ l. same l.name name.now) self.now }
    {
        if self.items.len() <= MOST_SCANNED {
            let form = name.folded();
            return self.items.iter().find(|local| local.name.has_form(form));
        }
        let place = self.number_among_many(name)?;
        Some(&self.items[place])
    }

    /// The place in the order of the name that is the same.
    #[inline(always)]
    pub(crate) fn number_of(&self, name: &Name) -> Option<usize>
        ensures value { result ≡ position (λ l. same l.name name.now) self.now }
        ensures within { IfSome result (λ i. i < length self.now) }
    {
        if self.items.len() <= MOST_SCANNED {
            return place_in(&self.items, name);
        }
        self.number_among_many(name)
    }

    /// The same where there are more names than are looked at one by one.
    #[inline(never)]
    fn number_among_many(&self, name: &Name) -> Option<usize>
        requires { MOST_SCANNED < length self.now }
        ensures value { result ≡ position (λ l. same l.name name.now) self.now }
        ensures within { IfSome result (λ i. i < length self.now) }
    {
        match place_in(&self.items[..MOST_SCANNED], name) {
            Some(place) => Some(place),
            None => self.places.get(name),
        }
    }

    /// Adds a name that isn't there at the end. Where memory was refused nothing changes.
    pub(crate) fn push(
        &mut self,
        alloc: Global,
        name: &Name,
        value: Option<Value>,
    ) -> Result<(), AllocError>
        requires { position (λ l. same l.name name.now) self.old ≡ None }
        ensures ok { OnOk result (self.new ≡ self.old ++ record { name = folded name.now; value = value } ∷ []) }
        ensures err { OnErr result (self.new ≡ self.old) }
    {
        let local = Local {
            name: FoldedName::of(alloc, name)?,
            value,
        };
        if self.items.len() < MOST_SCANNED {
            self.items.push(local)?;
            return Ok(());
        }
        self.items.reserve(1)?;
        self.places.keep(alloc, name, self.items.len())?;
        self.items.push_reserved(local);
        Ok(())
    }

    /// Puts another value in the place of the one at a place, or none.
    pub(crate) fn set_value(&mut self, i: usize, value: Option<Value>)
        requires { i < length self.old }
        ensures { (other : Local) → self.new
            ≡ slice_set self.old i (record (slice_index_or self.old i other) { value = value }) }
    {
        set_value(&mut self.items, i, value)
    }

    /// Adds a value at the end of the one at a place; one that isn't there is empty.
    pub(crate) fn append_at(&mut self, alloc: Global, i: usize, new: Value) -> Result<(), Failure>
        requires { i < length self.old }
        ensures ok { OnOk result ((other : Local) → (t : List ℕ)
            × (within_limit (unwrap_or (slice_index_or self.old i other).value [] ++ new) ≡ Ok t)
            × (self.new ≡ slice_set self.old i (record (slice_index_or self.old i other) { value = Some t }))) }
        ensures fault { (other : Local)
            → IfErr result (λ e. Gives {A = List ℕ} (Err e)
            (within_limit (unwrap_or (slice_index_or self.old i other).value [] ++ new))) }
        ensures err { OnErr result (self.new ≡ self.old) }
    {
        append_at(alloc, &mut self.items, i, new)
    }

    /// Puts a number in the place of the value at a place, if there is one, and says whether there is.
    pub(crate) fn put_number_at(&mut self, i: usize, number: i64) -> bool
        requires { i < length self.old }
        ensures put { result ≡ true → (other : Local)
            → (is_none (slice_index_or self.old i other).value ≡ false)
            × (self.new ≡ slice_set self.old i
            (record (slice_index_or self.old i other) { value = Some (numeral_of number) })) }
        ensures not { result ≡ false → self.new ≡ self.old }
    {
        put_number_at(&mut self.items, i, number)
    }

    /// Computes with the number at a place, if it and the operand are kept so. Says which number stands there then.
    pub(crate) fn compute_at(&mut self, i: usize, op: Op, operand: &Value) -> Option<i64>
        requires { i < length self.old }
        ensures number { IfSome result (λ n. (other : Local)
            → (is_none (slice_index_or self.old i other).value ≡ false)
            × (binary_of op (unwrap_or (slice_index_or self.old i other).value []) operand.now ≡ Ok (numeral_of n))
            × (self.new ≡ slice_set self.old i
            (record (slice_index_or self.old i other) { value = Some (numeral_of n) }))) }
        ensures none { IfNone result (self.new ≡ self.old) }
    {
        compute_at(&mut self.items, i, op, operand)
    }
}

/// The place of the name that is the same, where these are looked at one by one.
#[inline(always)]
fn place_in(locals: &[Local], name: &Name) -> Option<usize>
    ensures value { result ≡ position (λ l. same l.name name.now) locals.now }
    ensures within { IfSome result (λ i. i < length locals.now) }
{
    let form = name.folded();
    for i in 0..locals.len() {
        if locals[i].name.has_form(form) {
            return Some(i);
        }
    }
    None
}

/// The names of parameters with their arguments, and room for a few more.
fn all_given(
    alloc: Global,
    parameters: &Parameters,
    arguments: &[Value],
) -> Result<Vec<Local>, AllocError>
    ensures { IfOk result (λ ls. ls.items ≡ map (local_given arguments.now) (bindings_of parameters.now)) }
{
    let count = parameters.count();
    let mut locals = Vec::with_capacity(alloc, room_for(count))?;
    for place in 0..count {
        locals.push(given(alloc, parameters.binding(alloc, place)?, arguments)?)?;
    }
    Ok(locals)
}

/// For how many names there is room where a handler with so many parameters begins: without one for none.
fn room_for(parameters: usize) -> usize {
    match parameters {
        0 => 0,
        some => some.saturating_add(MORE_NAMES),
    }
}

/// A name with its argument.
fn given(alloc: Global, binding: Binding, arguments: &[Value]) -> Result<Local, AllocError>
    ensures { IfOk result (λ l. l ≡ local_given arguments.now binding) }
{
    let Binding { name, argument } = binding;
    Ok(Local {
        name,
        value: Some(argument_at(alloc, arguments, argument)?),
    })
}

/// A copy of the argument of this number; one that is missing is empty.
fn argument_at(alloc: Global, arguments: &[Value], i: usize) -> Result<Value, AllocError>
    ensures { IfOk result (λ v. v ≡ get_or arguments.now i []) }
{
    match arguments.get(i) {
        Some(value) => value.try_clone(alloc),
        None => Ok(Value::of_text(Text::new(alloc))),
    }
}

/// Puts another value in the place of the one at a place, or none.
fn set_value(locals: &mut Vec<Local>, i: usize, value: Option<Value>)
    requires { i < length locals.old.items }
    ensures value { (other : Local) → locals.new.items
        ≡ slice_set locals.old.items i (record (slice_index_or locals.old.items i other) { value = value }) }
    ensures names { map (λ l. l.name) locals.new.items ≡ map (λ l. l.name) locals.old.items }
{
    let local = &mut locals[i];
    local.value = value;
}

/// Adds a value at the end of the one at a place; one that isn't there is empty.
fn append_at(alloc: Global, locals: &mut Vec<Local>, i: usize, new: Value) -> Result<(), Failure>
    requires { i < length locals.old.items }
    ensures ok { OnOk result ((other : Local) → (t : List ℕ)
        × (within_limit (unwrap_or (slice_index_or locals.old.items i other).value [] ++ new) ≡ Ok t)
        × (locals.new.items ≡ slice_set locals.old.items i
        (record (slice_index_or locals.old.items i other) { value = Some t }))) }
    ensures fault { (other : Local)
        → IfErr result (λ e. Gives {A = List ℕ} (Err e)
        (within_limit (unwrap_or (slice_index_or locals.old.items i other).value [] ++ new))) }
    ensures err { OnErr result (locals.new.items ≡ locals.old.items) }
    ensures names { map (λ l. l.name) locals.new.items ≡ map (λ l. l.name) locals.old.items }
{
    let local = &mut locals[i];
    local.append(alloc, new)
}

/// Puts a number in the place of the value at a place, if there is one, and says whether there is.
fn put_number_at(locals: &mut Vec<Local>, i: usize, number: i64) -> bool
    requires { i < length locals.old.items }
    ensures put { result ≡ true → (other : Local)
        → (is_none (slice_index_or locals.old.items i other).value ≡ false)
        × (locals.new.items ≡ slice_set locals.old.items i
        (record (slice_index_or locals.old.items i other) { value = Some (numeral_of number) })) }
    ensures not { result ≡ false → locals.new.items ≡ locals.old.items }
    ensures names { map (λ l. l.name) locals.new.items ≡ map (λ l. l.name) locals.old.items }
{
    let local = &mut locals[i];
    local.put_number(number)
}

/// Computes with the number at a place, if it and the operand are kept so. Says which number stands there then.
fn compute_at(locals: &mut Vec<Local>, i: usize, op: Op, operand: &Value) -> Option<i64>
    requires { i < length locals.old.items }
    ensures number { IfSome result (λ n. (other : Local)
        → (is_none (slice_index_or locals.old.items i other).value ≡ false)
        × (binary_of op (unwrap_or (slice_index_or locals.old.items i other).value []) operand.now ≡ Ok (numeral_of n))
        × (locals.new.items ≡ slice_set locals.old.items i
        (record (slice_index_or locals.old.items i other) { value = Some (numeral_of n) }))) }
    ensures none { IfNone result (locals.new.items ≡ locals.old.items) }
    ensures names { map (λ l. l.name) locals.new.items ≡ map (λ l. l.name) locals.old.items }
{
    let local = &mut locals[i];
    local.compute(op, operand)
}
