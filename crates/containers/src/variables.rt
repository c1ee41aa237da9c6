//! The variables of a handler that runs, or of a typed line.

ghost use Rattle.std.specs.Prelude.{◌≡◌, ◌<◌, ◌++◌, ℕ, Ok, List, [], true, false, length, Err, IfErr, IfOk, OnOk};
ghost use Rattle.std.specs.Prelude.{OnErr, IfNone, IfSome, Option, option_copied, find, slice_index_or};
ghost use Rattle.std.specs.Prelude.{unwrap_or, is_none, Some, None};
ghost use Rattle.ht_values.specs.Outcome.{Gives, within_limit};
ghost use Rattle.ht_values.specs.declared.word.Where.TheVariants.{After};
ghost use Rattle.containers.specs.declared.edit.Edit.TheVariants.{Put};
ghost use Rattle.ht_values.specs.Operators.{binary as binary_of};
ghost use Rattle.ht_values.specs.Text.{numeral as numeral_of, same};
ghost use Rattle.change_journal.specs.History.{History};
ghost use Rattle.containers.specs.Edits.{edited};
ghost use Rattle.containers.specs.Places.{own};
ghost use Rattle.containers.specs.Variables.{bound, declared, local_of, is_global, own_text, own_value, with_local};
ghost use Rattle.containers.specs.Writes.{Writes};
ghost use Rattle.containers.specs.Standing.{IsMeaning};

use crate::edit::Edit;
use crate::indexed_locals::Locals;
use crate::standing::Standing;
use chunks::Chunk;
use ht_values::{Failure, Name, Op, Text, Value, Where, law_of_value, number_by};
use name_lists::{FoldedName, Parameters};
use std::alloc::{AllocError, Global};
use std::marker::Model;

/// A name that a handler has met: with a value a variable of its own, without one a global.
#[derive(Drop)]
pub(crate) struct Local {
    pub name: FoldedName,
    pub value: Option<Value>,
}

impl Local {
    /// Puts a number in the place of the value, if there is one, and says whether there is.
    pub(crate) fn put_number(&mut self, number: i64) -> bool
        ensures put { result ≡ true → (is_none self.old.value ≡ false)
            × (self.new ≡ record self.old { value = Some (numeral_of number) }) }
        ensures not { result ≡ false → self.new ≡ self.old }
        ensures name { self.new.name ≡ self.old.name }
    {
        match &mut self.value {
            Some(value) => {
                *value = Value::of_number(number);
                true
            }
            None => false,
        }
    }

    /// Computes with the number as which the value is kept, if it and the operand are kept so, in its place. Says which
    /// number stands there then; else nothing changes.
    pub(crate) fn compute(&mut self, op: Op, operand: &Value) -> Option<i64>
        ensures number { IfSome result (λ n. (is_none self.old.value ≡ false)
            × (binary_of op (unwrap_or self.old.value []) operand.now ≡ Ok (numeral_of n))
            × (self.new ≡ record self.old { value = Some (numeral_of n) })) }
        ensures none { IfNone result (self.new ≡ self.old) }
        ensures name { self.new.name ≡ self.old.name }
    {
        let number = self.computed(op, operand)?;
        self.value = Some(Value::of_number(number));
        Some(number)
    }

    /// The number that an operator gives of the value and of an operand, where both are kept as numbers.
    fn computed(&self, op: Op, operand: &Value) -> Option<i64>
        ensures { IfSome result (λ n. (is_none self.now.value ≡ false)
            × (binary_of op (unwrap_or self.now.value []) operand.now ≡ Ok (numeral_of n))) }
    {
        let number = self.value.as_ref()?.kept_number()?;
        number_by(op, number, operand.kept_number()?)
    }

    /// Adds a value at the end of the one that the name has, which is empty where it has none.
    pub(crate) fn append(&mut self, alloc: Global, new: Value) -> Result<(), Failure>
        ensures ok { OnOk result ((t : List ℕ) × (within_limit (unwrap_or self.old.value [] ++ new) ≡ Ok t)
            × (self.new ≡ record self.old { value = Some t })) }
        ensures fault { IfErr result (λ e. Gives {A = List ℕ} (Err e)
            (within_limit (unwrap_or self.old.value [] ++ new))) }
        ensures err { OnErr result (self.new ≡ self.old) }
        ensures name { self.new.name ≡ self.old.name }
    {
        if let Some(value) = &mut self.value {
            return value.append(alloc, &new);
        }
        law_of_value(&new);
        self.value = Some(new);
        Ok(())
    }
}

/// What a name means: a global, a variable of the handler's own with a value, or one that has none.
#[derive(Clone, Copy)]
pub(crate) enum NameMeaning<'a> {
    Global,
    Own(&'a Value),
    Unknown,
}

/// The variables of a handler, in the order in which their names came, and the names that mean globals there; or those
/// of a typed line, where every variable is global. Names that are the same are one.
#[derive(Drop)]
pub struct Variables {
    all_global: bool,
    locals: Locals,
}

impl Model for Variables {
    ghost use Rattle.containers.specs.Variables.{VariablesView};

    ghost Value = { VariablesView };

    ghost view = { λ v. record { all_global = v.all_global; locals = v.locals } };
}

impl Variables {
    /// Those of a handler without parameters that begins. It takes no memory.
    #[inline(always)]
    pub fn of_handler(alloc: Global) -> Variables
        ensures { result ≡ record { all_global = false; locals = [] } }
    {
        Variables {
            all_global: false,
            locals: Locals::new(alloc),
        }
    }

    /// Becomes those of a handler that begins, whose parameters have the arguments: a missing one is empty, a surplus
    /// one is dropped, and of one name the last counts. It takes no memory where there are no parameters.
    #[inline(always)]
    pub fn bind(
        &mut self,
        alloc: Global,
        parameters: &Parameters,
        arguments: &[Value],
    ) -> Result<(), AllocError>
        ensures { OnOk result (self.new
            ≡ bound parameters.now arguments.now (record { all_global = false; locals = [] })) }
    {
        self.all_global = false;
        self.locals.bind(alloc, parameters, arguments)
    }

    /// Those of a typed line: every variable is global. It takes no memory.
    pub fn of_typed_line(alloc: Global) -> Variables
        ensures { result ≡ record { all_global = true; locals = [] } }
    {
        Variables {
            all_global: true,
            locals: Locals::new(alloc),
        }
    }

    /// What is known of a name.
    #[inline]
    fn local(&self, name: &Name) -> Option<&Local>
        ensures { option_copied result ≡ local_of self.now name.now }
    {
        self.locals.find(name)
    }

    /// Whether a name means a global.
    pub fn is_global(&self, name: &Name) -> bool
        ensures { result ≡ is_global self.now name.now }
    {
        self.all_global
            || match self.local(name) {
                Some(local) => local.value.is_none(),
                None => false,
            }
    }

    /// What a name means, found by one look over the names.
    #[inline(always)]
    pub(crate) fn meaning_of(&self, name: &Name) -> NameMeaning<'_>
        ensures { IsMeaning self.now name.now result }
    {
        if self.all_global {
            return NameMeaning::Global;
        }
        match self.local(name) {
            Some(local) => match &local.value {
                Some(value) => NameMeaning::Own(value),
                None => NameMeaning::Global,
            },
            None => NameMeaning::Unknown,
        }
    }

    /// The value of a variable of the handler's own, if it has one.
    pub(crate) fn own_value(&self, name: &Name) -> Option<&Value>
        ensures { option_copied result ≡ own_value self.now name.now }
    {
        self.local(name)?.value.as_ref()
    }

    /// Gives a name a value of its own, or none: then it means a global from here on. Where memory was refused nothing
    /// changes.
    pub(crate) fn set(
        &mut self,
        alloc: Global,
        name: &Name,
        value: Option<Value>,
    ) -> Result<(), AllocError>
        ensures ok { OnOk result (self.new ≡ with_local self.old name.now value) }
        ensures err { OnErr result (self.new ≡ self.old) }
    {
        match self.locals.number_of(name) {
            Some(i) => self.locals.set_value(i, value),
            None => {
                self.locals.push(alloc, name, value)?;
            }
        }
        Ok(())
    }

    /// Puts a number into a variable of the handler's own that has a value, and says whether there is one; else nothing
    /// changes. It takes no memory.
    pub(crate) fn put_number(&mut self, name: &Name, number: i64) -> bool
        ensures put { result ≡ true → (is_global self.old name.now ≡ false)
            × (self.new ≡ with_local self.old name.now (Some (numeral_of number))) }
        ensures not { result ≡ false → self.new ≡ self.old }
    {
        if self.all_global {
            return false;
        }
        match self.locals.number_of(name) {
            Some(i) => self.locals.put_number_at(i, number),
            None => false,
        }
    }

    /// Computes with a variable of the handler's own that is kept as a number, in its place, where the operand is kept
    /// so as well. Says which number stands there then; else nothing changes. It takes no memory.
    pub(crate) fn compute(&mut self, name: &Name, op: Op, operand: &Value) -> Option<i64>
        ensures number { IfSome result (λ n. (is_global self.old name.now ≡ false)
            × (binary_of op (own_text self.old name.now) operand.now ≡ Ok (numeral_of n))
            × (self.new ≡ with_local self.old name.now (Some (numeral_of n)))) }
        ensures none { IfNone result (self.new ≡ self.old) }
    {
        if self.all_global {
            return None;
        }
        match self.locals.number_of(name) {
            Some(i) => self.locals.compute_at(i, op, operand),
            None => None,
        }
    }

    /// Puts a value into a variable of the handler's own, which is looked for once. Where the name means a global the
    /// value comes back. Then, and where memory was refused, nothing changes.
    pub(crate) fn put(
        &mut self,
        alloc: Global,
        name: &Name,
        value: Value,
    ) -> Result<Option<Value>, AllocError>
        ensures own { IfOk result (λ back. IfNone back
            ((is_global self.old name.now ≡ false) × (self.new ≡ with_local self.old name.now (Some value)))) }
        ensures global { IfOk result (λ back. IfSome back
            (λ v. (is_global self.old name.now ≡ true) × (v ≡ value) × (self.new ≡ self.old))) }
        ensures err { OnErr result (self.new ≡ self.old) }
    {
        if self.all_global {
            return Ok(Some(value));
        }
        match self.locals.number_of(name) {
            Some(i) if self.locals.as_slice()[i].value.is_none() => Ok(Some(value)),
            Some(i) => {
                self.locals.set_value(i, Some(value));
                Ok(None)
            }
            None => {
                self.set(alloc, name, Some(value))?;
                Ok(None)
            }
        }
    }

    /// Edits a variable of the handler's own, which is looked for once: one without a value is empty. After a fault,
    /// and where it is out of memory, nothing has changed.
    pub(crate) fn edit(
        &mut self,
        alloc: Global,
        name: &Name,
        edit: Edit,
        chunks: &[Chunk],
        delimiter: u8,
    ) -> Result<(), Failure>
        ensures ok { OnOk result ((h : History) → Writes h self.old (own name.now)
            (edited delimiter chunks.now edit (own_text self.old name.now)) h self.new) }
        ensures fault { IfErr result (λ e. Gives {A = Option (List ℕ)} (Err e)
            (edited delimiter chunks.now edit (own_text self.old name.now))) }
        ensures err { OnErr result (self.new ≡ self.old) }
    {
        match self.locals.number_of(name) {
            Some(i) => {
                if let Some(value) = edited_at(
                    alloc,
                    self.locals.as_slice(),
                    i,
                    edit,
                    chunks,
                    delimiter,
                )? {
                    self.locals.set_value(i, Some(value));
                }
                Ok(())
            }
            None => match edit.edited(
                alloc,
                Standing::Text(&Text::new(alloc)),
                chunks,
                delimiter,
            )? {
                Some(value) => Ok(self.set(alloc, name, Some(value))?),
                None => Ok(()),
            },
        }
    }

    /// Adds a value at the end of a variable of the handler's own, in its place where it stands as a text; one without
    /// a value is empty. After a fault, and where it is out of memory, nothing has changed.
    fn append(&mut self, alloc: Global, name: &Name, new: Value) -> Result<(), Failure>
        ensures ok { OnOk result ((h : History) (d : ℕ)
            → Writes h self.old (own name.now) (edited d [] (Put After new) (own_text self.old name.now)) h self.new) }
        ensures fault { (d : ℕ) → IfErr result
            (λ e. Gives {A = Option (List ℕ)} (Err e) (edited d [] (Put After new) (own_text self.old name.now))) }
        ensures err { OnErr result (self.new ≡ self.old) }
    {
        match self.locals.number_of(name) {
            Some(i) => self.locals.append_at(alloc, i, new),
            None => {
                law_of_value(&new);
                Ok(self.set(alloc, name, Some(new))?)
            }
        }
    }

    /// Edits the whole of a variable of the handler's own, as `edit` does without chunks.
    pub(crate) fn edit_whole(
        &mut self,
        alloc: Global,
        name: &Name,
        edit: Edit,
        delimiter: u8,
    ) -> Result<(), Failure>
        ensures ok { OnOk result ((h : History) → Writes h self.old (own name.now)
            (edited delimiter [] edit (own_text self.old name.now)) h self.new) }
        ensures fault { IfErr result (λ e. Gives {A = Option (List ℕ)} (Err e)
            (edited delimiter [] edit (own_text self.old name.now))) }
        ensures err { OnErr result (self.new ≡ self.old) }
    {
        match edit {
            Edit::Put(Where::After, value) => self.append(alloc, name, value),
            edit => self.edit(alloc, name, edit, &[], delimiter),
        }
    }

    /// A name means a global from here on. Where memory was refused nothing changes.
    pub(crate) fn declare(&mut self, alloc: Global, name: &Name) -> Result<(), AllocError>
        ensures ok { OnOk result (self.new ≡ declared self.old name.now) }
        ensures err { OnErr result (self.new ≡ self.old) }
    {
        if self.all_global {
            return Ok(());
        }
        self.set(alloc, name, None)
    }
}

/// What an edit makes of the value at a place; of one that isn't there, as of an empty one.
fn edited_at(
    alloc: Global,
    locals: &[Local],
    i: usize,
    edit: Edit,
    chunks: &[Chunk],
    delimiter: u8,
) -> Result<Option<Value>, Failure>
    requires { i < length locals.now }
    ensures { (other : Local) → Gives result
        (edited delimiter chunks.now edit (unwrap_or (slice_index_or locals.now i other).value [])) }
{
    match &locals[i].value {
        Some(value) => edit.edited(alloc, Standing::Value(value), chunks, delimiter),
        None => edit.edited(alloc, Standing::Text(&Text::new(alloc)), chunks, delimiter),
    }
}
