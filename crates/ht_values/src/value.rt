//! Values as they are computed: a number or a truth value in place of its spelling, or a text.

ghost use Rattle.std.specs.Prelude.{◌≡◌, ◌≤◌, ◌+◌, ◌++◌, ℕ, List, length, IfOk, IfErr, IfSome, IsOk};
ghost use Rattle.std.specs.Prelude.{OnOk, OnErr, Ok, Err, IsTrue};
ghost use Rattle.std.specs.Option.{SomeIff};
ghost use Rattle.ht_values.specs.Number.{is_numeral, number_of as number_of_text, value_of};
ghost use Rattle.ht_values.specs.Operators.{truth_of as truth_of_text, word_of};
ghost use Rattle.ht_values.specs.Outcome.{Gives, within_limit};
ghost use Rattle.ht_values.specs.Text.{numeral as numeral_of};
ghost use Rattle.ht_values.specs.declared.few_bytes.TheConstants.{IN_PLACE};
ghost use Rattle.ht_values.specs.declared.text.TheConstants.{LIMIT};

use crate::failure::Failure;
use crate::fault::Fault;
use crate::join::joined;
use crate::logic::{truth_of, word_text};
use crate::number::{number_of, numeral, plain_number};
use crate::text::{Text, text_of};
use itoa::Buffer;
use std::alloc::{AllocError, Global};
use std::marker::Model;

/// How a value is kept.
#[derive(Drop)]
pub(crate) enum Form {
    Number(i64),
    Truth(bool),
    Spelled(Text),
}

/// A value of HyperTalk, which contracts see as its text. What was computed as a number or as a truth value is kept so,
/// and is spelled only where its bytes are asked for: in between it takes no memory, and nothing is read back.
pub struct Value {
    form: Form,
}

/// Written here and not derived, so that no crate above proves anew how it is dropped.
impl Drop for Value {
    // Else each place that drops one has a copy of it in its frame.
    #[inline(always)]
    fn drop(self) {
        let Value { form: _ } = self;
    }
}

impl Model for Value {
    ghost use Rattle.std.specs.Prelude.{List, ℕ};

    ghost Value = { List ℕ };

    ghost use Rattle.ht_values.specs.Spelling.{spelled_form};

    ghost view = { λ v. spelled_form v.form };
}

impl Value {
    /// The numeral of a number. It takes no memory.
    pub fn of_number(number: i64) -> Value
        ensures { result ≡ numeral_of number }
    {
        Value {
            form: Form::Number(number),
        }
    }

    /// `true` or `false`. It takes no memory.
    pub fn of_truth(truth: bool) -> Value
        ensures { result ≡ word_of truth }
    {
        Value {
            form: Form::Truth(truth),
        }
    }

    /// A text, which it takes over: it takes no memory.
    pub fn of_text(text: Text) -> Value
        ensures { result ≡ text }
    {
        Value {
            form: Form::Spelled(text),
        }
    }

    /// An equal value. A numeral without a sign, spaces or leading zeros is kept as its number. It takes memory only
    /// for a text of over 22 bytes.
    #[inline]
    pub fn copied(alloc: Global, text: &Text) -> Result<Value, AllocError>
        ensures value { IfOk result (λ v. v ≡ text.now) }
        ensures short { length text.now ≤ IN_PLACE → IsOk result }
    {
        match plain_number(text.as_slice()) {
            Some(number) => Ok(Value::of_number(number)),
            None => Ok(Value::of_text(text.try_clone(alloc)?)),
        }
    }

    /// Makes the value equal to a text, as `copied` does. It takes memory only for a text of over 22 bytes; the value
    /// is as it was where that was refused.
    #[inline]
    pub fn copy_from(&mut self, alloc: Global, text: &Text) -> Result<(), AllocError>
        ensures value { OnOk result (self.new ≡ text.now) }
        ensures same { OnErr result (self.new ≡ self.old) }
        ensures short { length text.now ≤ IN_PLACE → IsOk result }
    {
        if let Some(number) = plain_number(text.as_slice()) {
            *self = Value::of_number(number);
            return Ok(());
        }
        match text.few() {
            Some(few) => *self = Value::of_text(Text::in_place(alloc, few.duplicate())),
            None => *self = Value::of_text(text.try_clone(alloc)?),
        }
        Ok(())
    }

    /// An equal value. It takes memory only for a text of over 22 bytes.
    #[inline]
    pub fn try_clone(&self, alloc: Global) -> Result<Value, AllocError>
        ensures value { IfOk result (λ v. v ≡ self.now) }
        ensures short { length self.now ≤ IN_PLACE → IsOk result }
    {
        match &self.form {
            Form::Number(number) => Ok(Value::of_number(*number)),
            Form::Truth(truth) => Ok(Value::of_truth(*truth)),
            Form::Spelled(text) => Ok(Value::of_text(text.try_clone(alloc)?)),
        }
    }

    /// The text of the value. It takes no memory, and is never refused: only a short one is made.
    pub fn into_text(self, alloc: Global) -> Result<Text, AllocError>
        ensures value { IfOk result (λ t. t ≡ self) }
        ensures made { IsOk result }
    {
        let Value { form } = self;
        match form {
            Form::Number(number) => text_of(alloc, number),
            Form::Truth(truth) => word_text(alloc, truth),
            Form::Spelled(text) => Ok(text),
        }
    }

    /// The text of the value, lent where the value is kept as a text, and else made. It takes no memory, and is never
    /// refused: only a short one is made.
    pub fn spelled(&self, alloc: Global) -> Result<Spelling<'_>, AllocError>
        ensures value { IfOk result (λ s. s ≡ self.now) }
        ensures made { IsOk result }
    {
        let text = match &self.form {
            Form::Number(number) => Lent::Made(text_of(alloc, *number)?),
            Form::Truth(truth) => Lent::Made(word_text(alloc, *truth)?),
            Form::Spelled(text) => Lent::Stands(text),
        };
        Ok(Spelling { text })
    }

    /// Adds the text of another value at the end, as `append_parts` does.
    pub fn append(&mut self, alloc: Global, new: &Value) -> Result<(), Failure>
        ensures ok { OnOk result (within_limit (self.old ++ new.now) ≡ Ok self.new) }
        ensures fault { IfErr result (λ e. Gives {A = List ℕ} (Err e) (within_limit (self.old ++ new.now))) }
        ensures err { OnErr result (self.new ≡ self.old) }
        ensures short { length self.old + length new.now ≤ IN_PLACE → IsOk result }
    {
        self.append_value(alloc, b"", new)
    }

    /// Adds bytes and the text of another value at the end, as `append_parts` does.
    pub fn append_value(
        &mut self,
        alloc: Global,
        between: &[u8],
        new: &Value,
    ) -> Result<(), Failure>
        ensures ok { OnOk result (within_limit (self.old ++ between.now ++ new.now) ≡ Ok self.new) }
        ensures fault { IfErr result
            (λ e. Gives {A = List ℕ} (Err e) (within_limit (self.old ++ between.now ++ new.now))) }
        ensures err { OnErr result (self.new ≡ self.old) }
        ensures short { length self.old + length between.now + length new.now ≤ IN_PLACE → IsOk result }
    {
        match &new.form {
            Form::Number(number) => {
                let mut digits = Buffer::new();
                self.append_parts(alloc, between, digits.format(*number).as_bytes())
            }
            Form::Truth(truth) => {
                self.append_parts(alloc, between, word_text(alloc, *truth)?.as_slice())
            }
            Form::Spelled(text) => self.append_parts(alloc, between, text.as_slice()),
        }
    }

    /// Adds two parts at the end, one after another: where the value is kept as a text, in its place. `TooLong` where
    /// the text would be over 30,000 bytes, else `Memory` where a growth was refused; the value is then as it was. It
    /// takes no memory where the text then has at most 22 bytes.
    pub fn append_parts(
        &mut self,
        alloc: Global,
        between: &[u8],
        bytes: &[u8],
    ) -> Result<(), Failure>
        ensures ok { OnOk result (within_limit (self.old ++ between.now ++ bytes.now) ≡ Ok self.new) }
        ensures fault { IfErr result
            (λ e. Gives {A = List ℕ} (Err e) (within_limit (self.old ++ between.now ++ bytes.now))) }
        ensures err { OnErr result (self.new ≡ self.old) }
        ensures short { length self.old + length between.now + length bytes.now ≤ IN_PLACE → IsOk result }
    {
        if let Form::Spelled(text) = &mut self.form {
            return text.append_parts(between, bytes);
        }
        let whole = joined(
            alloc,
            self.spelled(alloc)?.text().as_slice(),
            between,
            bytes,
        )?;
        self.form = Form::Spelled(whole);
        Ok(())
    }

    /// The number as which the value is kept, if it is kept so: nothing is read. It takes no memory.
    #[inline]
    pub fn kept_number(&self) -> Option<i64>
        ensures { IfSome result (λ n. self.now ≡ numeral_of n) }
    {
        match &self.form {
            Form::Number(number) => Some(*number),
            Form::Truth(_) | Form::Spelled(_) => None,
        }
    }

    /// The number that the value means, or the fault that it means none, as `number_of` says it of a text. It takes no
    /// memory.
    #[inline]
    #[tactic(auto, using(crate::proofs::Spellings::numeral_is_read, crate::proofs::Spellings::word_is_no_number))]
    pub fn number(&self) -> Result<i64, Fault>
        ensures { result ≡ number_of_text self.now }
    {
        match &self.form {
            Form::Number(number) => Ok(*number),
            Form::Truth(_) => Err(Fault::NotANumber),
            Form::Spelled(text) => number_of(text),
        }
    }

    /// The number of a numeral, as `numeral` says it of a text.
    #[inline]
    #[tactic(auto, using(crate::proofs::Spellings::numeral_is_one, crate::proofs::Spellings::word_is_no_numeral))]
    pub(crate) fn numeral(&self) -> Option<i64>
        ensures { SomeIff result (IsTrue (is_numeral self.now)) (value_of self.now) }
    {
        match &self.form {
            Form::Number(number) => Some(*number),
            Form::Truth(_) => None,
            Form::Spelled(text) => numeral(text),
        }
    }

    /// The truth value that the value means, or the fault that it means none, as `truth_of` says it of a text. It takes
    /// no memory.
    #[tactic(auto, using(crate::proofs::Spellings::word_is_true, crate::proofs::Spellings::numeral_is_no_truth))]
    pub fn truth(&self) -> Result<bool, Fault>
        ensures { result ≡ truth_of_text self.now }
    {
        match &self.form {
            Form::Number(number) => {
                let _in_range = *number;
                Err(Fault::NotLogical)
            }
            Form::Truth(truth) => Ok(*truth),
            Form::Spelled(text) => truth_of(text),
        }
    }
}

/// The text of a value is one: it has at most 30,000 bytes. This reads the value and does nothing with it.
#[tactic(auto, using(crate::proofs::Spellings::numeral_fits, crate::proofs::Spellings::word_fits))]
pub fn law_of_value(value: &Value)
    ensures { length value.now ≤ LIMIT }
{
    match &value.form {
        Form::Number(number) => {
            let _in_range = *number;
        }
        Form::Truth(_) => {}
        Form::Spelled(text) => {
            let _length = text.len();
        }
    }
}

/// Where the text of a value stands.
#[derive(Drop)]
pub(crate) enum Lent<'a> {
    Made(Text),
    Stands(&'a Text),
}

/// The text of a value, made for it or lent by it.
pub struct Spelling<'a> {
    text: Lent<'a>,
}

/// Written here and not derived, so that no crate above proves anew how it is dropped.
impl<'a> Drop for Spelling<'a> {
    fn drop(self) {
        let Spelling { text: _ } = self;
    }
}

impl<'a> Model for Spelling<'a> {
    ghost use Rattle.std.specs.Prelude.{List, ℕ};

    ghost Value = { List ℕ };

    ghost use Rattle.ht_values.specs.Spelling.{lent_text};

    ghost view = { λ s. lent_text s.text };
}

impl<'a> Spelling<'a> {
    /// The text.
    pub fn text(&self) -> &Text
        ensures { result.now ≡ self.now }
    {
        match &self.text {
            Lent::Made(text) => text,
            Lent::Stands(text) => text,
        }
    }
}
