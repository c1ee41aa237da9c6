//! What a command has and gives while it runs: its properties, its result, its steps, what it shows and what it sends.

ghost use Rattle.std.specs.Prelude.{◌≡◌, ◌<◌, ◌≤◌, [], false, Ok, Err, IfOk, IfErr, OnOk, OnErr};
ghost use Rattle.stack_text.specs.Words.{spelled};
ghost use Rattle.meaning.specs.State.{Step, delimiter_set, fresh_run, noted, run_property, run_property_set, shows};

use crate::end::Stop;
use crate::sent::{Line, Sent, Shown};
use crate::trace::Trace;
use ht_grammar::RunProp;
use ht_parse::RecentTexts;
use ht_values::{Fault, Text, Value, truth_of};
use object_table::Id;
use stack_text::spell_into;
use std::alloc::{AllocError, Global};
use std::marker::Model;

/// The run of one command: the item delimiter, lockMessages and editBkgnd, `the result`, the steps that are left, the
/// lines shown, and the messages sent.
pub struct Budget {
    alloc: Global,
    delimiter: u8,
    lock_messages: bool,
    edit_background: bool,
    result: Value,
    left: u32,
    shown: Shown,
    sent: Sent,
    texts: RecentTexts,
}

/// Written here and not derived, so that no crate above proves anew how it is dropped.
impl Drop for Budget {
    fn drop(self) {
        let Budget {
            alloc: _,
            delimiter: _,
            lock_messages: _,
            edit_background: _,
            result: _,
            left: _,
            shown: _,
            sent: _,
            texts: _,
        } = self;
    }
}

impl Model for Budget {
    ghost use Rattle.meaning.specs.State.{RunState};

    ghost Value = { RunState };

    ghost view = { λ b. record {
      delimiter = b.delimiter;
      lock_messages = b.lock_messages;
      edit_background = b.edit_background;
      result = b.result;
      left = b.left;
      shown = b.shown;
      sent = b.sent;
    } };
}

impl Budget {
    /// The run of a typed command that begins, with so many steps: items are delimited by commas, lockMessages and
    /// editBkgnd are false, the result is empty. It takes no memory.
    pub fn new(alloc: Global, steps: u32) -> Budget
        ensures { result ≡ fresh_run steps }
    {
        Budget {
            alloc,
            delimiter: b',',
            lock_messages: false,
            edit_background: false,
            result: Value::of_text(Text::new(alloc)),
            left: steps,
            shown: Shown::new(alloc),
            sent: Sent::new(alloc),
            texts: RecentTexts::new(alloc),
        }
    }

    /// Where it takes its memory.
    pub fn alloc(&self) -> Global {
        self.alloc
    }

    /// The item delimiter.
    pub fn delimiter(&self) -> u8
        ensures { result ≡ self.now.delimiter }
    {
        self.delimiter
    }

    /// Whether the system sends no messages.
    pub fn lock_messages(&self) -> bool
        ensures { result ≡ self.now.lock_messages }
    {
        self.lock_messages
    }

    /// Whether new parts stand on the background.
    pub fn edit_background(&self) -> bool
        ensures { result ≡ self.now.edit_background }
    {
        self.edit_background
    }

    /// `the result`.
    pub fn result(&self) -> &Value
        ensures { result.now ≡ self.now.result }
    {
        &self.result
    }

    /// How many steps are left.
    pub fn left(&self) -> u32
        ensures { result ≡ self.now.left }
    {
        self.left
    }

    /// The lines shown so far.
    pub fn shown(&self) -> &Shown
        ensures { result.now ≡ self.now.shown }
    {
        &self.shown
    }

    /// The messages sent so far.
    pub fn sent(&self) -> &Sent
        ensures { result.now ≡ self.now.sent }
    {
        &self.sent
    }

    /// What is remembered of where the run stops.
    pub fn trace(&self) -> &Trace {
        self.sent.trace()
    }

    /// The texts that were read last, with their trees.
    pub fn texts(&self) -> &RecentTexts {
        &self.texts
    }

    /// The lines shown and the messages sent, where the command has ended.
    pub fn into_shown_and_sent(self) -> (Shown, Sent)
        ensures { result ≡ (self.shown, self.sent) }
    {
        let Budget {
            alloc: _,
            delimiter: _,
            lock_messages: _,
            edit_background: _,
            result: _,
            left: _,
            shown,
            sent,
            texts: _,
        } = self;
        (shown, sent)
    }

    /// Takes a step, or stops where none is left.
    #[tactic(auto, using(crate::proofs::Rules::step_rules))]
    pub fn step(&mut self) -> Result<(), Stop>
        ensures meaning { Step self.old result self.new }
        ensures fewer { self.new.left ≤ self.old.left }
        ensures spent { OnOk result (self.new.left < self.old.left) }
    {
        if self.left == 0 {
            return Err(Stop::Fault(Fault::StepLimit));
        }
        self.left -= 1;
        Ok(())
    }

    /// Shows a value as a line of its own. Where memory was refused nothing changes.
    pub fn show(&mut self, value: &Value) -> Result<(), AllocError>
        ensures ok { OnOk result (self.new ≡ shows self.old value.now) }
        ensures err { OnErr result (self.new ≡ self.old) }
    {
        let line = line_of(self.alloc, value)?;
        self.shown.push(line)
    }

    /// Adds a message to those sent, with its name as it is written. Where memory was refused nothing changes.
    pub fn note(&mut self, name: &Text, object: Id) -> Result<(), AllocError>
        ensures ok { OnOk result (self.new ≡ noted self.old name.now object) }
        ensures err { OnErr result (self.new ≡ self.old) }
    {
        self.sent.note(self.alloc, name, object)
    }

    /// Sets `the result`.
    pub fn set_result(&mut self, value: Value)
        ensures { self.new ≡ record self.old { result = value } }
    {
        self.result = value;
    }

    /// A property of the run as a value.
    pub fn property(&self, property: RunProp) -> Result<Value, AllocError>
        ensures { IfOk result (λ v. v ≡ run_property self.now property) }
    {
        match property {
            RunProp::ItemDelimiter => {
                Ok(Value::of_text(Text::fitting(self.alloc, &[self.delimiter])?))
            }
            RunProp::LockMessages => Ok(Value::of_truth(self.lock_messages)),
            RunProp::EditBkgnd => Ok(Value::of_truth(self.edit_background)),
        }
    }

    /// Sets a property of the run. `BadArgument` where the delimiter isn't one byte, `NotLogical` where another
    /// property isn't `true` or `false`; then nothing changes. It takes no memory.
    pub fn set_property(&mut self, property: RunProp, text: &Text) -> Result<(), Fault>
        ensures ok { OnOk result (run_property_set self.old property text.now ≡ Ok self.new) }
        ensures fault { IfErr result (λ e. run_property_set self.old property text.now ≡ Err e) }
        ensures err { OnErr result (self.new ≡ self.old) }
    {
        match property {
            RunProp::ItemDelimiter => self.set_delimiter(text),
            RunProp::LockMessages => {
                self.lock_messages = truth_of(text)?;
                Ok(())
            }
            RunProp::EditBkgnd => {
                self.edit_background = truth_of(text)?;
                Ok(())
            }
        }
    }

    fn set_delimiter(&mut self, text: &Text) -> Result<(), Fault>
        ensures ok { OnOk result (delimiter_set self.old text.now ≡ Ok self.new) }
        ensures fault { IfErr result (λ e. delimiter_set self.old text.now ≡ Err e) }
        ensures err { OnErr result (self.new ≡ self.old) }
    {
        match text.as_slice() {
            [delimiter] => {
                self.delimiter = *delimiter;
                Ok(())
            }
            _ => Err(Fault::BadArgument),
        }
    }
}

/// The line that shows a value.
fn line_of(alloc: Global, value: &Value) -> Result<Line, AllocError>
    ensures { IfOk result (λ l. l ≡ spelled value.now) }
{
    let text = value.spelled(alloc)?;
    let mut bytes = Vec::new(alloc);
    spell_into(&mut bytes, text.text().as_slice())?;
    Ok(Line::new(bytes))
}
