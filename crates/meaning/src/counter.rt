//! The numbers of a repeat.

ghost use Rattle.std.specs.Prelude.{◌≡◌, false};
ghost use Rattle.ht_values.specs.Text.{numeral};
ghost use Rattle.meaning.specs.Repeats.{is_over as is_over_of, stepped};

use ht_values::Value;
use std::marker::Model;

/// The number of the turn that comes next, and the bound, which is passed upward or downward. No number past the bound
/// is formed: the last one is marked as passed.
#[derive(Drop)]
pub struct Counter {
    at: i64,
    bound: i64,
    is_down: bool,
    is_past: bool,
}

impl Model for Counter {
    ghost use Rattle.std.specs.Prelude.{◌≡◌, true};
    ghost use Rattle.meaning.specs.Repeats.{CounterState, at_or_past};

    ghost Value = { CounterState };

    ghost view = { λ c. record { at = at_or_past c.is_past c.is_down c.at; bound = c.bound; is_down = c.is_down } };

    ghost invariant = { λ c. c.is_past ≡ true → c.at ≡ c.bound };
}

impl Counter {
    /// From a number to a bound.
    pub fn new(at: i64, bound: i64, is_down: bool) -> Counter
        ensures { result ≡ record { at = at; bound = bound; is_down = is_down } }
    {
        Counter {
            at,
            bound,
            is_down,
            is_past: false,
        }
    }

    /// Whether the bound is passed.
    pub fn is_over(&self) -> bool
        ensures { result ≡ is_over_of self.now }
    {
        self.is_past
            || if self.is_down {
                self.at < self.bound
            } else {
                self.bound < self.at
            }
    }

    /// The number of the turn as a value. It takes no memory.
    pub fn value(&self) -> Value
        requires { is_over_of self.now ≡ false }
        ensures { result ≡ numeral self.now.at }
    {
        Value::of_number(self.at)
    }

    /// Goes on to the next turn.
    pub fn step(&mut self)
        requires { is_over_of self.old ≡ false }
        ensures { self.new ≡ stepped self.old }
    {
        if self.at == self.bound {
            self.is_past = true;
        } else if self.is_down {
            self.at -= 1;
        } else {
            self.at += 1;
        }
    }
}
