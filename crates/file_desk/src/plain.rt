//! A logger whose lines are the texts of the records alone.

use log::kv::Source;
use log::span::Spans;
use log::{Log, Metadata, Record};
use std::fmt::Display;

/// Writes the text of each record to the standard error of `R`, a line each. What can't be written is dropped.
#[derive(Clone, Copy, Drop)]
pub struct Plain<R>(pub R);

impl<R: Eprint> Log for Plain<R> {
    fn enabled(&self, _metadata: &Metadata<'_>) -> bool {
        true
    }

    fn log<D: Display, K: Source, S: Spans>(&self, record: &Record<'_, D, K, S>) {
        let _ = self.0.eprintln(record.args());
    }

    fn flush(&self) {}

    fn target(&self) -> &str {
        ""
    }
}
