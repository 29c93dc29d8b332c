//! What goes to standard error.

use crate::bar::Bar;
use log::kv::Source;
use log::span::Spans;
use log::{Log, Metadata, Record};
use std::fmt::Display;
use std::time::Clock;

/// Writes each record to standard error as people expect it of a program: its name, and what is wrong. A bar that
/// stands there is taken away first.
#[derive(Drop)]
pub struct Diagnostics<'a, 'b, R> {
    pub rt: &'a R,
    /// The program's name.
    pub name: &'b str,
    pub bar: Option<&'a Bar<'a, R>>,
}

impl<'a, 'b, R: Eprint + Clock> Log for Diagnostics<'a, 'b, R> {
    fn enabled(&self, _metadata: &Metadata<'_>) -> bool {
        true
    }

    fn log<D: Display, K: Source, S: Spans>(&self, record: &Record<'_, D, K, S>) {
        if let Some(bar) = self.bar {
            bar.clear();
        }
        let _ = eprintln!(self.rt; "{}: {}", self.name, record.args());
    }

    fn flush(&self) {}

    fn target(&self) -> &str {
        ""
    }
}
