//! How much is told on standard error.

use log::LevelFilter;

/// How much is told.
#[derive(Clone, Copy, PartialEq, Eq)]
pub enum Verbosity {
    /// Faults alone.
    Quiet,
    /// What goes wrong, and what is to be known; a bar, where standard error is a terminal.
    Usual,
    /// Also what was done.
    Verbose,
}

impl Verbosity {
    /// The level of `log` that is told.
    pub fn level(self) -> LevelFilter {
        match self {
            Verbosity::Quiet => LevelFilter::Error,
            Verbosity::Usual => LevelFilter::Warn,
            Verbosity::Verbose => LevelFilter::Info,
        }
    }
}
