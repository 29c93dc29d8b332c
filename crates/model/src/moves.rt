//! Runs without failures.

use crate::names::{Kind, Unit};
use crate::text::Text;
use thiserror::Error;

/// One move of a run without failures.
#[derive(Debug, Drop)]
pub enum Move {
    /// The unit takes this text from outside.
    Outside { unit: Unit, text: Text },
    /// The unit `to` takes the next letter of the unit `from`.
    Letter { to: Unit, from: Unit },
    /// A unit of this kind joins.
    Join { kind: Kind },
}

/// Why a list of moves is no run, or not one with these outputs.
#[derive(Clone, Copy, Debug, PartialEq, Eq, Error)]
pub enum Flaw {
    /// A move names this unit, which is not there.
    #[error("a move names a unit that is not there")]
    NoUnit(Unit),
    /// The unit takes a letter where none is on its way.
    #[error("a unit takes a letter where none is on its way")]
    NothingToReceive(Unit),
    /// The unit's outputs do not begin with its list.
    #[error("a unit's outputs do not begin with its list")]
    OutputsDiffer(Unit),
    /// There was no memory to tell.
    #[error("no memory")]
    NoMemory,
}
