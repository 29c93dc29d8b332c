//! Replies, and the entries of a history.

ghost use Rattle.std.specs.Prelude.{◌≡◌, IfOk};

use crate::fault::NoMemory;
use crate::names::{Mark, Start, Unit};
use crate::refusals::Refusal;
use crate::steps::Step;
use crate::text::{Letters, Texts};
use std::alloc::Global;

/// The answer to a step.
#[derive(Debug, PartialEq, Eq, Drop)]
pub enum Reply {
    /// How many units were opened.
    Opened {
        units: u64,
    },
    /// The new unit's number.
    Joined {
        unit: Unit,
    },
    /// The new interval's mark, the outputs then held, and the letters that it made.
    Accepted {
        at: Mark,
        held: u64,
        letters: Letters,
    },
    /// The records that were acknowledged.
    Flushed {
        count: u64,
    },
    /// The mark of the last interval.
    Checkpointed {
        at: Mark,
    },
    /// The intervals that were cut.
    Killed {
        lost: u64,
    },
    /// The row that was appended.
    Restarted {
        row: Start,
    },
    /// The row that was appended, if one was.
    Noticed {
        row: Option<Start>,
    },
    /// The outputs released.
    Released {
        outputs: Texts,
    },
    /// What the unit is at: `stable` is its stable length less 1, `volatile` what lies past that.
    Status {
        // Ahead of the numbers, between which it would leave a gap.
        up: bool,
        at: Mark,
        held: u64,
        known: u64,
        outside: u64,
        released: u64,
        rows: u64,
        stable: u64,
        volatile: u64,
    },
    /// A flush ended early, after so many records.
    Stopped {
        count: u64,
        refusal: Refusal,
    },
    /// The step was refused, and changed nothing.
    Refused {
        refusal: Refusal,
    },
}

impl Reply {
    /// An equal reply.
    pub fn copy(&self, alloc: Global) -> Result<Reply, NoMemory>
        ensures { IfOk result (λ r. r ≡ self.now) }
    {
        match self {
            Reply::Opened { units } => Ok(Reply::Opened { units: *units }),
            Reply::Joined { unit } => Ok(Reply::Joined { unit: *unit }),
            Reply::Accepted { at, held, letters } => Ok(Reply::Accepted {
                at: *at,
                held: *held,
                letters: letters.copy(alloc)?,
            }),
            Reply::Flushed { count } => Ok(Reply::Flushed { count: *count }),
            Reply::Checkpointed { at } => Ok(Reply::Checkpointed { at: *at }),
            Reply::Killed { lost } => Ok(Reply::Killed { lost: *lost }),
            Reply::Restarted { row } => Ok(Reply::Restarted { row: *row }),
            Reply::Noticed { row } => Ok(Reply::Noticed { row: *row }),
            Reply::Released { outputs } => Ok(Reply::Released {
                outputs: outputs.copy()?,
            }),
            Reply::Status {
                at,
                held,
                known,
                outside,
                released,
                rows,
                stable,
                up,
                volatile,
            } => Ok(Reply::Status {
                at: *at,
                held: *held,
                known: *known,
                outside: *outside,
                released: *released,
                rows: *rows,
                stable: *stable,
                up: *up,
                volatile: *volatile,
            }),
            Reply::Stopped { count, refusal } => Ok(Reply::Stopped {
                count: *count,
                refusal: *refusal,
            }),
            Reply::Refused { refusal } => Ok(Reply::Refused { refusal: *refusal }),
        }
    }
}

/// How the store's answers during a step ended.
#[derive(Clone, Copy, Debug, PartialEq, Eq)]
pub enum End {
    /// All that the step asked for was done.
    Whole,
    /// The device failed.
    Device,
    /// A growth was refused.
    Memory,
}

/// What the store said during a step: how many records it acknowledged, and how that ended.
#[derive(Clone, Copy, Debug, PartialEq, Eq)]
pub struct Said {
    pub appended: u64,
    pub end: End,
}

/// Who gave a step: a caller, a feed as its step `at` (from 0), or the logger.
#[derive(Clone, Copy, Debug, PartialEq, Eq)]
pub enum Who {
    Caller,
    Feed { feed: u32, at: u32 },
    Logger,
}

/// One step of a history, with what the store said and the reply.
#[derive(Debug, Drop)]
pub struct Entry {
    pub who: Who,
    pub step: Step,
    pub said: Said,
    pub reply: Reply,
}
