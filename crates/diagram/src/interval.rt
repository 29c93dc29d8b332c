//! What a picture is made of, as plain values.

use depvector::DepVector;
use model::{Letter, Mark, Seat, Start, Text, Unit};

/// Why an interval began.
#[derive(Clone, Copy)]
pub(crate) enum Cause<'a> {
    /// The unit began.
    Begin,
    /// It received a text from outside, under this session number.
    Outside { number: u32, text: &'a Text },
    /// It received the letter at this place of the picture's letters.
    Letter { place: usize },
}

/// What took an interval off its unit's path, and in which column.
#[derive(Clone, Copy)]
pub(crate) enum Removal {
    /// A kill: it was not logged.
    Kill { column: usize },
    /// The row of a restart or a notice: it was an orphan.
    Rollback { column: usize },
}

impl Removal {
    pub(crate) fn column(self) -> usize {
        match self {
            Removal::Kill { column } | Removal::Rollback { column } => column,
        }
    }
}

/// What an interval has come to.
#[derive(Clone, Copy, PartialEq, Eq)]
pub(crate) enum Status {
    /// All of its past is logged.
    Firm,
    /// It is logged, and something in its past is not.
    Stable,
    /// It is not logged.
    Volatile,
    /// A kill cut it.
    Lost,
    /// A restart or a notice rolled it back.
    Cut,
}

/// One state interval of a unit.
#[derive(Drop)]
pub(crate) struct Interval<'a> {
    pub unit: Unit,
    pub mark: Mark,
    pub column: usize,
    /// How many entries the history had before the one by which it began.
    pub entry: usize,
    pub cause: Cause<'a>,
    /// The place of the interval before it on its unit's path. A beginning has none.
    pub before: Option<usize>,
    /// The greatest mark of each unit in its past.
    pub vector: DepVector,
    /// What it put out.
    pub outputs: Vec<Text>,
    /// How many outputs the path had before it.
    pub outputs_before: usize,
    /// The column in which it was logged, if it was: that of a beginning is its own.
    pub logged: Option<usize>,
    /// The column in which its outputs left, if they did.
    pub released: Option<usize>,
    /// What took it off the path, if anything did.
    pub removal: Option<Removal>,
}

/// A letter that was sent.
#[derive(Drop)]
pub(crate) struct Sent {
    pub number: Letter,
    /// The place of the interval that sent it.
    pub sender: usize,
    pub source: Unit,
    pub receiver: Unit,
    pub text: Text,
    /// Whether an interval that is on a path received it.
    pub is_received: bool,
}

/// One unit.
#[derive(Drop)]
pub(crate) struct Lane<'a> {
    pub seat: Seat,
    pub kind: &'a str,
    /// The column in which it begins.
    pub column: usize,
    /// The places of the intervals that it stands on, its beginning first.
    pub path: Vec<usize>,
    /// How many at the front of the path are logged.
    pub stable: usize,
    /// How many rows it knows.
    pub known: usize,
    /// How many of its outputs were released.
    pub released: usize,
    /// How many intervals at the front of the path put nothing out that is still held.
    pub passed: usize,
    /// The place of the downtime that it is in, if it is down.
    pub down: Option<usize>,
}

/// What a sign stands for.
#[derive(Clone, Copy)]
pub(crate) enum Event {
    /// So many records were logged.
    Flush { count: u64 },
    /// So many outputs were released.
    Release { count: usize },
    /// A snapshot of this interval was shelved.
    Checkpoint { mark: Mark },
    /// The unit failed, and so many intervals were lost.
    Kill { lost: u64 },
    /// The unit came back, and began an incarnation.
    Restart { row: Start },
    /// A notice rolled the unit back, and began an incarnation.
    Rollback { row: Start },
    /// A notice told so many rows, and cut nothing.
    Notice { rows: usize },
}

/// Something that happened to a unit between its intervals.
#[derive(Clone, Copy)]
pub(crate) struct Sign {
    pub unit: Unit,
    pub column: usize,
    pub event: Event,
}

/// The columns in which a unit was down; with no end where it still is.
#[derive(Clone, Copy)]
pub(crate) struct Downtime {
    pub unit: Unit,
    pub first: usize,
    pub end: Option<usize>,
}
