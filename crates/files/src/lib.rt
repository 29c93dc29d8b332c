//! The files of a program that hosts a handler.
//!
//! - `fill_descriptors`: the descriptors of the standard streams are taken before any file is opened;
//! - `lock_journal`, `open_journal` (`opening`): the file of `run --journal`, found fit, locked, cut to whole lines and
//!   synced;
//! - `LastingFile` (`lasting`): that file as lines are appended to it, which is cut back where that fails;
//! - `About`: the page beside a journal, which tells whose it is and was; `Takeover`: whether another may go on with
//!   it;
//! - `Told` (`telling`): how many lines and bytes a journal has;
//! - `find_snapshot`, `keep_snapshot` (`snapshots`): the file beside a journal that has a snapshot of its host;
//!   `find_base`: that which stands behind the lines that were trimmed away;
//! - `trim_journal` (`trimming`): takes the lines of a journal away that a snapshot stands behind;
//! - `make_log` (`log_file`): the file of `run --log`, and `LogFile`, which tells that it fails;
//! - `Fitness` (`fitness`): why a file must not be written to.
//!
//! No clause says what a file holds: these are read, and tested against faults that are planted (`tests/journal`,
//! `tests/power`). What a reader that journals promises of a file that keeps its word is proved in `durable`.
#![tactic(auto)]

mod about;
mod descriptors;
mod fitness;
mod lasting;
mod log_file;
mod opening;
mod place;
mod replacing;
mod snapshots;
mod tail;
mod telling;
mod trimming;

pub use about::{About, Earlier, Maker, Owner};
pub use descriptors::fill_descriptors;
pub use fitness::{Unfit, why_unfit};
pub use lasting::{LastingFile, Standing};
pub use log_file::{LogFile, make_log};
pub use opening::{JournalFile, LockedJournal, Takeover, lock_journal, open_journal};
pub use snapshots::{
    FoundSnapshot, Misfit, Stand, find_base, find_snapshot, has_snapshot, keep_snapshot,
};
pub use telling::{Told, read_journal, tell_journal};
pub use trimming::trim_journal;
