//! What the runtime speaks of: units, marks, steps, replies and histories.
//!
//! The types are plain data, declared once: the contracts of all crates name these very types.
//! What they mean is defined in `specs/`: the graph of state intervals (`Nodes`), the world of one
//! tenant (`World`), what each step answers and leaves (`Steps`), a tenant alone (`Alone`), runs
//! without failures (`FailureFree`), histories of all tenants (`History`), the records that a store
//! is given (`Records`), what is kept of a tenant's past (`Keeping`) and the sample handler (`Sample`). The worked
//! examples are computed in `proofs/Rows`. `proofs/Places` has small lemmas that the crates above share.
#![tactic(auto)]

mod addressed;
mod fault;
mod kept;
mod limits;
mod marks;
mod moves;
mod names;
mod records;
mod refusals;
mod replies;
mod short_list;
mod steps;
mod text;

pub use addressed::AddressedStep;
pub use fault::NoMemory;
pub use kept::Kept;
pub use limits::{
    MAX_CHECKPOINTS, MAX_FEEDS, MAX_HELD_QUOTA, MAX_INCARNATION, MAX_INDEX, MAX_LETTERS_QUOTA,
    MAX_LINE_BYTES, MAX_NAME_BYTES, MAX_OPTIMISM, MAX_TEXT_BYTES, MAX_TURN_EFFECTS, MAX_UNITS,
    MAX_VOLATILE_QUOTA,
};
pub use marks::{MAX_INLINE_MARKS, Marks};
pub use moves::{Flaw, Move};
pub use names::{Kind, Letter, Mark, Quota, Row, Seat, Source, Start, Unit};
pub use records::Record;
pub use refusals::Refusal;
pub use replies::{End, Entry, Reply, Said, Who};
pub use short_list::ShortList;
pub use steps::{Step, TenantStep};
pub use text::{Letters, TenantName, Text, Texts};
