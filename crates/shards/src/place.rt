//! Where a line is answered.

use lines::LineFault;

/// Where a line is answered.
#[derive(Clone, Copy, PartialEq, Eq)]
pub(crate) enum Place {
    /// Beside the shards, since it gave no step.
    Here(LineFault),
    /// By the shard of this number, next in its turn.
    Dealt(usize),
}
