//! How a step came out whose turn was worked elsewhere.

use model::{Reply, Step};

/// How a step came out whose turn was worked elsewhere.
#[derive(Debug, Drop)]
pub enum Committed {
    /// The step now needs a turn of another input. It is given back, and nothing has changed.
    Stale(Step),
    /// The step was done, or there was no memory for it, and has this reply.
    Reply(Reply),
}
