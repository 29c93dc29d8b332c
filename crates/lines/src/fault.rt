//! Why serving ended early.

use thiserror::Error;

/// Why serving ended early.
#[derive(Clone, Copy, Debug, PartialEq, Eq, Error)]
pub enum ServeFault {
    /// The reader failed.
    #[error("the input can't be read")]
    Read,
    /// The writer failed.
    #[error("the output can't be written")]
    Write,
    /// A growth was refused.
    #[error("no memory")]
    NoMemory,
}
