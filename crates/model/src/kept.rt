//! How much a tenant keeps of a unit's past.

/// How much is kept of a unit's past. What lies at or below its greatest firm checkpoint, its base, is given up.
#[derive(Clone, Copy, Debug, PartialEq, Eq)]
pub struct Kept {
    /// The live records: those of its stable intervals behind the base.
    pub records: u64,
    /// Its checkpoints, the base among them. At most 65.
    pub shelved: u64,
    /// The letters to it whose texts are kept: those that no interval up to the base received.
    pub letters: u64,
}
