//! What a record says, before it is made.

use depvector::SharedVector;
use model::{Letter, Mark, Source, Text, Unit};

/// What the record of a receipt says beside its tenant. The record is made of it at its place among the volatile ones,
/// so that no record is moved there.
#[derive(Drop)]
pub struct RecordDraft {
    pub unit: Unit,
    pub mark: Mark,
    pub source: Source,
    pub letter: Option<Letter>,
    pub number: u64,
    pub text: Text,
    pub vector: SharedVector,
}
