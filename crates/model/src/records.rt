//! The records that a store is given.

ghost use Rattle.std.specs.Prelude.{◌≡◌, IfOk};

use crate::fault::NoMemory;
use crate::marks::Marks;
use crate::names::{Letter, Mark, Source, Unit};
use crate::text::{TenantName, Text};
use std::alloc::Global;

/// The record of one interval: its receipt, its mark and its dependency vector, which has an entry
/// for each unit that the tenant had when the interval was made.
#[derive(Debug, Drop)]
pub struct Record {
    pub tenant: TenantName,
    pub unit: Unit,
    pub mark: Mark,
    pub source: Source,
    pub letter: Option<Letter>,
    pub number: u64,
    pub text: Text,
    pub vector: Marks,
}

impl Record {
    /// An equal record.
    #[inline(always)]
    pub fn copy(&self, alloc: Global) -> Result<Record, NoMemory>
        ensures { IfOk result (λ r. r ≡ self.now) }
    {
        let tenant = self.tenant.copy();
        let text = self.text.copy()?;
        let vector = self.vector.copy(alloc)?;
        Ok(Record {
            tenant,
            unit: self.unit,
            mark: self.mark,
            source: self.source,
            letter: self.letter,
            number: self.number,
            text,
            vector,
        })
    }
}
