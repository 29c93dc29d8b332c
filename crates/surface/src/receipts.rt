//! Records for the logs.

use model::{Letter, Mark, Marks, NoMemory, Record, Source, TenantName, Text, Unit};
use std::alloc::Global;

/// The receipt of "x" by a tenant's unit. Its mark is the first of its vector.
pub(crate) fn receipt(
    alloc: Global,
    tenant: &str,
    unit: u8,
    source: Source,
    letter: Option<Letter>,
    number: u64,
    vector: &[Mark],
) -> Result<Record, NoMemory> {
    let tenant = TenantName::new(tenant).ok_or(NoMemory)?;
    let mark = *vector.first().ok_or(NoMemory)?;
    Ok(Record {
        tenant,
        unit: Unit::new(unit),
        mark,
        source,
        letter,
        number,
        text: Text::of(alloc, "x")?,
        vector: Marks::of(alloc, vector)?,
    })
}
