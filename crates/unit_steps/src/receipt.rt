//! The mark and the vector of the interval that a receipt makes.

ghost use Rattle.std.specs.Prelude.{◌≡◌, ◌<◌, ◌^◌, IfOk};
ghost use Rattle.rollback.specs.Units.{places};
ghost use Rattle.unit_steps.specs.Receipts.{mark_upon as mark_upon_of, vector_marked};

use depvector::{DepVector, SharedVector};
use handler::Handler;
use incarnation::StartTable;
use model::{Mark, NoMemory, Unit};
use rollback::RecoveryUnit;
use std::alloc::Global;

/// The mark of the interval that a receipt makes, where the path isn't full.
pub fn mark_upon<H: Handler>(table: &StartTable, unit: Unit, unit_state: &RecoveryUnit<H>) -> Mark
    ensures { places unit_state.now < 2 ^ 32 → result ≡ mark_upon_of table.now unit unit_state.now }
{
    Mark {
        incarnation: table.latest(unit),
        index: unit_state.last_index().saturating_add(1),
    }
}

/// The vector of the interval that a receipt makes, where this is its mark: the last one, with an entry for each unit,
/// joined with the letter's as far as it has entries, and its own mark set.
///
/// # Errors
///
/// `NoMemory` where the vector finds no memory, or there are more units than a vector has entries.
pub fn vector_upon<H: Handler>(
    alloc: Global,
    width: usize,
    unit: Unit,
    unit_state: &RecoveryUnit<H>,
    mark: Mark,
    letter: &[Mark],
) -> Result<SharedVector, NoMemory>
    requires own { unit < width }
    ensures { IfOk result (λ v. v ≡ vector_marked width unit unit_state.now mark letter.now) }
{
    if width > 256 {
        return Err(NoMemory);
    }
    let last = unit_state.interval(unit_state.last_index());
    let mut vector = DepVector::of(alloc, last.vector.as_slice())?;
    vector.widen(width)?;
    let known = letter.len().min(vector.len());
    vector.join_marks(&letter[..known]);
    vector.set_own(unit, mark);
    vector.into_shared(alloc)
}
