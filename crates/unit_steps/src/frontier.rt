//! How far a path is firm.

ghost use Rattle.std.specs.Prelude.{◌≡◌, ◌<◌, ◌≤◌, ◌-◌, Some, length, slice_get};
ghost use Rattle.compact.specs.Laws.{is_firm_by};
ghost use Rattle.rollback.specs.Units.{places};
ghost use Rattle.compact.specs.Compact.{Interval as IntervalOf};
ghost use Rattle.unit_steps.specs.Receipts.{frontier_of, IsFrontier, NoLonger};

use depvector::SharedVector;
use handler::Handler;
use incarnation::StartTable;
use orphan::any_unstable;
use rollback::RecoveryUnit;

/// Whether all that an interval of this vector depends on is stable. A vector of more units than there are is not firm.
fn is_firm(table: &StartTable, stable_lengths: &[u64], vector: &SharedVector) -> bool
    ensures { length vector.now ≤ length stable_lengths.now
        → result ≡ is_firm_by table.now stable_lengths.now vector.now }
{
    let marks = vector.as_slice();
    marks.len() <= stable_lengths.len() && !any_unstable(marks, table, stable_lengths)
}

/// Whether the interval at this index is firm.
fn is_firm_at<H: Handler>(
    table: &StartTable,
    stable_lengths: &[u64],
    unit_state: &RecoveryUnit<H>,
    index: u32,
) -> bool
    requires base { unit_state.now.base ≤ index }
    requires path { index < places unit_state.now }
    ensures { NoLonger (length stable_lengths.now) unit_state.now.intervals → (x : IntervalOf)
        → slice_get unit_state.now.intervals (index - unit_state.now.base) ≡ Some x
        → result ≡ is_firm_by table.now stable_lengths.now x.vector }
{
    let interval = unit_state.interval(index);
    is_firm(table, stable_lengths, &interval.vector)
}

/// How many intervals at the front of a path are firm, where so many were before the last flush. Takes no memory, and
/// time by the intervals that became firm.
pub fn frontier_after<H: Handler>(
    table: &StartTable,
    stable_lengths: &[u64],
    unit_state: &RecoveryUnit<H>,
    frontier: u64,
) -> u64
    ensures { IsFrontier (length stable_lengths.now) unit_state.now frontier
        → result ≡ frontier_of table.now stable_lengths.now unit_state.now frontier }
{
    if frontier < u64::from(unit_state.base()) {
        return frontier;
    }
    let last = u64::from(unit_state.last_index());
    let mut firm = frontier;
    while firm <= last && is_firm_at(table, stable_lengths, unit_state, firm as u32) {
        firm += 1;
    }
    firm
}
