//! Callers of the small crates, each of some ten lines: what the first page of a crate shows stands here, and is
//! proved.

ghost use Rattle.std.specs.Prelude.{◌≡◌, ◌++◌, ◌∷◌, ◌<◌, ◌≤◌, ◌&&◌, [], IfOk, IsTrue, OnErr, length, not, slice_set};
ghost use Rattle.std.specs.Prelude.{take};
ghost use Rattle.std.specs.Option.{option_map_or};
ghost use Rattle.checkpoint.specs.Shelves.{nearest_of};
ghost use Rattle.depvector.specs.Vectors.{joined};
ghost use Rattle.orphan.specs.Tests.{is_blind_by, is_orphan_by};
ghost use Rattle.output_commit.specs.Holds.{line_texts};
ghost use Rattle.session.specs.Counts.{advanced};

use checkpoint::Shelf;
use depvector::DepVector;
use incarnation::StartTable;
use model::{MAX_INCARNATION, Mark, NoMemory, Record, Row, Source, Unit};
use orphan::{is_blind, is_orphan};
use output_commit::{Hold, Outlet, StableView};
use session::{Arrival, Sessions};
use stable_log::{SharedLog, Store, StoreFault};
use volatile_log::VolatileLog;

/// The vector of an interval that comes after one with `before` and takes a letter of one with `sent`.
#[tactic(auto, using(depvector::proofs::Joins::joins))]
pub fn vector_of_receipt(
    mut before: DepVector,
    sent: &DepVector,
    unit: Unit,
    mark: Mark,
) -> DepVector
    requires entries { length sent.now ≤ length before }
    requires own { unit < length before }
    ensures { result ≡ slice_set (joined before sent.now) unit mark }
{
    before.join(sent);
    before.set_own(unit, mark);
    before
}

/// Counts a receipt if it is the next of its session, and tells whether it was.
pub fn take_next(sessions: &mut Sessions, source: Source, number: u64) -> bool
    ensures { IsTrue result → sessions.new ≡ advanced sessions.old source }
{
    if !matches!(sessions.test(source, number), Arrival::Next) || !sessions.has_room(source, 0) {
        return false;
    }
    sessions.advance(source);
    true
}

/// Keeps a record until it is logged.
pub fn keep(unlogged: &mut VolatileLog, logged: Record) -> Result<(), NoMemory>
    ensures ok { IfOk result (λ _. unlogged.new.records ≡ unlogged.old.records ++ logged ∷ []) }
    ensures err { OnErr result (unlogged.new.records ≡ unlogged.old.records) }
{
    unlogged.reserve(1)?;
    unlogged.push(logged);
    Ok(())
}

/// Logs a record, and reads it back from the store.
pub fn log_and_read<S: Store>(
    log: &mut SharedLog<S>,
    logged: &Record,
) -> Result<Option<Record>, StoreFault> {
    log.append(logged)?;
    let Some(place) = log.of(&logged.tenant, logged.unit).last().copied() else {
        return Ok(None);
    };
    Ok(Some(log.fetch(place)?))
}

/// The index of the snapshot from which a unit goes back to `target`, or 0: its beginning.
pub fn restart_index<S: Drop>(shelf: &Shelf<S>, target: u32) -> u32
    ensures { result ≡ option_map_or (λ x. x.index) (nearest_of shelf.now target) 0 }
{
    match shelf.nearest(target) {
        Some(snapshot) => snapshot.index,
        None => 0,
    }
}

/// Begins a unit's next incarnation at this length of its path, where it has one left.
pub fn begin_next(table: &mut StartTable, unit: Unit, start: u64) -> Result<bool, NoMemory> {
    let latest = table.latest(unit);
    if latest >= MAX_INCARNATION {
        return Ok(false);
    }
    let incarnation = latest + 1;
    table.append(Row {
        unit,
        incarnation,
        start,
    })?;
    Ok(true)
}

/// Whether a letter with this vector may be taken by a unit that knows so many rows.
pub fn may_be_taken(vector: &DepVector, table: &StartTable, known: usize) -> bool
    ensures { result ≡ (not (is_blind_by (take known table.now) vector.now)
        && not (is_orphan_by (take known table.now) vector.now)) }
{
    !is_blind(vector, table, known) && !is_orphan(vector, table, known)
}

/// Lets the first output of a hold out, if it is firm, and tells whether it did. Nothing is lost where it can't
/// leave.
pub fn release_first(hold: &mut Hold, outlet: &mut Outlet, view: &StableView) -> bool
    requires unit { hold.old.unit < length outlet.old }
    requires front { hold.old.unit < length view.now.frontiers.now }
    ensures { IsTrue result → length outlet.new ≡ length outlet.old }
{
    let Some(ticket) = hold.take_front(view) else {
        return false;
    };
    match outlet.emit(ticket) {
        Ok(()) => true,
        Err(ticket) => {
            hold.put_back(ticket);
            false
        }
    }
}
