use depvector::DepVector;
use incarnation::StartTable;
use model::{Mark, NoMemory, Row, Unit};
use orphan::{any_blind, any_unstable, first_orphan, is_blind, is_orphan, unstable_units};
use std::alloc::Global;
use std::test::Fail;

/// The vector of a tenant of one unit.
fn vector(alloc: Global, incarnation: u32, index: u32) -> Result<DepVector, NoMemory> {
    DepVector::of(alloc, &[Mark { incarnation, index }])
}

/// A table with one row: the unit's first incarnation begins at 2.
fn one_row(alloc: Global) -> Result<StartTable, NoMemory> {
    let mut table = StartTable::new(alloc);
    if table.latest(Unit::new(0)) == 0 {
        table.append(Row {
            unit: Unit::new(0),
            incarnation: 1,
            start: 2,
        })?;
    }
    Ok(table)
}

fn lost(vector: &DepVector, table: &StartTable, known: usize) -> bool {
    is_orphan(vector, table, known)
}

fn blind(vector: &DepVector, table: &StartTable, known: usize) -> bool {
    is_blind(vector, table, known)
}

/// How many units are unstable where the unit's stable records have this length; none where there are more units.
fn unstable(vector: &DepVector, table: &StartTable, length: u64) -> Option<u32> {
    if vector.len() > 1 {
        return None;
    }
    Some(unstable_units(vector, table, &[length]))
}

/// Whether a unit is unstable by marks alone, as above.
fn some_unstable(vector: &DepVector, table: &StartTable, length: u64) -> Option<bool> {
    let marks = vector.as_slice();
    if marks.len() > 1 {
        return None;
    }
    Some(any_unstable(marks, table, &[length]))
}

/// Whether a unit is blind by marks alone, as above.
fn some_blind(vector: &DepVector, table: &StartTable) -> Option<bool> {
    let marks = vector.as_slice();
    if marks.len() > 1 {
        return None;
    }
    Some(any_blind(marks, table, 0))
}

/// Whether what the row cuts off is lost by it, and not before it is known.
fn is_lost_once_known(alloc: Global, table: &StartTable) -> Result<bool, NoMemory> {
    let later = vector(alloc, 0, 2)?;
    Ok(lost(&later, table, 1) && !lost(&later, table, 0))
}

fn is_kept(alloc: Global, table: &StartTable) -> Result<bool, NoMemory> {
    let kept = vector(alloc, 0, 1)?;
    Ok(!lost(&kept, table, 1))
}

#[test]
fn tests_for_orphans(rt: HostRuntime) -> Result<(), Fail> {
    let table = one_row(rt.alloc())?;
    assert!(rt; is_lost_once_known(rt.alloc(), &table)?);
    assert!(rt; is_kept(rt.alloc(), &table)?);
    Ok(())
}

#[test]
fn tests_for_the_blind(rt: HostRuntime) -> Result<(), Fail> {
    let table = one_row(rt.alloc())?;
    let new = vector(rt.alloc(), 1, 2)?;
    assert!(rt; blind(&new, &table, 0) && !blind(&new, &table, 1));
    Ok(())
}

/// Whether what is lost is unstable, though its record is stable.
fn is_unstable_as_lost(alloc: Global, table: &StartTable) -> Result<bool, NoMemory> {
    let later = vector(alloc, 0, 2)?;
    Ok(unstable(&later, table, 3) == Some(1) && some_unstable(&later, table, 3) == Some(true))
}

fn is_stable_below_the_length(alloc: Global, table: &StartTable) -> Result<bool, NoMemory> {
    let new = vector(alloc, 1, 2)?;
    Ok(
        unstable(&new, table, 2) == Some(1)
            && unstable(&new, table, 3) == Some(0)
            && some_unstable(&new, table, 3) == Some(false),
    )
}

#[test]
fn counts_the_unstable(rt: HostRuntime) -> Result<(), Fail> {
    let table = one_row(rt.alloc())?;
    assert!(rt; is_unstable_as_lost(rt.alloc(), &table)?);
    assert!(rt; is_stable_below_the_length(rt.alloc(), &table)?);
    Ok(())
}

/// Whether an interval of the first incarnation isn't blind, and unstable just at the length.
fn is_told_by_the_length(alloc: Global, table: &StartTable) -> Result<bool, NoMemory> {
    let first = vector(alloc, 0, 2)?;
    Ok(
        some_blind(&first, table) == Some(false)
            && some_unstable(&first, table, 2) == Some(true)
            && some_unstable(&first, table, 3) == Some(false),
    )
}

/// Whether an interval of a later incarnation is blind.
fn is_blind_without_rows(alloc: Global, table: &StartTable) -> Result<bool, NoMemory> {
    let later = vector(alloc, 1, 0)?;
    Ok(some_blind(&later, table) == Some(true))
}

#[test]
fn tests_against_no_rows(rt: HostRuntime) -> Result<(), Fail> {
    let table = StartTable::new(rt.alloc());
    assert!(rt; is_told_by_the_length(rt.alloc(), &table)?);
    assert!(rt; is_blind_without_rows(rt.alloc(), &table)?);
    Ok(())
}

/// The first orphan of a path of two, where so many rows are known.
fn first_of(path: &[DepVector; 2], table: &StartTable, known: usize) -> Option<u32> {
    first_orphan(path, table, known)
}

/// Whether of two intervals the second is the first orphan, once the row is known.
fn is_second_of_two(alloc: Global, table: &StartTable) -> Result<bool, NoMemory> {
    let kept = vector(alloc, 0, 1)?;
    let lost = vector(alloc, 0, 2)?;
    let path = [kept, lost];
    Ok(first_of(&path, table, 1) == Some(1) && first_of(&path, table, 0).is_none())
}

#[test]
fn finds_the_first_orphan_of_a_path(rt: HostRuntime) -> Result<(), Fail> {
    let table = one_row(rt.alloc())?;
    assert!(rt; is_second_of_two(rt.alloc(), &table)?);
    Ok(())
}
