use incarnation::StartTable;
use model::{MAX_INCARNATION, Mark, NoMemory, Row, Unit};
use std::alloc::Global;
use std::test::Fail;

fn row(unit: u8, incarnation: u32, start: u64) -> Row {
    Row {
        unit: Unit::new(unit),
        incarnation,
        start,
    }
}

/// Appends the unit's next row.
fn restart(table: &mut StartTable, unit: u8, start: u64) -> Result<(), NoMemory> {
    let unit = Unit::new(unit);
    let latest = table.latest(unit);
    if latest < MAX_INCARNATION {
        table.append(Row {
            unit,
            incarnation: latest + 1,
            start,
        })?;
    }
    Ok(())
}

fn latest(table: &StartTable, unit: u8) -> u32 {
    table.latest(Unit::new(unit))
}

fn tells_of(table: &StartTable, known: usize, unit: Unit, mark: Mark) -> bool {
    table.tells_of(known, unit, mark)
}

fn loses(table: &StartTable, known: usize, unit: Unit, mark: Mark) -> bool {
    table.loses(known, unit, mark)
}

fn incarnation_at(table: &StartTable, unit: u8, index: u32) -> u32 {
    table.incarnation_at(Unit::new(unit), index)
}

/// Whether each of three rows is its unit's latest once it is appended.
fn counts_incarnations(table: &mut StartTable) -> Result<bool, NoMemory> {
    let at_first = latest(table, 2) == 0;
    restart(table, 2, 7)?;
    let at_second = latest(table, 2) == 1 && latest(table, 0) == 0;
    restart(table, 0, 3)?;
    let at_third = latest(table, 2) == 1;
    restart(table, 2, 4)?;
    Ok(at_first && at_second && at_third && table.len() == 3)
}

/// Whether the first two rows, and those of unit 2, are these.
fn lists_rows(table: &StartTable) -> bool {
    table.known(2) == [row(2, 1, 7), row(0, 1, 3)].as_slice()
        && table.rows_of(Unit::new(2)) == [row(2, 1, 7), row(2, 2, 4)].as_slice()
}

/// Whether the third row tells of its own incarnation, and loses an interval of the first.
fn knows_three(table: &StartTable) -> bool {
    let unit = Unit::new(2);
    let second = Mark {
        incarnation: 2,
        index: 9,
    };
    let mark = Mark {
        incarnation: 1,
        index: 4,
    };
    tells_of(table, 3, unit, second)
        && !tells_of(table, 2, unit, second)
        && loses(table, 3, unit, mark)
        && !loses(table, 2, unit, mark)
}

/// A table of three rows, where they are its units' latest.
fn three_rows(alloc: Global) -> Result<Option<StartTable>, NoMemory> {
    let mut table = StartTable::new(alloc);
    let are_counted = counts_incarnations(&mut table)?;
    Ok(if are_counted { Some(table) } else { None })
}

#[test]
fn looks_up_rows(rt: HostRuntime) -> Result<(), Fail> {
    let table = three_rows(rt.alloc())?.ok_or("incarnations are not counted")?;
    assert!(rt; lists_rows(&table));
    assert_eq!(rt; incarnation_at(&table, 2, 6), 2);
    assert_eq!(rt; incarnation_at(&table, 2, 3), 0);
    assert!(rt; knows_three(&table));
    Ok(())
}

#[test]
fn finds_a_low_start_behind_many_high_ones(rt: HostRuntime) -> Result<(), Fail> {
    let mut table = StartTable::new(rt.alloc());
    for _ in 0..5000u32 {
        restart(&mut table, 1, 9)?;
    }
    restart(&mut table, 1, 3)?;
    restart(&mut table, 1, 9)?;
    let unit = Unit::new(1);
    let low = Mark {
        incarnation: 7,
        index: 3,
    };
    let lower = Mark {
        incarnation: 7,
        index: 2,
    };
    let later = Mark {
        incarnation: 5001,
        index: 3,
    };
    assert!(rt; loses(&table, 5001, unit, low) && !loses(&table, 5000, unit, low));
    assert!(rt; !loses(&table, 5002, unit, lower) && !loses(&table, 5002, unit, later));
    Ok(())
}
