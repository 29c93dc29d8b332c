use crate::callers::take_next;
use model::{NoMemory, Source, Unit};
use session::{Arrival, Sessions};
use std::alloc::Global;
use std::test::Fail;

fn new(alloc: Global, units: usize) -> Result<Sessions, NoMemory> {
    Sessions::new(alloc, units)
}

fn test(sessions: &Sessions, source: Source, number: u64) -> Arrival {
    sessions.test(source, number)
}

fn taken(sessions: &Sessions, source: Source) -> u64 {
    sessions.taken(source)
}

fn has_room(sessions: &Sessions, source: Source) -> bool {
    sessions.has_room(source, 1)
}

/// Counts the first receipt of a source, and tells whether it was the next.
fn takes_first(sessions: &mut Sessions, source: Source) -> bool {
    take_next(sessions, source, 0)
}

fn number_to(sessions: &Sessions, to: u8) -> u64 {
    sessions.number_to(Unit::new(to))
}

fn copy(sessions: &Sessions) -> Result<Sessions, NoMemory> {
    sessions.copy()
}

fn widen(sessions: &mut Sessions, units: usize) -> Result<(), NoMemory> {
    sessions.widen(units)
}

fn unit_1() -> Source {
    Source::Unit(Unit::new(1))
}

fn unit_2() -> Source {
    Source::Unit(Unit::new(2))
}

#[test]
fn tells_next_from_repeat_and_gap(rt: HostRuntime) -> Result<(), Fail> {
    let mut sessions = new(rt.alloc(), 2)?;
    let from = unit_1();
    assert!(rt; sessions.len() == 2 && taken(&sessions, from) == 0);
    assert!(rt; has_room(&sessions, from) && !has_room(&sessions, unit_2()));
    assert!(rt; takes_first(&mut sessions, from));
    assert_eq!(rt; test(&sessions, from, 0), Arrival::Repeat);
    assert_eq!(rt; test(&sessions, from, 1), Arrival::Next);
    assert_eq!(rt; test(&sessions, from, 2), Arrival::Gap);
    assert_eq!(rt; test(&sessions, Source::Outside, 0), Arrival::Next);
    Ok(())
}

/// The counts of a unit in a tenant of three, which sent one letter to unit 2.
fn one_sent(alloc: Global) -> Result<Sessions, NoMemory> {
    let mut sessions = Sessions::new(alloc, 1)?;
    sessions.widen(3)?;
    sessions.sent(Unit::new(2));
    Ok(sessions)
}

#[test]
fn numbers_letters_and_widens(rt: HostRuntime) -> Result<(), Fail> {
    let mut sessions = new(rt.alloc(), 1)?;
    assert!(rt; number_to(&sessions, 2) == 0);
    widen(&mut sessions, 3)?;
    assert!(rt; sessions.len() == 3 && number_to(&sessions, 2) == 0);
    let copied = copy(&one_sent(rt.alloc())?)?;
    assert_eq!(rt; number_to(&copied, 2), 1);
    Ok(())
}

/// Goes back to a snapshot of counts that are no wider.
fn cut(sessions: &mut Sessions, snapshot: &Sessions) {
    if snapshot.len() <= sessions.len() {
        sessions.cut(snapshot);
    }
}

/// Whether neither unit 1 nor the outside was taken from.
fn are_none(sessions: &Sessions) -> bool {
    test(sessions, unit_1(), 0) == Arrival::Next
        && test(sessions, Source::Outside, 0) == Arrival::Next
        && sessions.len() == 2
}

#[test]
fn goes_back_to_a_snapshot(rt: HostRuntime) -> Result<(), Fail> {
    let mut sessions = new(rt.alloc(), 1)?;
    let snapshot = copy(&sessions)?;
    widen(&mut sessions, 2)?;
    assert!(rt; taken(&sessions, unit_1()) == 0 && taken(&sessions, Source::Outside) == 0);
    assert!(rt; takes_first(&mut sessions, unit_1()));
    assert!(rt; takes_first(&mut sessions, Source::Outside));
    cut(&mut sessions, &snapshot);
    assert!(rt; are_none(&sessions));
    Ok(())
}
