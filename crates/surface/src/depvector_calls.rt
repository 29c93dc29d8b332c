ghost use Rattle.std.specs.Prelude.{◌≤◌, length};

use depvector::{DepVector, SharedVector};
use model::{Mark, Marks, NoMemory, Unit};
use std::alloc::Global;
use std::test::Fail;

fn mark(incarnation: u32, index: u32) -> Mark {
    Mark { incarnation, index }
}

fn new(alloc: Global, units: u8) -> Result<DepVector, NoMemory> {
    DepVector::new(alloc, usize::from(units))
}

fn at(vector: &DepVector, unit: u8) -> Mark {
    vector.get(Unit::new(unit))
}

/// Sets the mark of a unit that has an entry.
fn set(vector: &mut DepVector, unit: u8, mark: Mark) {
    if usize::from(unit) < vector.len() {
        vector.set_own(Unit::new(unit), mark);
    }
}

/// Joins a vector that isn't longer.
fn join(own: &mut DepVector, other: &DepVector) {
    if other.len() <= own.len() {
        own.join(other);
    }
}

fn set_both(vector: &mut DepVector, first: Mark, second: Mark) {
    set(vector, 0, first);
    set(vector, 1, second);
}

#[test]
fn joins_by_incarnation_first(rt: HostRuntime) -> Result<(), Fail> {
    let mut own = new(rt.alloc(), 2)?;
    let mut other = new(rt.alloc(), 2)?;
    assert!(rt; own.len() == 2 && other.len() == 2);
    set_both(&mut own, mark(0, 9), mark(1, 3));
    set_both(&mut other, mark(1, 1), mark(1, 2));
    join(&mut own, &other);
    assert_eq!(rt; at(&own, 0), mark(1, 1));
    assert_eq!(rt; at(&own, 1), mark(1, 3));
    Ok(())
}

fn widen(vector: &mut DepVector, units: u8) -> Result<(), NoMemory> {
    vector.widen(usize::from(units))
}

fn copy(vector: &DepVector) -> Result<DepVector, NoMemory> {
    vector.copy()
}

/// Whether a vector of one entry has none for unit 2 until it is widened.
fn is_widened(vector: &mut DepVector) -> Result<bool, NoMemory> {
    let had_none = at(vector, 2) == mark(0, 0);
    widen(vector, 3)?;
    Ok(had_none && vector.len() == 3)
}

/// Whether a copy is equal.
fn is_copied(vector: &DepVector) -> Result<bool, NoMemory> {
    let copied = copy(vector)?;
    Ok(copied.as_slice() == vector.as_slice())
}

#[test]
fn widens_and_copies(rt: HostRuntime) -> Result<(), Fail> {
    let mut vector = new(rt.alloc(), 1)?;
    assert!(rt; is_widened(&mut vector)?);
    set(&mut vector, 2, mark(0, 4));
    assert!(rt; is_copied(&vector)?);
    Ok(())
}

/// The vector of a list of two equal marks.
fn of_list(alloc: Global, mark: Mark) -> Result<DepVector, NoMemory> {
    let marks = vec![in alloc; mark; 2]?;
    Ok(DepVector::from_marks(marks))
}

#[test]
fn is_made_of_a_list(rt: HostRuntime) -> Result<(), Fail> {
    let back = of_list(rt.alloc(), mark(2, 1))?;
    assert_eq!(rt; at(&back, 1), mark(2, 1));
    Ok(())
}

/// These marks, shared, copied, and recorded.
fn recorded(alloc: Global, marks: &[Mark]) -> Result<Marks, NoMemory>
    requires { length marks.now ≤ 256 }
{
    let shared = DepVector::of(alloc, marks)?.into_shared(alloc)?;
    Ok(shared.copy(alloc)?.into_marks())
}

/// A vector read from what was recorded.
fn read(alloc: Global, recorded: &Marks) -> Result<SharedVector, NoMemory> {
    if recorded.as_slice().len() > 256 {
        return Err(NoMemory);
    }
    SharedVector::of(alloc, recorded)
}

fn to_own(alloc: Global, read: &SharedVector) -> Result<DepVector, NoMemory> {
    DepVector::of(alloc, read.as_slice())
}

/// Whether marks stay what they are where a vector of them is shared, recorded, read and gone on from.
fn stay(alloc: Global, marks: &[Mark]) -> Result<bool, NoMemory>
    requires { length marks.now ≤ 256 }
{
    let recorded = recorded(alloc, marks)?;
    let read = read(alloc, &recorded)?;
    let own = to_own(alloc, &read)?;
    let are_same = recorded.as_slice() == marks && own.as_slice() == marks;
    Ok(are_same && read.get(Unit::new(255)) == mark(0, 0))
}

// Fewer marks than lie in the value, as many, and more.
#[test]
fn shares_and_goes_on(rt: HostRuntime) -> Result<(), Fail> {
    let alloc = rt.alloc();
    assert!(rt; stay(alloc, &[])?);
    assert!(rt; stay(alloc, &[mark(2, 7)])?);
    assert!(rt; stay(alloc, &[mark(2, 7), mark(0, 1)])?);
    assert!(rt; stay(alloc, &[mark(2, 7), mark(0, 1), mark(1, 0)])?);
    assert!(rt; stay(alloc, &[mark(2, 7), mark(0, 1), mark(1, 0), mark(0, 3)])?);
    assert!(rt;
        stay(
            alloc,
            &[mark(2, 7), mark(0, 1), mark(1, 0), mark(0, 3), mark(4, 4)]
        )?
    );
    assert!(rt; stay(alloc, &[mark(3, 5); 16])?);
    Ok(())
}
