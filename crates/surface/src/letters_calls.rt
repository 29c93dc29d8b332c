ghost use Rattle.std.specs.Prelude.{◌≤◌, length};

use model::{Letter, Letters, NoMemory};
use std::alloc::Global;
use std::test::Fail;

/// Whether these letters, which begin with 7 and rise, are those that are made by their count, and stay what they are
/// where they are copied.
fn rise_from_seven(alloc: Global, letters: &[Letter]) -> Result<bool, NoMemory>
    requires { length letters.now ≤ 8 }
{
    let made = Letters::from_first(alloc, 7, letters.len())?;
    Ok(made.as_slice() == letters && copy_is(alloc, &made, letters)? && are_own(alloc, letters)?)
}

/// Whether the copy of letters is these.
fn copy_is(alloc: Global, made: &Letters, letters: &[Letter]) -> Result<bool, NoMemory> {
    let copied = made.copy(alloc)?;
    Ok(copied.as_slice() == letters)
}

/// Whether a list of these letters has them.
fn are_own(alloc: Global, letters: &[Letter]) -> Result<bool, NoMemory> {
    let own = Letters::of(alloc, letters)?;
    Ok(own.as_slice() == letters)
}

fn at(number: u32) -> Letter {
    Letter::new(number)
}

// Fewer letters than lie in the value, as many, and more.
#[test]
fn makes_and_copies_letters(rt: HostRuntime) -> Result<(), Fail> {
    let alloc = rt.alloc();
    assert!(rt; rise_from_seven(alloc, &[])?);
    assert!(rt; rise_from_seven(alloc, &[at(7)])?);
    assert!(rt; rise_from_seven(alloc, &[at(7), at(8)])?);
    assert!(rt; rise_from_seven(alloc, &[at(7), at(8), at(9)])?);
    assert!(rt; rise_from_seven(alloc, &[at(7), at(8), at(9), at(10)])?);
    assert!(rt; rise_from_seven(alloc, &[at(7), at(8), at(9), at(10), at(11)])?);
    Ok(())
}
