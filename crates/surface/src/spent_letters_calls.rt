use model::{NoMemory, Unit};
use spent_letters::{HEAD, SpentLetter, SpentLetters};
use std::alloc::Global;
use std::test::Fail;

fn from_to(source: u8, receiver: u8) -> SpentLetter {
    SpentLetter {
        source: Unit::new(source),
        receiver: Unit::new(receiver),
    }
}

/// Adds so many letters that go from one of two units to the other and back.
fn go_to_and_fro(letters: &mut SpentLetters, count: usize) -> Result<(), NoMemory> {
    for number in 0..count {
        let letter = if number % 2 == 0 {
            from_to(0, 1)
        } else {
            from_to(1, 0)
        };
        letters.push(letter)?;
    }
    Ok(())
}

/// The letter of this number, if there is one.
fn found(letters: &SpentLetters, number: usize) -> Option<SpentLetter> {
    if number < letters.len() {
        Some(letters.at(number))
    } else {
        None
    }
}

/// How many letters follow the first ones of each stretch, of which there are so many.
fn more_in(letters: &SpentLetters, stretches: usize) -> Option<usize> {
    let all = letters.stretches();
    if all.len() != stretches {
        return None;
    }
    let mut more = 0usize;
    for stretch in all {
        if stretch.head().len() != HEAD {
            return None;
        }
        more = more.saturating_add(stretch.more());
    }
    Some(more)
}

/// Whether a thousand letters are one stretch, and each of them is found.
fn are_one_stretch(letters: &SpentLetters) -> bool {
    more_in(letters, 1) == Some(1000 - HEAD)
        && letters.tail().is_empty()
        && found(letters, 998) == Some(from_to(0, 1))
        && found(letters, 999) == Some(from_to(1, 0))
        && found(letters, 1000).is_none()
}

/// Whether one letter that doesn't follow stands behind them by itself.
fn stands_apart(letters: &SpentLetters) -> bool {
    more_in(letters, 1) == Some(1000 - HEAD)
        && letters.tail() == [from_to(2, 2)].as_slice()
        && found(letters, 1000) == Some(from_to(2, 2))
}

/// Adds the stretches of the one list to the other, and tells whether each was one.
fn put_stretches(
    alloc: Global,
    from: &SpentLetters,
    to: &mut SpentLetters,
) -> Result<bool, NoMemory> {
    for stretch in from.stretches() {
        let mut head = Vec::new(alloc);
        head.extend_from_slice(stretch.head())?;
        if !to.push_stretch(head, stretch.more())? {
            return Ok(false);
        }
    }
    Ok(true)
}

// Letters that repeat are told by one stretch, one that doesn't follow stands behind it, and a list of the same
// stretches is the same list.
#[test]
fn packs_letters_that_repeat(rt: HostRuntime) -> Result<(), Fail> {
    let alloc = rt.alloc();
    let mut letters = SpentLetters::new(alloc);
    go_to_and_fro(&mut letters, 1000)?;
    assert!(rt; are_one_stretch(&letters));
    let mut copied = SpentLetters::new(alloc);
    assert!(rt; put_stretches(alloc, &letters, &mut copied)?);
    assert!(rt; are_one_stretch(&copied));
    letters.push(from_to(2, 2))?;
    assert!(rt; stands_apart(&letters));
    Ok(())
}

// A stretch that the last one would have gone on with is none of a packed list, and neither is one that is short.
#[test]
fn refuses_what_is_not_packed(rt: HostRuntime) -> Result<(), Fail> {
    let alloc = rt.alloc();
    let mut letters = SpentLetters::new(alloc);
    go_to_and_fro(&mut letters, 1000)?;
    let mut again = SpentLetters::new(alloc);
    go_to_and_fro(&mut again, 1000)?;
    assert!(rt; !put_stretches(alloc, &again, &mut letters)?);
    assert!(rt; !letters.push_stretch(Vec::new(alloc), 7)?);
    assert!(rt; are_one_stretch(&letters));
    Ok(())
}
