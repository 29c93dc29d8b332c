//! A list of letters, packed.

ghost use Rattle.std.specs.Prelude.{◌≡◌, ◌<◌, ◌≤◌, ◌+◌, ◌++◌, ◌∷◌, ◌^◌, [], ℕ, IfOk, OnErr, Some, length};
ghost use Rattle.std.specs.Prelude.{reverse, slice_get, if◌then◌else◌};
ghost use Rattle.spent_letters.specs.Stretches.{AreWhole, IsPacked, follows, grown, lengthened, letters_in, letters_of};
ghost use Rattle.spent_letters.specs.Stretches.{packed, pushed, put_apart, tells};

use crate::letter::SpentLetter;
use crate::search::stretch_of;
use crate::stretch::{HEAD, Stretch};
use model::NoMemory;
use std::alloc::Global;
use std::marker::Model;

/// So many letters there can be: a letter's number has 32 bits.
pub const MOST: usize = 4_294_967_296;

/// Letters whose contents are forgotten, in order. Those that go the same way again and again take no room.
#[derive(Drop)]
pub struct SpentLetters {
    stretches: Vec<Stretch>,
    tail: Vec<SpentLetter>,
    len: usize,
}

impl Model for SpentLetters {
    ghost use Rattle.std.specs.Prelude.{◌≡◌, ◌≤◌, List, length, reverse};
    ghost use Rattle.spent_letters.specs.Stretches.{IsPacked, letters_of};
    ghost use Rattle.spent_letters.specs.declared.letter.SpentLetter.{SpentLetter as LetterOf};
    ghost use Rattle.spent_letters.specs.declared.spent_letters.TheConstants.{MOST};

    ghost Value = { List LetterOf };

    ghost view = { λ s. letters_of (record { stretches = reverse s.stretches.items; tail = s.tail.items }) };

    ghost invariant = { λ s.
        IsPacked (record { stretches = reverse s.stretches.items; tail = s.tail.items })
        × (s.len ≡ length (letters_of (record { stretches = reverse s.stretches.items; tail = s.tail.items })))
        × (s.len ≤ MOST) };
}

impl SpentLetters {
    /// No letters.
    pub fn new(alloc: Global) -> SpentLetters
        ensures { result ≡ [] }
    {
        SpentLetters {
            stretches: Vec::new(alloc),
            tail: Vec::new(alloc),
            len: 0,
        }
    }

    /// How many there are.
    pub fn len(&self) -> usize
        ensures length { result ≡ length self.now }
        ensures few { result ≤ MOST }
    {
        self.len
    }

    /// The stretches that they begin with.
    pub fn stretches(&self) -> &[Stretch]
        ensures { reverse result.now ≡ (packed self.now).stretches }
    {
        self.stretches.as_slice()
    }

    /// The letters behind the stretches.
    pub fn tail(&self) -> &[SpentLetter]
        ensures { result.now ≡ (packed self.now).tail }
    {
        self.tail.as_slice()
    }

    /// The letter of this number, which is there. Takes time by the logarithm of the stretches.
    pub fn at(&self, number: usize) -> SpentLetter
        requires { number < length self.now }
        ensures { slice_get self.now number ≡ Some result }
    {
        let behind = self.len - self.tail.len();
        if number >= behind {
            return self.tail[number - behind];
        }
        let stretch = &self.stretches[stretch_of(self.stretches.as_slice(), number)];
        stretch.at(number - stretch.start())
    }

    /// Adds a letter.
    ///
    /// # Errors
    ///
    /// `NoMemory` where it finds none, or can't be counted; the list stays as it was.
    pub fn push(&mut self, letter: SpentLetter) -> Result<(), NoMemory>
        ensures ok { IfOk result (λ _. self.new ≡ self.old ++ letter ∷ []) }
        ensures err { OnErr result (self.new ≡ self.old) }
    {
        if self.len >= MOST {
            return Err(NoMemory);
        }
        add(&mut self.stretches, &mut self.tail, self.len, letter)?;
        self.len += 1;
        Ok(())
    }

    /// Adds a stretch of these first letters and so many more, where it is one of a list that is packed: behind
    /// stretches alone, with as many first letters as are kept in full, of which the first is not what the last stretch
    /// has next. Tells whether it is.
    ///
    /// # Errors
    ///
    /// `NoMemory` where it finds none, or its letters can't be counted; the list stays as it was.
    pub fn push_stretch(&mut self, head: Vec<SpentLetter>, more: usize) -> Result<bool, NoMemory>
        ensures ok { IfOk result (λ done. self.new ≡ (if done then self.old ++ grown head.items more else self.old)) }
        ensures done { IfOk result (λ done. done ≡ follows (packed self.old) head.items) }
        ensures err { OnErr result (self.new ≡ self.old) }
    {
        let stretches = self.stretches.as_slice();
        if !can_follow(stretches, self.tail.as_slice(), head.as_slice()) {
            return Ok(false);
        }
        let len = len_with(self.len, more)?;
        self.stretches.push(Stretch::new(self.len, head, more))?;
        self.len = len;
        Ok(true)
    }
}

/// Whether a stretch can begin with these first letters behind those.
fn can_follow(stretches: &[Stretch], tail: &[SpentLetter], head: &[SpentLetter]) -> bool
    requires whole { AreWhole (reverse stretches.now) }
    requires few { length (letters_in (reverse stretches.now)) < 2 ^ 64 }
    ensures { result ≡ follows (record { stretches = reverse stretches.now; tail = tail.now }) head.now }
{
    if head.len() != HEAD {
        return false;
    }
    if !tail.is_empty() {
        return false;
    }
    !is_told(stretches, &head[0])
}

/// Whether the last of these stretches has this letter next.
fn is_told(stretches: &[Stretch], letter: &SpentLetter) -> bool
    requires whole { AreWhole (reverse stretches.now) }
    requires few { length (letters_in (reverse stretches.now)) < 2 ^ 64 }
    ensures { result ≡ tells (reverse stretches.now) letter.now }
{
    match stretches.last() {
        Some(stretch) => stretch.tells(letter),
        None => false,
    }
}

/// So many letters and those of a stretch with so many more, if they can be counted.
fn len_with(len: usize, more: usize) -> Result<usize, NoMemory>
    requires { len ≤ MOST }
    ensures { IfOk result (λ n. (n ≡ len + (HEAD + more)) × (n ≤ MOST)) }
{
    if more > MOST {
        return Err(NoMemory);
    }
    let all = len + (HEAD + more);
    if all > MOST {
        return Err(NoMemory);
    }
    Ok(all)
}

/// The last of these stretches gets a letter more.
fn lengthen(stretches: &mut Vec<Stretch>)
    requires whole { AreWhole (reverse stretches.old.items) }
    requires few { length (letters_in (reverse stretches.old.items)) + 1 < 2 ^ 64 }
    ensures { reverse stretches.new.items ≡ lengthened (reverse stretches.old.items) }
{
    match stretches.last_mut() {
        Some(stretch) => stretch.lengthen(),
        None => {}
    }
}

/// A letter more, behind so many.
fn add(
    stretches: &mut Vec<Stretch>,
    tail: &mut Vec<SpentLetter>,
    len: usize,
    letter: SpentLetter,
) -> Result<(), NoMemory>
    requires packed { IsPacked (record { stretches = reverse stretches.old.items; tail = tail.old.items }) }
    requires len { len
        ≡ length (letters_of (record { stretches = reverse stretches.old.items; tail = tail.old.items })) }
    requires few { len + 1 < 2 ^ 64 }
    ensures ok { IfOk result (λ _.
        record { stretches = reverse stretches.new.items; tail = tail.new.items }
        ≡ pushed (record { stretches = reverse stretches.old.items; tail = tail.old.items }) letter) }
    ensures err { OnErr result ((stretches.new.items ≡ stretches.old.items) × (tail.new.items ≡ tail.old.items)) }
{
    if tail.is_empty() && is_told(stretches.as_slice(), &letter) {
        lengthen(stretches);
        return Ok(());
    }
    put(stretches, tail, len - tail.len(), letter)
}

/// The letter goes behind the stretches, and makes one of as many as are kept in full.
fn put(
    stretches: &mut Vec<Stretch>,
    tail: &mut Vec<SpentLetter>,
    start: usize,
    letter: SpentLetter,
) -> Result<(), NoMemory>
    requires { start ≡ length (letters_in (reverse stretches.old.items)) }
    ensures ok { IfOk result (λ _.
        record { stretches = reverse stretches.new.items; tail = tail.new.items }
        ≡ put_apart (record { stretches = reverse stretches.old.items; tail = tail.old.items }) letter) }
    ensures err { OnErr result ((stretches.new.items ≡ stretches.old.items) × (tail.new.items ≡ tail.old.items)) }
{
    if tail.len() + 1 != HEAD {
        tail.push(letter)?;
        return Ok(());
    }
    let mut head = Vec::with_capacity(*tail.allocator(), HEAD)?;
    head.extend_from_slice(tail.as_slice())?;
    head.push(letter)?;
    stretches.push(Stretch::new(start, head, 0))?;
    tail.clear();
    Ok(())
}
