//! All letters that a tenant's units sent.

ghost use Rattle.std.specs.Prelude.{◌≡◌, ◌+◌, ◌<◌, ◌≤◌, [], ◌∷◌, ◌++◌, ℕ, IfOk, IfSome, MatchOption, None, OnOk, Some};
ghost use Rattle.std.specs.Prelude.{length, map, slice_get, slice_set, true};
ghost use Rattle.std.specs.List.{filter};
ghost use Rattle.std.specs.VecDeque.{deque_capacity, deque_len};
ghost use Rattle.compact.specs.Compact.{CompactLetter};
ghost use Rattle.compact.specs.Forgetting.{without_content};
ghost use Rattle.spent_letters.specs.declared.spent_letters.TheConstants.{MOST};
ghost use Rattle.unit_steps.specs.SentLetters.{front, is_spent_to, is_whole_to, spent_letter, spent_of};

use crate::letters::{Content, SentLetter};
use crate::new_letters::{LetterStorage, NewLetters};
use model::{NoMemory, Unit};
use spent_letters::{SpentLetter, SpentLetters};
use std::alloc::Global;
use std::collections::VecDeque;
use std::marker::Model;

/// A letter, by reference: from whom it is, to whom, and its content where that is not forgotten.
#[derive(Drop)]
pub struct LetterRef<'a> {
    pub source: Unit,
    pub receiver: Unit,
    pub content: Option<&'a Content>,
}

impl<'a> Model for LetterRef<'a> {
    ghost use Rattle.std.specs.Option.{option_copied};
    ghost use Rattle.compact.specs.Compact.{CompactLetter};

    ghost Value = { CompactLetter };

    ghost view = { λ l. record { source = l.source; receiver = l.receiver; content = option_copied l.content } };
}

/// All letters that the units of a tenant sent, by their numbers. Those at the front whose contents are forgotten take
/// no room where they go the same way again and again, and two bytes each where they don't. The others take 16 and
/// their contents.
#[derive(Drop)]
pub struct SentLetters {
    spent: SpentLetters,
    rest: VecDeque<SentLetter>,
}

impl Model for SentLetters {
    ghost use Rattle.std.specs.Prelude.{◌-◌, ◌++◌, map};
    ghost use Rattle.std.specs.VecDeque.{deque_capacity, deque_len};
    ghost use Rattle.unit_steps.specs.SentLetters.{SentLetters as SentOf, spent_letter};

    ghost Value = { SentOf };

    ghost view = { λ s. record {
      items = map spent_letter s.spent ++ s.rest.items;
      room = deque_capacity s.rest - deque_len s.rest;
    } };
}

impl SentLetters {
    /// No letters.
    pub fn new(alloc: Global) -> SentLetters
        ensures { result.items ≡ [] }
    {
        SentLetters {
            spent: SpentLetters::new(alloc),
            rest: VecDeque::new(alloc),
        }
    }

    /// Letters whose contents are forgotten.
    pub fn of(alloc: Global, spent: SpentLetters) -> SentLetters
        ensures { result.items ≡ map spent_letter spent }
    {
        SentLetters {
            spent,
            rest: VecDeque::new(alloc),
        }
    }

    /// How many there are.
    pub fn len(&self) -> usize
        ensures { result ≡ length self.now.items }
    {
        self.spent.len() + self.rest.len()
    }

    /// The letter of this number, if there is one.
    pub fn get(&self, number: usize) -> Option<LetterRef<'_>>
        ensures { MatchOption result (slice_get self.now.items number ≡ None) (λ l.
            slice_get self.now.items number ≡ Some l) }
    {
        if number < self.len() {
            Some(self.at(number))
        } else {
            None
        }
    }

    /// The letter of this number, which is there.
    pub fn at(&self, number: usize) -> LetterRef<'_>
        requires { number < length self.now.items }
        ensures { slice_get self.now.items number ≡ Some result }
    {
        if number < self.spent.len() {
            let spent = self.spent.at(number);
            return LetterRef {
                source: spent.source,
                receiver: spent.receiver,
                content: None,
            };
        }
        let letter = &self.rest[number - self.spent.len()];
        LetterRef {
            source: letter.source,
            receiver: letter.receiver,
            content: letter.content.as_ref(),
        }
    }

    /// How many are to this unit, and have no content. Takes time by the number of letters.
    #[tactic(auto, using(crate::proofs::Spent::spent_counted))]
    pub fn count_spent_to(&self, unit: Unit) -> usize
        ensures { result ≡ length (filter (is_spent_to unit) self.now.items) }
    {
        count_front(&self.spent, unit) + count_spent(&self.rest, unit)
    }

    /// How many are to this unit, and have their contents. Takes time by the number of letters that are not at the
    /// front, or have a content.
    #[tactic(auto, using(crate::proofs::Spent::whole_counted))]
    pub fn count_whole_to(&self, unit: Unit) -> usize
        ensures { result ≡ length (filter (is_whole_to unit) self.now.items) }
    {
        count_whole(&self.rest, unit)
    }

    /// Finds room for so many more.
    ///
    /// # Errors
    ///
    /// `NoMemory` where there is none.
    pub fn reserve(&mut self, more: usize) -> Result<(), NoMemory>
        ensures items { self.new.items ≡ self.old.items }
        ensures room { OnOk result (more ≤ self.new.room) }
    {
        self.rest.reserve(more)?;
        Ok(())
    }

    /// Adds the letters of a turn, for which there is room. Takes no memory.
    pub fn add(&mut self, made: NewLetters)
        requires { length made.items ≤ self.old.room }
        ensures { self.new.items ≡ self.old.items ++ made.items }
    {
        let NewLetters { letters } = made;
        match letters {
            LetterStorage::Zero => {}
            LetterStorage::One(letter) => self.rest.push_back_reserved(letter),
            LetterStorage::Many(letters) => push_all(&mut self.rest, letters),
        }
    }

    /// The letters at the front whose contents are forgotten, where all of them are kept packed.
    pub fn packed_front(&self) -> Option<&SpentLetters>
        ensures { IfSome result (λ f. f.now ≡ front self.now.items) }
    {
        if begins_whole(&self.rest) {
            return Some(&self.spent);
        }
        None
    }

    /// Packs the letters at the front whose contents are forgotten. Takes time by their number.
    ///
    /// # Errors
    ///
    /// `NoMemory` where they find none.
    pub fn pack_front(&self, alloc: Global) -> Result<SpentLetters, NoMemory>
        ensures { IfOk result (λ f. f ≡ front self.now.items) }
    {
        let mut spent = SpentLetters::new(alloc);
        for number in 0..self.len() {
            match self.spent_at(number) {
                Some(letter) => spent.push(letter)?,
                None => return Ok(spent),
            }
        }
        Ok(spent)
    }

    /// What is left of the letter of this number, which is there, where its content is forgotten.
    fn spent_at(&self, number: usize) -> Option<SpentLetter>
        requires { number < length self.now.items }
        ensures { (c : CompactLetter) → slice_get self.now.items number ≡ Some c → result ≡ spent_of c }
    {
        let letter = self.at(number);
        if letter.content.is_some() {
            return None;
        }
        Some(SpentLetter {
            source: letter.source,
            receiver: letter.receiver,
        })
    }

    /// Adds one letter.
    ///
    /// # Errors
    ///
    /// `NoMemory` where there is none for it.
    pub fn push(&mut self, letter: SentLetter) -> Result<(), NoMemory>
        ensures { OnOk result (self.new.items ≡ self.old.items ++ letter ∷ []) }
    {
        if letter.content.is_some() || !self.rest.is_empty() {
            self.rest.push_back(letter)?;
            return Ok(());
        }
        self.spent.push(SpentLetter {
            source: letter.source,
            receiver: letter.receiver,
        })?;
        Ok(())
    }

    /// Forgets the content of the letter of this number, if there is one. Asks for no memory that it needs: where there
    /// is none to keep a letter at the front packed, that one goes on taking what it took.
    pub fn forget(&mut self, number: usize)
        ensures there { (c : CompactLetter) → slice_get self.old.items number ≡ Some c
            → self.new.items ≡ slice_set self.old.items number (without_content c) }
        ensures past { slice_get self.old.items number ≡ None → self.new.items ≡ self.old.items }
    {
        self.empty(number);
        self.sweep();
    }

    /// The letter of this number gives up its content.
    fn empty(&mut self, number: usize)
        ensures there { (c : CompactLetter) → slice_get self.old.items number ≡ Some c
            → self.new.items ≡ slice_set self.old.items number (without_content c) }
        ensures past { slice_get self.old.items number ≡ None → self.new.items ≡ self.old.items }
    {
        if number >= self.spent.len() {
            empty_at(&mut self.rest, number - self.spent.len());
        }
    }

    /// Packs what is left of the letters at the front that have no content.
    fn sweep(&mut self)
        ensures { self.new.items ≡ self.old.items }
    {
        for _ in 0..self.rest.len() {
            if !self.shift() {
                return;
            }
        }
    }

    /// So of the first one that is not packed, if it has no content, and there is memory. Tells whether it did.
    fn shift(&mut self) -> bool
        ensures { self.new.items ≡ self.old.items }
    {
        let spent = match self.rest.front() {
            Some(letter) if letter.content.is_none() => SpentLetter {
                source: letter.source,
                receiver: letter.receiver,
            },
            _ => return false,
        };
        if self.spent.push(spent).is_err() {
            return false;
        }
        let _ = self.rest.pop_front();
        true
    }
}

/// Moves these letters behind others, which have room for them.
fn push_all(letters: &mut VecDeque<SentLetter>, more: Vec<SentLetter>)
    requires { deque_len letters.old + length more.items ≤ deque_capacity letters.old }
    ensures { letters.new.items ≡ letters.old.items ++ more.items }
{
    for letter in more {
        letters.push_back_reserved(letter);
    }
}

/// Whether what is left of a letter was to this unit.
fn was_to(spent: &SpentLetter, unit: Unit) -> bool
    ensures { result ≡ is_spent_to unit (spent_letter spent.now) }
{
    spent.receiver == unit
}

/// How many of these were to this unit.
fn count_front(spent: &SpentLetters, unit: Unit) -> usize
    ensures count { result ≡ length (filter (λ s. is_spent_to unit (spent_letter s)) spent.now) }
    ensures bound { result ≤ MOST }
{
    let mut count = 0;
    for number in 0..spent.len() {
        if was_to(&spent.at(number), unit) {
            count += 1;
        }
    }
    count
}

/// How many of these letters are to this unit, and have no content.
fn count_spent(letters: &VecDeque<SentLetter>, unit: Unit) -> usize
    ensures count { result ≡ length (filter (is_spent_to unit) letters.now.items) }
    ensures bound { result ≤ deque_len letters.now }
{
    letters.iter().filter(|l| is_spent(l, unit)).count()
}

/// How many of these letters are to this unit, and have their contents.
fn count_whole(letters: &VecDeque<SentLetter>, unit: Unit) -> usize
    ensures { result ≡ length (filter (is_whole_to unit) letters.now.items) }
{
    letters.iter().filter(|l| is_whole(l, unit)).count()
}

/// Whether the first of these letters has its content, or there is none.
fn begins_whole(letters: &VecDeque<SentLetter>) -> bool
    ensures { result ≡ true → front letters.now.items ≡ [] }
{
    match letters.front() {
        Some(letter) => letter.content.is_some(),
        None => true,
    }
}

/// Whether the letter is to this unit, and has no content.
fn is_spent(letter: &SentLetter, unit: Unit) -> bool
    ensures { result ≡ is_spent_to unit letter.now }
{
    letter.receiver == unit && letter.content.is_none()
}

/// Whether the letter is to this unit, and has its content.
fn is_whole(letter: &SentLetter, unit: Unit) -> bool
    ensures { result ≡ is_whole_to unit letter.now }
{
    letter.receiver == unit && letter.content.is_some()
}

/// The letter gives up its content.
fn empty(letter: &mut SentLetter)
    ensures { letter.new ≡ without_content letter.old }
{
    letter.content = None;
}

/// So does the one at this place, if there is one.
fn empty_at(letters: &mut VecDeque<SentLetter>, at: usize)
    ensures there { (c : CompactLetter) → slice_get letters.old.items at ≡ Some c
        → letters.new.items ≡ slice_set letters.old.items at (without_content c) }
    ensures past { slice_get letters.old.items at ≡ None → letters.new.items ≡ letters.old.items }
{
    if at < letters.len() {
        let letter = &mut letters[at];
        empty(letter);
    }
}
