//! What the driver remembers of one tenant.

use crate::chore::Chore;
use arrayvec::ArrayVec;
use model::{Letter, MAX_TURN_EFFECTS, MAX_UNITS, NoMemory, Refusal, Unit};
use std::alloc::Global;

/// How many deliveries may be accepted behind one line: a ring of relays never ends by itself.
pub const MAX_DELIVERIES: usize = 65_536;

/// A letter that waits.
#[derive(Clone, Copy, Debug)]
pub struct Waiting {
    pub letter: Letter,
    /// The unit that it is to.
    pub unit: Unit,
    /// Why it was refused when it was tried last; nothing where it wasn't tried yet.
    pub why: Option<Refusal>,
    // Whether that was told.
    pub(crate) is_told: bool,
    // Whether it was taken, or dropped.
    pub(crate) is_gone: bool,
}

/// What became of a letter that was tried.
#[derive(Clone, Copy, PartialEq, Eq)]
pub enum Fate {
    // It was taken.
    Taken,
    // It is a repeat or an orphan, and never needed again.
    Dropped,
    // It was refused for this reason, and waits.
    Waits(Refusal),
}

impl Fate {
    /// What becomes of a letter whose delivery was refused so, if it was.
    pub fn of(refusal: Option<Refusal>) -> Fate {
        match refusal {
            None => Fate::Taken,
            Some(Refusal::Repeat | Refusal::Orphan) => Fate::Dropped,
            Some(refusal) => Fate::Waits(refusal),
        }
    }
}

/// A unit.
#[derive(Clone, Copy, Default)]
pub(crate) struct UnitFlow {
    pub(crate) is_up: bool,
    // It took something since it was flushed.
    pub(crate) has_taken: bool,
    // At most so many outputs are held.
    pub(crate) held: u64,
}

/// What the driver remembers of one tenant: its units, and its letters that wait, in the order of their numbers.
#[derive(Drop)]
pub struct Flow {
    pub(crate) units: ArrayVec<UnitFlow, MAX_UNITS>,
    pub(crate) letters: Vec<Waiting>,
    // Those to units that are down.
    pub(crate) parked: Vec<Waiting>,
}

/// Steps to give, in order: one of each kind for each unit at most, and one more.
pub type Chores = ArrayVec<Chore, 34>;

/// The unit of this place.
fn unit_of(place: usize) -> Unit {
    Unit::new(u8::try_from(place).unwrap_or(u8::MAX))
}

/// One more step, for which there is room.
fn plan(chores: &mut Chores, chore: Chore) {
    let _ = chores.try_push(chore);
}

/// Adds those that weren't told of to the news, as long as there are no more than so many.
fn tell_of(
    letters: &mut Vec<Waiting>,
    most: usize,
    news: &mut Vec<Waiting>,
) -> Result<(), NoMemory> {
    for waiting in letters.as_mut_slice() {
        if !waiting.is_told && news.len() < most {
            waiting.is_told = true;
            news.push(*waiting)?;
        }
    }
    Ok(())
}

impl UnitFlow {
    /// A unit at its beginning.
    fn new() -> UnitFlow {
        UnitFlow {
            is_up: true,
            has_taken: false,
            held: 0,
        }
    }
}

impl Waiting {
    /// A letter that was made just now.
    fn new(letter: Letter, unit: Unit) -> Waiting {
        Waiting {
            letter,
            unit,
            why: None,
            is_told: false,
            is_gone: false,
        }
    }

    /// The same, refused for this reason.
    fn refused(&self, why: Refusal) -> Waiting {
        Waiting {
            why: Some(why),
            is_told: self.is_told && self.why == Some(why),
            ..*self
        }
    }
}

impl Flow {
    /// A tenant that was opened with so many units.
    pub fn new(alloc: Global, count: u64) -> Flow {
        let mut flow = Flow {
            units: ArrayVec::new(),
            letters: Vec::new(alloc),
            parked: Vec::new(alloc),
        };
        for _ in 0..count {
            flow.join();
        }
        flow
    }

    /// One unit more.
    pub fn join(&mut self) {
        let _ = self.units.try_push(UnitFlow::new());
    }

    fn unit(&self, unit: Unit) -> Option<&UnitFlow> {
        self.units.as_slice().get(usize::from(unit.number()))
    }

    fn unit_mut(&mut self, unit: Unit) -> Option<&mut UnitFlow> {
        self.units.get_mut(usize::from(unit.number()))
    }

    /// Whether the unit is there and up.
    pub fn is_up(&self, unit: Unit) -> bool {
        match self.unit(unit) {
            Some(flow) => flow.is_up,
            None => false,
        }
    }

    /// The unit took something, and holds so many outputs.
    pub fn take(&mut self, unit: Unit, held: u64) {
        if let Some(flow) = self.unit_mut(unit) {
            flow.has_taken = true;
            flow.held = held;
        }
    }

    /// All that the unit took is logged.
    pub fn log(&mut self, unit: Unit) {
        if let Some(flow) = self.unit_mut(unit) {
            flow.has_taken = false;
        }
    }

    /// The unit released so many outputs.
    pub fn release(&mut self, unit: Unit, count: u64) {
        if let Some(flow) = self.unit_mut(unit) {
            flow.held = flow.held.saturating_sub(count);
        }
    }

    /// The unit is down, and what wasn't logged is lost.
    pub fn kill(&mut self, unit: Unit) {
        if let Some(flow) = self.unit_mut(unit) {
            flow.is_up = false;
            flow.has_taken = false;
        }
    }

    /// A letter was made.
    ///
    /// # Errors
    ///
    /// `NoMemory` where it finds none.
    pub fn send(&mut self, letter: Letter, unit: Unit) -> Result<(), NoMemory> {
        self.letters.push(Waiting::new(letter, unit))?;
        Ok(())
    }

    /// The unit is up again, and what waited for it waits among the others.
    ///
    /// # Errors
    ///
    /// `NoMemory` where the list of those finds none.
    pub fn restart(&mut self, unit: Unit) -> Result<(), NoMemory> {
        if let Some(flow) = self.unit_mut(unit) {
            flow.is_up = true;
        }
        let count = self.letters.len();
        for waiting in self.parked.as_slice() {
            if waiting.unit == unit {
                self.letters.push(*waiting)?;
            }
        }
        if count < self.letters.len() {
            self.parked.retain(|waiting| waiting.unit != unit);
            self.letters
                .sort_unstable_by_key(|waiting| waiting.letter.number());
        }
        Ok(())
    }

    /// Flushes of the units that are up and took something.
    fn plan_flushes(&self, chores: &mut Chores) {
        for (place, unit) in self.units.as_slice().iter().enumerate() {
            if unit.is_up && unit.has_taken {
                plan(
                    chores,
                    Chore::Flush {
                        unit: unit_of(place),
                    },
                );
            }
        }
    }

    /// Releases of the units that are up and hold something.
    fn plan_releases(&self, chores: &mut Chores) {
        for (place, unit) in self.units.as_slice().iter().enumerate() {
            if unit.is_up && unit.held > 0 {
                plan(
                    chores,
                    Chore::Release {
                        unit: unit_of(place),
                    },
                );
            }
        }
    }

    /// What is given before a letter to this unit, that was refused so, is tried once more; nothing where it isn't.
    pub fn remedy(&self, refusal: Option<Refusal>, unit: Unit) -> Chores {
        let mut chores = Chores::new();
        match refusal {
            Some(Refusal::Wait) => plan(&mut chores, Chore::Notice { unit }),
            Some(Refusal::Pending) => self.plan_flushes(&mut chores),
            Some(Refusal::Quota) => {
                self.plan_flushes(&mut chores);
                plan(&mut chores, Chore::Release { unit });
            }
            _ => {}
        }
        chores
    }

    /// Notices of the units that are up, but for this one.
    pub fn notices(&self, but: Unit) -> Chores {
        let mut chores = Chores::new();
        for (place, unit) in self.units.as_slice().iter().enumerate() {
            if unit.is_up && unit_of(place) != but {
                plan(
                    &mut chores,
                    Chore::Notice {
                        unit: unit_of(place),
                    },
                );
            }
        }
        chores
    }

    /// What makes the units stable, and lets out what is firm then.
    pub fn settling(&self) -> Chores {
        let mut chores = Chores::new();
        self.plan_flushes(&mut chores);
        self.plan_releases(&mut chores);
        chores
    }

    /// How many letters are tried behind one line at most: those that wait, and what each delivery can make.
    pub fn most_letters(&self) -> usize {
        self.letters
            .len()
            .saturating_add(MAX_DELIVERIES * MAX_TURN_EFFECTS)
    }

    /// The letter at this place of those that wait.
    pub fn letter_at(&self, place: usize) -> Option<Waiting> {
        self.letters.get(place).copied()
    }

    /// What became of the letter at this place. One whose unit is down is put aside until that is up.
    ///
    /// # Errors
    ///
    /// `NoMemory` where one that is put aside finds none.
    pub fn decide(&mut self, place: usize, waiting: &Waiting, fate: Fate) -> Result<(), NoMemory> {
        match fate {
            Fate::Taken | Fate::Dropped => self.leave(place),
            Fate::Waits(Refusal::Down) => {
                self.parked.push(waiting.refused(Refusal::Down))?;
                self.leave(place);
            }
            Fate::Waits(refusal) => {
                if let Some(slot) = self.letters.get_mut(place) {
                    *slot = waiting.refused(refusal);
                }
            }
        }
        Ok(())
    }

    fn leave(&mut self, place: usize) {
        if let Some(waiting) = self.letters.get_mut(place) {
            waiting.is_gone = true;
        }
    }

    /// Lets go of the letters that were taken, dropped or put aside.
    pub fn sweep(&mut self) {
        self.letters.retain(|waiting| !waiting.is_gone);
    }

    /// How many letters wait.
    pub fn waiting_count(&self) -> usize {
        self.letters.len().saturating_add(self.parked.len())
    }

    /// The first letter that waits, if one does.
    pub fn first_waiting(&self) -> Option<Waiting> {
        match self.letters.first() {
            Some(waiting) => Some(*waiting),
            None => self.parked.first().copied(),
        }
    }

    /// The first letters that wait and weren't told of, or wait for another reason since, at most so many. They are
    /// told of then.
    ///
    /// # Errors
    ///
    /// `NoMemory` where their list finds none.
    pub fn news(&mut self, alloc: Global, most: usize) -> Result<Vec<Waiting>, NoMemory> {
        let mut news = Vec::new(alloc);
        tell_of(&mut self.letters, most, &mut news)?;
        tell_of(&mut self.parked, most, &mut news)?;
        Ok(news)
    }
}
