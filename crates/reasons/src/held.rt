//! What an output that is held waits for, in words.

use crate::mending::{Remedy, is_lost, remedies};
use diagram::{Awaited, Held, Situation};
use model::{Mark, NoMemory, Unit};
use std::alloc::Global;
use std::fmt;
use std::fmt::{Display, Formatter};

/// A mark as `[incarnation,index]`.
#[derive(Clone, Copy)]
pub struct Shown(pub Mark);

impl Display for Shown {
    fn fmt<W: fmt::Write>(&self, out: &mut Formatter<W>) -> fmt::Result {
        let Mark { incarnation, index } = self.0;
        write!(out, "[{incarnation},{index}]")
    }
}

/// What an output waits for: `unit 0 has not logged [0,2]`, or what it can't come by any more: `unit 0 lost [0,2]`.
#[derive(Clone, Copy)]
pub struct Waits<'a>(pub &'a Held);

impl<'a> Display for Waits<'a> {
    fn fmt<W: fmt::Write>(&self, out: &mut Formatter<W>) -> fmt::Result {
        let Waits(held) = *self;
        if held.awaited.is_empty() {
            return out.write_str("nothing: all of its past is logged");
        }
        let lost = is_lost(held);
        let verb = if lost { "lost" } else { "has not logged" };
        let mut before = "";
        for awaited in &held.awaited {
            let Awaited { unit, mark, .. } = *awaited;
            if awaited.is_lost == lost {
                let (unit, mark) = (unit.number(), Shown(mark));
                write!(out, "{before}unit {unit} {verb} {mark}")?;
                before = ", ";
            }
        }
        Ok(())
    }
}

/// Adds steps in words: `flush 0, release 1`.
///
/// # Errors
///
/// `NoMemory` where there is none for them.
pub fn add_remedies(text: &mut String, steps: &[Remedy]) -> Result<(), NoMemory> {
    let mut before = "";
    for step in steps {
        write!(
            text,
            "{before}{} {}",
            step.action.word(),
            step.unit.number()
        )?;
        before = ", ";
    }
    Ok(())
}

/// What the first output waits for that a release of the unit left behind, and what would help, in one sentence; none
/// where it left nothing.
///
/// # Errors
///
/// `NoMemory` where there is none for the sentence.
pub fn left_behind(
    alloc: Global,
    situation: &Situation<'_>,
    unit: Unit,
) -> Result<Option<String>, NoMemory> {
    let held = situation.held(alloc, unit, 1)?;
    match held.first() {
        Some(first) => Ok(Some(sentence(alloc, situation, unit, first)?)),
        None => Ok(None),
    }
}

fn sentence(
    alloc: Global,
    situation: &Situation<'_>,
    unit: Unit,
    held: &Held,
) -> Result<String, NoMemory> {
    let steps = remedies(alloc, situation, unit, held)?;
    let (text, waits) = (held.text.as_str(), Waits(held));
    let mut sentence = if is_lost(held) {
        format!(in alloc; "release: {text:?} never leaves: {waits}; it is undone by ")?
    } else {
        format!(in alloc; "release: {text:?} waits: {waits}; it would leave by ")?
    };
    add_remedies(&mut sentence, steps.as_slice())?;
    Ok(sentence)
}
