//! What helps an output that is held.

use diagram::{Awaited, Held, Situation};
use model::{NoMemory, Unit};
use std::alloc::Global;

/// What a step does that helps an output.
#[derive(Clone, Copy, PartialEq, Eq)]
pub enum Action {
    Flush,
    Restart,
    Notice,
    Release,
}

/// A step of one unit.
#[derive(Clone, Copy)]
pub struct Remedy {
    pub action: Action,
    pub unit: Unit,
}

impl Action {
    /// The word that `do` has.
    pub fn word(self) -> &'static str {
        match self {
            Action::Flush => "flush",
            Action::Restart => "restart",
            Action::Notice => "notice",
            Action::Release => "release",
        }
    }
}

/// Whether the output never leaves: its past has an interval that was lost.
pub fn is_lost(held: &Held) -> bool {
    held.awaited.iter().any(|awaited| awaited.is_lost)
}

/// The shortest list of steps behind which the output has left; of one that never leaves, that behind which it is gone.
///
/// # Errors
///
/// `NoMemory` where there is none for it.
pub fn remedies(
    alloc: Global,
    situation: &Situation<'_>,
    owner: Unit,
    held: &Held,
) -> Result<Vec<Remedy>, NoMemory> {
    if is_lost(held) {
        undoing(alloc, situation, owner, held)
    } else {
        leaving(alloc, situation, owner, held)
    }
}

/// Each unit that is waited for logs what it has, and the owner, which must be up, releases.
fn leaving(
    alloc: Global,
    situation: &Situation<'_>,
    owner: Unit,
    held: &Held,
) -> Result<Vec<Remedy>, NoMemory> {
    let mut steps = Vec::new(alloc);
    for awaited in &held.awaited {
        add(&mut steps, Action::Flush, awaited.unit)?;
    }
    if !situation.is_up(owner) {
        add(&mut steps, Action::Restart, owner)?;
    }
    add(&mut steps, Action::Release, owner)?;
    Ok(steps)
}

/// Each unit that lost some of the past and is down comes back, and the owner learns of it.
fn undoing(
    alloc: Global,
    situation: &Situation<'_>,
    owner: Unit,
    held: &Held,
) -> Result<Vec<Remedy>, NoMemory> {
    let mut steps = Vec::new(alloc);
    for awaited in &held.awaited {
        let Awaited { unit, is_lost, .. } = *awaited;
        if is_lost && !situation.is_up(unit) {
            add(&mut steps, Action::Restart, unit)?;
        }
    }
    let action = if situation.is_up(owner) {
        Action::Notice
    } else {
        Action::Restart
    };
    add(&mut steps, action, owner)?;
    Ok(steps)
}

fn add(steps: &mut Vec<Remedy>, action: Action, unit: Unit) -> Result<(), NoMemory> {
    steps.push(Remedy { action, unit })?;
    Ok(())
}
