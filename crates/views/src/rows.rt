//! A row for each unit of all tenants.

use crate::parts::{Part, parts_of};
use diagram::{Held, Situation, Standing};
use handler::Handler;
use model::{Entry, MAX_UNITS, NoMemory, Quota, Unit};
use std::alloc::Global;

/// The first index that no entry of a history has.
const NEVER: u64 = u64::MAX;

/// What is told of a unit.
#[derive(Drop)]
pub(crate) struct Row<'a> {
    pub tenant: &'a str,
    pub quota: Quota,
    /// Letters that the tenant has sent.
    pub letters: usize,
    pub standing: Standing<'a>,
    /// The output that the unit has held longest.
    pub oldest: Option<Held>,
}

impl<'a> Row<'a> {
    /// How many entries the history had before the first that is stuck at this unit: before that of the output that
    /// it has held longest, or of the letter to it that was sent first and not received.
    pub(crate) fn stuck_since(&self) -> Option<usize> {
        let held = self.oldest.as_ref().map(|held| held.since);
        match (held, self.standing.sent_since) {
            (Some(held), Some(sent)) => Some(held.min(sent)),
            (Some(held), None) => Some(held),
            (None, sent) => sent,
        }
    }

    /// What rows are sorted by.
    fn key(&self) -> u64 {
        match self.stuck_since() {
            Some(since) => since as u64,
            None => NEVER,
        }
    }
}

/// A row for each unit of each tenant that the history opens, what is stuck longest first, and else in the order of
/// opening.
///
/// # Errors
///
/// `NoMemory` where there is none for them.
pub(crate) fn rows_of<'a, H: Handler>(
    alloc: Global,
    handler: &H,
    history: &'a [Entry],
) -> Result<Vec<Row<'a>>, NoMemory> {
    let mut rows = Vec::new(alloc);
    for part in parts_of(alloc, history)?.values() {
        add_rows(alloc, handler, history, part, &mut rows)?;
    }
    rows.as_mut_slice().sort_by_key(alloc, |row| row.key())?;
    Ok(rows)
}

/// Adds the rows of a tenant.
fn add_rows<'a, H: Handler>(
    alloc: Global,
    handler: &H,
    history: &'a [Entry],
    part: &Part,
    rows: &mut Vec<Row<'a>>,
) -> Result<(), NoMemory> {
    let Some((tenant, quota)) = part.opening(history) else {
        return Ok(());
    };
    let situation = Situation::at(alloc, handler, history, part.places())?;
    let letters = situation.letters();
    for number in 0..MAX_UNITS as u8 {
        let unit = Unit::new(number);
        let Some(standing) = situation.standing(unit) else {
            break;
        };
        let oldest = situation.held(alloc, unit, 1)?.pop();
        rows.push(Row {
            tenant,
            quota,
            letters,
            standing,
            oldest,
        })?;
    }
    Ok(())
}
