//! What a unit isn't told yet.

use crate::picture::Picture;
use crate::replay::picture_of;
use handler::Handler;
use model::{Entry, Letter, Mark, NoMemory, Row, TenantName, Unit};
use std::alloc::Global;

/// The receiver of a letter, and the first unit with a restart or rollback that the letter rests on and the receiver
/// isn't told of.
#[derive(Clone, Copy, Debug, PartialEq, Eq)]
pub struct MissingNotice {
    pub receiver: Unit,
    pub unit: Unit,
}

/// Why a letter has to wait, by the entries of a history and the rows of the tenant's table; none where it has not.
/// Takes time by the history.
///
/// # Errors
///
/// `NoMemory` where there is none to follow the history.
pub fn why_waits<H: Handler>(
    alloc: Global,
    handler: &H,
    history: &[Entry],
    rows: &[Row],
    tenant: &TenantName,
    letter: Letter,
) -> Result<Option<MissingNotice>, NoMemory> {
    let picture = picture_of(alloc, handler, history, tenant)?;
    Ok(missing_in(&picture, rows, letter))
}

fn missing_in(picture: &Picture<'_>, rows: &[Row], letter: Letter) -> Option<MissingNotice> {
    let place = picture.letter_place(letter)?;
    let sent = picture.letters.get(place)?;
    let sender = picture.intervals.get(sent.sender)?;
    let known = picture.lane(sent.receiver)?.known;
    let told = rows.get(..known).unwrap_or(rows);
    let unit = first_unnoticed(sender.vector.as_slice(), told)?;
    Some(MissingNotice {
        receiver: sent.receiver,
        unit,
    })
}

/// The first unit whose mark has an incarnation that these rows don't tell of.
fn first_unnoticed(vector: &[Mark], told: &[Row]) -> Option<Unit> {
    let mut number = 0u8;
    for mark in vector {
        let unit = Unit::new(number);
        if mark.incarnation > 0 && !is_told(told, unit, mark.incarnation) {
            return Some(unit);
        }
        number = number.wrapping_add(1);
    }
    None
}

/// Whether a row begins this incarnation of the unit.
fn is_told(told: &[Row], unit: Unit, incarnation: u32) -> bool {
    for row in told {
        if row.unit == unit && row.incarnation == incarnation {
            return true;
        }
    }
    false
}
