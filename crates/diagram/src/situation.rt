//! How the units of a tenant stand, and what their held outputs wait for.

use crate::interval::{Interval, Lane};
use crate::picture::Picture;
use crate::replay::{picture_at, picture_of};
use handler::Handler;
use model::{Entry, Mark, NoMemory, TenantName, Text, Unit};
use std::alloc::Global;

/// A unit that an output waits for: its latest interval in the output's past isn't logged.
#[derive(Clone, Copy, Debug, PartialEq, Eq)]
pub struct Awaited {
    pub unit: Unit,
    pub mark: Mark,
    /// Whether that interval was lost, so that it is never logged, and the output never leaves.
    pub is_lost: bool,
}

/// An output that is held.
#[derive(Drop)]
pub struct Held {
    pub text: Text,
    /// The interval that put it out.
    pub mark: Mark,
    /// How many entries the history had before the one that put it out.
    pub since: usize,
    /// The units that it waits for, in order; none where all of its past is logged.
    pub awaited: Vec<Awaited>,
}

/// How a unit stands.
#[derive(Clone, Copy, Debug)]
pub struct Standing<'a> {
    pub unit: Unit,
    pub kind: &'a str,
    /// The last interval of its path.
    pub mark: Mark,
    pub is_up: bool,
    /// Intervals that aren't logged.
    pub volatile: usize,
    /// Outputs that were put out and not released.
    pub held: usize,
    /// Letters to it that it may still receive.
    pub undelivered: usize,
    /// How many entries the history had before the one that sent the first of these letters.
    pub sent_since: Option<usize>,
}

/// The units and letters of one tenant, after all entries of a history.
#[derive(Drop)]
pub struct Situation<'a> {
    picture: Picture<'a>,
}

impl<'a> Situation<'a> {
    /// That of a tenant, by its entries of a history. Takes time and memory by the history; handlers are asked once
    /// for each accepted receipt.
    ///
    /// # Errors
    ///
    /// `NoMemory` where there is none to follow the history.
    pub fn of<H: Handler>(
        alloc: Global,
        handler: &H,
        history: &'a [Entry],
        tenant: &TenantName,
    ) -> Result<Situation<'a>, NoMemory> {
        let picture = picture_of(alloc, handler, history, tenant)?;
        Ok(Situation { picture })
    }

    /// That of a tenant whose entries stand at these places of a history: in time and memory by these alone.
    ///
    /// # Errors
    ///
    /// `NoMemory` where there is none to follow them.
    pub fn at<H: Handler>(
        alloc: Global,
        handler: &H,
        history: &'a [Entry],
        places: &[usize],
    ) -> Result<Situation<'a>, NoMemory> {
        let picture = picture_at(alloc, handler, history, places)?;
        Ok(Situation { picture })
    }

    /// How many units there are.
    pub fn units(&self) -> usize {
        self.picture.lanes.len()
    }

    /// How many letters were sent.
    pub fn letters(&self) -> usize {
        self.picture.letters.len()
    }

    /// Whether the unit is there and up.
    pub fn is_up(&self, unit: Unit) -> bool {
        match self.picture.lane(unit) {
            Some(lane) => lane.down.is_none(),
            None => false,
        }
    }

    /// How the unit stands, if it is there.
    pub fn standing(&self, unit: Unit) -> Option<Standing<'a>> {
        let lane = self.picture.lane(unit)?;
        let mark = self.picture.last(unit)?.mark;
        let (undelivered, sent_since) = self.letters_to(unit);
        Some(Standing {
            unit,
            kind: lane.kind,
            mark,
            is_up: self.is_up(unit),
            volatile: lane.path.len().saturating_sub(lane.stable),
            held: self.picture.outputs(unit).saturating_sub(lane.released),
            undelivered,
            sent_since,
        })
    }

    /// How many letters the unit may still receive, and when the first of them was sent.
    fn letters_to(&self, unit: Unit) -> (usize, Option<usize>) {
        let (mut count, mut since) = (0usize, None);
        for letter in &self.picture.letters {
            if letter.receiver == unit && !letter.is_received {
                if let Some(sent) = self.sent_by_a_path(letter.sender) {
                    count = count.saturating_add(1);
                    if since.is_none() {
                        since = Some(sent);
                    }
                }
            }
        }
        (count, since)
    }

    /// When the interval at this place began, where it is on its unit's path.
    fn sent_by_a_path(&self, place: usize) -> Option<usize> {
        let sender = self.picture.intervals.get(place)?;
        if sender.removal.is_none() {
            Some(sender.entry)
        } else {
            None
        }
    }

    /// The outputs that the unit holds, from the one put out first on, and so many at most.
    ///
    /// # Errors
    ///
    /// `NoMemory` where there is none for them.
    pub fn held(&self, alloc: Global, unit: Unit, most: usize) -> Result<Vec<Held>, NoMemory> {
        let mut found = Vec::new(alloc);
        let Some(lane) = self.picture.lane(unit) else {
            return Ok(found);
        };
        for place in &lane.path {
            if let Some(interval) = self.picture.intervals.get(*place) {
                self.add_held(alloc, &mut found, lane, interval, most)?;
            }
            if found.len() >= most {
                break;
            }
        }
        Ok(found)
    }

    /// Adds the outputs of an interval that are held.
    fn add_held(
        &self,
        alloc: Global,
        found: &mut Vec<Held>,
        lane: &Lane<'a>,
        interval: &Interval<'a>,
        most: usize,
    ) -> Result<(), NoMemory> {
        let released = lane.released.saturating_sub(interval.outputs_before);
        for text in interval.outputs.get(released..).unwrap_or(&[]) {
            if found.len() < most {
                found.push(Held {
                    text: text.copy()?,
                    mark: interval.mark,
                    since: interval.entry,
                    awaited: self.awaited(alloc, interval)?,
                })?;
            }
        }
        Ok(())
    }

    /// The units of which the interval's past has one that isn't logged.
    fn awaited(&self, alloc: Global, interval: &Interval<'a>) -> Result<Vec<Awaited>, NoMemory> {
        let mut found = Vec::new(alloc);
        let mut number = 0u8;
        for mark in interval.vector.as_slice() {
            let unit = Unit::new(number);
            if !self.picture.is_stable(usize::from(number), *mark) {
                found.push(Awaited {
                    unit,
                    mark: *mark,
                    is_lost: !self.picture.is_on_path(unit, *mark),
                })?;
            }
            number = number.wrapping_add(1);
        }
        Ok(found)
    }
}
