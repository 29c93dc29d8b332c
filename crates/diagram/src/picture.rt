//! The picture of one tenant as a plain value, and what can be read off it.

use crate::interval::{Cause, Downtime, Interval, Lane, Removal, Sent, Sign, Status};
use model::{Letter, Mark, NoMemory, Seat, Source, Text, Unit};
use std::alloc::Global;

/// All that is drawn of one tenant.
#[derive(Drop)]
pub(crate) struct Picture<'a> {
    pub lanes: Vec<Lane<'a>>,
    /// In the order in which they were made.
    pub intervals: Vec<Interval<'a>>,
    /// In the order of their numbers.
    pub letters: Vec<Sent>,
    pub signs: Vec<Sign>,
    pub downtimes: Vec<Downtime>,
    /// How many rows the tenant's table has.
    pub rows: usize,
    /// How many columns there are.
    pub columns: usize,
    /// For each column the place of its entry in the history.
    pub entries: Vec<usize>,
    /// The place of the entry that is followed.
    pub entry: usize,
}

impl<'a> Picture<'a> {
    /// With nothing in it. It takes no memory.
    pub(crate) fn new(alloc: Global) -> Picture<'a> {
        Picture {
            lanes: Vec::new(alloc),
            intervals: Vec::new(alloc),
            letters: Vec::new(alloc),
            signs: Vec::new(alloc),
            downtimes: Vec::new(alloc),
            rows: 0,
            columns: 0,
            entries: Vec::new(alloc),
            entry: 0,
        }
    }

    /// The present column is done: what it shows is of the entry that is followed.
    pub(crate) fn end_column(&mut self) -> Result<(), NoMemory> {
        self.entries.push(self.entry)?;
        self.columns = self.columns.saturating_add(1);
        Ok(())
    }

    /// Adds a unit that begins in the present column. The path is empty; its first interval is to be
    /// logged from the start.
    pub(crate) fn add_lane(
        &mut self,
        seat: Seat,
        kind: &'a str,
        path: Vec<usize>,
    ) -> Result<(), NoMemory> {
        let column = self.columns;
        self.lanes.push(Lane {
            seat,
            kind,
            column,
            path,
            stable: 1,
            known: 0,
            released: 0,
            passed: 0,
            down: None,
        })?;
        Ok(())
    }

    /// Adds a letter that the next interval sends.
    pub(crate) fn add_letter(
        &mut self,
        number: Letter,
        source: Unit,
        receiver: Unit,
        text: Text,
    ) -> Result<(), NoMemory> {
        let sender = self.intervals.len();
        self.letters.push(Sent {
            number,
            sender,
            source,
            receiver,
            text,
            is_received: false,
        })?;
        Ok(())
    }

    /// The unit, if the tenant has it.
    pub(crate) fn lane(&self, unit: Unit) -> Option<&Lane<'a>> {
        self.lanes.get(usize::from(unit.number()))
    }

    /// The place of the last interval of the unit's path.
    pub(crate) fn last_place(&self, unit: Unit) -> Option<usize> {
        self.lane(unit)?.path.last().copied()
    }

    /// The last interval of the unit's path.
    pub(crate) fn last(&self, unit: Unit) -> Option<&Interval<'a>> {
        self.intervals.get(self.last_place(unit)?)
    }

    /// The place of the letter of this number, if it was sent.
    pub(crate) fn letter_place(&self, number: Letter) -> Option<usize> {
        let place = number.number() as usize;
        if self.letters.get(place)?.number == number {
            Some(place)
        } else {
            None
        }
    }

    /// The letter that an interval received, if it received one.
    pub(crate) fn letter(&self, cause: Cause<'a>) -> Option<&Sent> {
        match cause {
            Cause::Letter { place } => self.letters.get(place),
            _ => None,
        }
    }

    /// The place of the interval that sent what an interval received, if that is a letter.
    pub(crate) fn sender(&self, cause: Cause<'a>) -> Option<usize> {
        Some(self.letter(cause)?.sender)
    }

    /// From whom an interval received which text. A beginning received none.
    pub(crate) fn received(&self, cause: Cause<'a>) -> Option<(Source, &Text)> {
        match cause {
            Cause::Outside { text, .. } => Some((Source::Outside, text)),
            _ => {
                let letter = self.letter(cause)?;
                Some((Source::Unit(letter.source), &letter.text))
            }
        }
    }

    /// What the interval has come to.
    pub(crate) fn status(&self, interval: &Interval<'a>) -> Status {
        match interval.removal {
            Some(Removal::Kill { .. }) => Status::Lost,
            Some(Removal::Rollback { .. }) => Status::Cut,
            None => self.standing(interval),
        }
    }

    /// What an interval has come to that is on its unit's path.
    fn standing(&self, interval: &Interval<'a>) -> Status {
        if !self.is_stable(usize::from(interval.unit.number()), interval.mark) {
            Status::Volatile
        } else if self.is_firm(interval) {
            Status::Firm
        } else {
            Status::Stable
        }
    }

    /// Whether all of the interval's past is logged. A unit's intervals in one past are on one line, so
    /// that its greatest mark tells of them all.
    fn is_firm(&self, interval: &Interval<'a>) -> bool {
        for (unit, mark) in interval.vector.as_slice().iter().enumerate() {
            if !self.is_stable(unit, *mark) {
                return false;
            }
        }
        true
    }

    /// Whether the unit's interval of this mark is on its path.
    pub(crate) fn is_on_path(&self, unit: Unit, mark: Mark) -> bool {
        match self.lane(unit) {
            Some(lane) => self.is_at(lane, mark.index as usize, mark),
            None => false,
        }
    }

    /// Whether the unit's interval of this mark is on its path, and logged.
    pub(crate) fn is_stable(&self, unit: usize, mark: Mark) -> bool {
        let Some(lane) = self.lanes.get(unit) else {
            return false;
        };
        let index = mark.index as usize;
        index < lane.stable && self.is_at(lane, index, mark)
    }

    /// Whether the interval at this place of the path has this mark.
    fn is_at(&self, lane: &Lane<'a>, index: usize, mark: Mark) -> bool {
        let Some(place) = lane.path.get(index) else {
            return false;
        };
        match self.intervals.get(*place) {
            Some(interval) => interval.mark == mark,
            None => false,
        }
    }

    /// Whether the outputs of the interval have left.
    pub(crate) fn is_released(&self, interval: &Interval<'a>) -> bool {
        match self.lane(interval.unit) {
            Some(lane) => { interval.removal.is_none() && interval.outputs_before < lane.released }
            None => false,
        }
    }

    /// How many intervals have come to this.
    pub(crate) fn count(&self, status: Status) -> usize {
        let mut count = 0usize;
        for interval in &self.intervals {
            if self.status(interval) == status {
                count = count.saturating_add(1);
            }
        }
        count
    }

    /// How many letters no interval on a path received.
    pub(crate) fn undelivered(&self) -> usize {
        let mut count = 0usize;
        for letter in &self.letters {
            if !letter.is_received {
                count = count.saturating_add(1);
            }
        }
        count
    }

    /// How many outputs were released.
    pub(crate) fn released(&self) -> usize {
        let mut count = 0usize;
        for lane in &self.lanes {
            count = count.saturating_add(lane.released);
        }
        count
    }

    /// How many outputs the unit's path has.
    pub(crate) fn outputs(&self, unit: Unit) -> usize {
        match self.last(unit) {
            Some(interval) => interval
                .outputs_before
                .saturating_add(interval.outputs.len()),
            None => 0,
        }
    }

    /// How many outputs are held.
    pub(crate) fn held(&self) -> usize {
        let mut count = 0usize;
        for lane in &self.lanes {
            let outputs = self.outputs(lane.seat.unit);
            count = count.saturating_add(outputs.saturating_sub(lane.released));
        }
        count
    }
}
