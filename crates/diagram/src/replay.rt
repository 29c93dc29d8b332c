//! The picture of a tenant from the entries of a history.

use crate::interval::{Cause, Interval};
use crate::picture::Picture;
use depvector::DepVector;
use handler::{AskRef, Handler, Turn};
use model::{Entry, Kind, Letter, Mark, NoMemory, Reply, Seat, Step, TenantName, Text, Unit};
use std::alloc::Global;

/// Units that a vector can have an entry for.
const MOST_ENTRIES: usize = 256;

/// The mark of every unit's beginning.
const BEGINNING: Mark = Mark {
    incarnation: 0,
    index: 0,
};

/// Follows a tenant's entries, and works its turns.
#[derive(Drop)]
struct Replay<'h, 'a, H: Handler> {
    alloc: Global,
    handler: &'h H,
    /// The state at each interval.
    states: Vec<H::State>,
    picture: Picture<'a>,
}

/// The picture of a tenant by its entries of a history. The only error is want of memory.
pub(crate) fn picture_of<'a, H: Handler>(
    alloc: Global,
    handler: &H,
    history: &'a [Entry],
    tenant: &TenantName,
) -> Result<Picture<'a>, NoMemory> {
    let mut replay = Replay::new(alloc, handler);
    replay.follow(history, tenant)?;
    Ok(replay.into_picture())
}

/// The same of a tenant whose entries stand at these places of the history.
pub(crate) fn picture_at<'a, H: Handler>(
    alloc: Global,
    handler: &H,
    history: &'a [Entry],
    places: &[usize],
) -> Result<Picture<'a>, NoMemory> {
    let mut replay = Replay::new(alloc, handler);
    replay.follow_places(history, places)?;
    Ok(replay.into_picture())
}

/// Marks the letters that an interval on a path received.
fn mark_received(picture: &mut Picture<'_>) {
    for interval in &picture.intervals {
        if let (Cause::Letter { place }, None) = (interval.cause, interval.removal) {
            if let Some(letter) = picture.letters.get_mut(place) {
                letter.is_received = true;
            }
        }
    }
}

impl<'h, 'a, H: Handler> Replay<'h, 'a, H> {
    /// Before a tenant's first entry.
    fn new(alloc: Global, handler: &'h H) -> Replay<'h, 'a, H> {
        Replay {
            alloc,
            handler,
            states: Vec::new(alloc),
            picture: Picture::new(alloc),
        }
    }

    /// The picture after what was followed.
    fn into_picture(self) -> Picture<'a> {
        let Replay { mut picture, .. } = self;
        mark_received(&mut picture);
        picture
    }

    /// Follows the tenant's entries.
    fn follow(&mut self, history: &'a [Entry], tenant: &TenantName) -> Result<(), NoMemory> {
        for (place, entry) in history.iter().enumerate() {
            if *tenant == *entry.step.tenant() {
                self.enter_at(place, entry)?;
            }
        }
        Ok(())
    }

    /// Follows the entries at these places of the history.
    fn follow_places(&mut self, history: &'a [Entry], places: &[usize]) -> Result<(), NoMemory> {
        for place in places {
            if let Some(entry) = history.get(*place) {
                self.enter_at(*place, entry)?;
            }
        }
        Ok(())
    }

    /// Follows the entry at this place of the history.
    fn enter_at(&mut self, place: usize, entry: &'a Entry) -> Result<(), NoMemory> {
        self.picture.entry = place;
        self.enter(entry)
    }

    /// Follows one entry.
    fn enter(&mut self, entry: &'a Entry) -> Result<(), NoMemory> {
        match &entry.step {
            Step::Open { kinds, .. } => self.open(kinds.as_slice(), &entry.reply),
            Step::Join { kind, .. } => self.join(kind.as_str(), &entry.reply),
            Step::Post {
                unit,
                number,
                text,
                ..
            } => self.receive(
                *unit,
                Cause::Outside {
                    number: *number,
                    text,
                },
                &entry.reply,
            ),
            Step::Deliver { letter, .. } => self.deliver(*letter, &entry.reply),
            Step::Flush { unit, .. }
            | Step::Checkpoint { unit, .. }
            | Step::Kill { unit, .. }
            | Step::Restart { unit, .. }
            | Step::Notice { unit, .. }
            | Step::Release { unit, .. } => self.picture.change(*unit, &entry.reply),
            Step::Status { .. } => Ok(()),
        }
    }

    /// The first units begin, in one column.
    fn open(&mut self, kinds: &'a [Text], reply: &Reply) -> Result<(), NoMemory> {
        if let Reply::Opened { .. } = reply {
            for kind in kinds {
                self.add_unit(kind.as_str(), kinds.len())?;
            }
            self.picture.end_column()?;
        }
        Ok(())
    }

    /// One more unit begins.
    fn join(&mut self, kind: &'a str, reply: &Reply) -> Result<(), NoMemory> {
        if let Reply::Joined { .. } = reply {
            let home = self.picture.lanes.len().saturating_add(1);
            self.add_unit(kind, home)?;
            self.picture.end_column()?;
        }
        Ok(())
    }

    /// Adds a unit with its beginning, in the present column. No tenant has more than 255 units.
    fn add_unit(&mut self, kind: &'a str, home: usize) -> Result<(), NoMemory> {
        let number = u8::try_from(self.picture.lanes.len());
        if let (Ok(number), Ok(home)) = (number, u8::try_from(home)) {
            let seat = Seat {
                unit: Unit::new(number),
                kind: self.handler.kind(kind).unwrap_or(Kind::new(0)),
                home,
            };
            self.begin(seat, kind)?;
        }
        Ok(())
    }

    /// The unit at this seat begins.
    fn begin(&mut self, seat: Seat, kind: &'a str) -> Result<(), NoMemory> {
        let (alloc, handler) = (self.alloc, self.handler);
        let Seat { unit, home, .. } = seat;
        self.picture.add_lane(seat, kind, Vec::new(alloc))?;
        self.states.push(handler.begin(alloc, seat)?)?;
        let vector = DepVector::new(alloc, usize::from(home))?;
        self.add_interval(unit, BEGINNING, Cause::Begin, vector, Vec::new(alloc))
    }

    /// The letter's receiver receives it.
    fn deliver(&mut self, letter: Letter, reply: &Reply) -> Result<(), NoMemory> {
        let Some(place) = self.picture.letter_place(letter) else {
            return Ok(());
        };
        let cause = Cause::Letter { place };
        let Some(letter) = self.picture.letter(cause) else {
            return Ok(());
        };
        let receiver = letter.receiver;
        self.receive(receiver, cause, reply)
    }

    /// A unit receives something: where it was accepted, an interval begins.
    fn receive(&mut self, unit: Unit, cause: Cause<'a>, reply: &Reply) -> Result<(), NoMemory> {
        let Reply::Accepted { at, letters, .. } = reply else {
            return Ok(());
        };
        let (Some(turn), Some(vector)) = (self.turn(unit, cause)?, self.vector(unit, *at, cause)?)
        else {
            return Ok(());
        };
        let Turn {
            state,
            sends,
            outputs,
        } = turn;
        self.states.push(state)?;
        self.add_letters(unit, sends, letters.as_slice())?;
        self.add_interval(unit, *at, cause, vector, outputs)?;
        self.picture.end_column()
    }

    /// The turn of the unit, if the tenant has the unit. What it passes on of a text shares the text's place.
    fn turn(&self, unit: Unit, cause: Cause<'a>) -> Result<Option<Turn<H::State>>, NoMemory> {
        let (Some(lane), Some(state)) = (self.picture.lane(unit), self.state(unit)) else {
            return Ok(None);
        };
        let Some((source, text)) = self.picture.received(cause) else {
            return Ok(None);
        };
        let ask = AskRef {
            seat: lane.seat,
            state,
            source,
            text,
        };
        Ok(Some(ask.work(self.alloc, self.handler)?))
    }

    /// The state of the unit at the end of its path.
    fn state(&self, unit: Unit) -> Option<&H::State> {
        let place = *self.picture.lane(unit)?.path.last()?;
        self.states.get(place)
    }

    /// The vector of the interval that begins: the later marks of the interval before it and of the
    /// letter's sender, with its own mark.
    fn vector(
        &self,
        unit: Unit,
        mark: Mark,
        cause: Cause<'a>,
    ) -> Result<Option<DepVector>, NoMemory> {
        let Some(before) = self.picture.last(unit) else {
            return Ok(None);
        };
        let mut vector = before.vector.copy()?;
        vector.widen(self.picture.lanes.len().min(MOST_ENTRIES))?;
        if let Some(sender) = self.sender(cause) {
            if sender.vector.len() <= vector.len() {
                vector.join(&sender.vector);
            }
        }
        if usize::from(unit.number()) < vector.len() {
            vector.set_own(unit, mark);
        }
        Ok(Some(vector))
    }

    /// The interval that sent what is received, if it is a letter.
    fn sender(&self, cause: Cause<'a>) -> Option<&Interval<'a>> {
        self.picture.intervals.get(self.picture.sender(cause)?)
    }

    /// Adds the letters that the next interval sends. A send to a unit that the tenant doesn't have
    /// goes nowhere, and has no number.
    fn add_letters(
        &mut self,
        unit: Unit,
        sends: Vec<(Unit, Text)>,
        numbers: &[Letter],
    ) -> Result<(), NoMemory> {
        let mut left = numbers.iter();
        for (receiver, text) in sends {
            if self.picture.lane(receiver).is_some() {
                if let Some(number) = left.next() {
                    self.picture.add_letter(*number, unit, receiver, text)?;
                }
            }
        }
        Ok(())
    }

    /// Adds the interval to the end of its unit's path, in the present column.
    fn add_interval(
        &mut self,
        unit: Unit,
        mark: Mark,
        cause: Cause<'a>,
        vector: DepVector,
        outputs: Vec<Text>,
    ) -> Result<(), NoMemory> {
        let place = self.picture.intervals.len();
        let outputs_before = self.picture.outputs(unit);
        let column = self.picture.columns;
        let entry = self.picture.entry;
        let before = self.picture.last_place(unit);
        let logged = before.is_none().then_some(column);
        self.picture.intervals.push(Interval {
            unit,
            mark,
            column,
            entry,
            cause,
            before,
            vector,
            outputs,
            outputs_before,
            logged,
            released: None,
            removal: None,
        })?;
        if let Some(lane) = self.picture.lanes.get_mut(usize::from(unit.number())) {
            lane.path.push(place)?;
        }
        Ok(())
    }
}
