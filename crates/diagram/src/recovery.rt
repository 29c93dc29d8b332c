//! What flushes, releases, kills, restarts and notices change in a picture.

use crate::interval::{Downtime, Event, Lane, Removal, Sign};
use crate::picture::Picture;
use model::{NoMemory, Reply, Start, Unit};

impl<'a> Picture<'a> {
    /// What the reply to a step of one unit alone tells.
    pub(crate) fn change(&mut self, unit: Unit, reply: &Reply) -> Result<(), NoMemory> {
        match reply {
            Reply::Flushed { count } => self.flush(unit, *count),
            Reply::Stopped { count, .. } => self.flush(unit, *count),
            Reply::Released { outputs } => self.release(unit, outputs.as_slice().len()),
            Reply::Checkpointed { at } => self.add_sign(unit, Event::Checkpoint { mark: *at }),
            Reply::Killed { lost } => self.kill(unit, *lost),
            Reply::Restarted { row } => self.restart(unit, *row),
            Reply::Noticed { row: Some(row) } => self.roll_back(
                unit,
                Event::Rollback { row: *row },
                *row,
            ),
            Reply::Noticed { row: None } => self.learn(unit),
            _ => Ok(()),
        }
    }

    /// Adds a sign in a column of its own.
    fn add_sign(&mut self, unit: Unit, event: Event) -> Result<(), NoMemory> {
        self.signs.push(Sign {
            unit,
            column: self.columns,
            event,
        })?;
        self.end_column()
    }

    fn lane_mut(&mut self, unit: Unit) -> Option<&mut Lane<'a>> {
        self.lanes.get_mut(usize::from(unit.number()))
    }

    /// The stable length goes on.
    fn flush(&mut self, unit: Unit, count: u64) -> Result<(), NoMemory> {
        if count == 0 {
            return Ok(());
        }
        self.log(unit, count as usize);
        self.add_sign(unit, Event::Flush { count })
    }

    /// So many more intervals of the path are logged.
    fn log(&mut self, unit: Unit, count: usize) {
        let column = self.columns;
        let Some(lane) = self.lanes.get_mut(usize::from(unit.number())) else {
            return;
        };
        let first = lane.stable;
        lane.stable = first.saturating_add(count).min(lane.path.len());
        for place in lane.path.get(first..lane.stable).unwrap_or(&[]) {
            if let Some(interval) = self.intervals.get_mut(*place) {
                interval.logged = Some(column);
            }
        }
    }

    /// So many outputs left.
    fn release(&mut self, unit: Unit, count: usize) -> Result<(), NoMemory> {
        if count == 0 {
            return Ok(());
        }
        self.let_out(unit, count);
        self.add_sign(unit, Event::Release { count })
    }

    /// So many more outputs of the path have left.
    fn let_out(&mut self, unit: Unit, count: usize) {
        let column = self.columns;
        let Some(lane) = self.lanes.get_mut(usize::from(unit.number())) else {
            return;
        };
        lane.released = lane.released.saturating_add(count);
        for place in lane.path.get(lane.passed..).unwrap_or(&[]) {
            let Some(interval) = self.intervals.get_mut(*place) else {
                return;
            };
            if lane.released <= interval.outputs_before {
                return;
            }
            interval.released = Some(column);
            lane.passed = lane.passed.saturating_add(1);
        }
    }

    /// The path loses its last intervals, and the unit is down.
    fn kill(&mut self, unit: Unit, lost: u64) -> Result<(), NoMemory> {
        if let Some(lane) = self.lane(unit) {
            let kept = lane.path.len().saturating_sub(lost as usize);
            let column = self.columns;
            self.cut(unit, kept, Removal::Kill { column });
        }
        let down = self.downtimes.len();
        self.downtimes.push(Downtime {
            unit,
            first: self.columns,
            end: None,
        })?;
        if let Some(lane) = self.lane_mut(unit) {
            lane.down = Some(down);
        }
        self.add_sign(unit, Event::Kill { lost })
    }

    /// The unit is up again.
    fn restart(&mut self, unit: Unit, row: Start) -> Result<(), NoMemory> {
        let end = self.columns;
        if let Some(place) = self.down(unit) {
            if let Some(downtime) = self.downtimes.get_mut(place) {
                downtime.end = Some(end);
            }
        }
        if let Some(lane) = self.lane_mut(unit) {
            lane.down = None;
        }
        self.roll_back(unit, Event::Restart { row }, row)
    }

    /// The place of the downtime that the unit is in.
    fn down(&self, unit: Unit) -> Option<usize> {
        self.lane(unit)?.down
    }

    /// A row was appended: the path is cut from its start on, and the unit knows all rows.
    fn roll_back(&mut self, unit: Unit, event: Event, row: Start) -> Result<(), NoMemory> {
        let column = self.columns;
        self.cut(unit, row.index as usize, Removal::Rollback { column });
        self.rows = self.rows.saturating_add(1);
        let rows = self.rows;
        if let Some(lane) = self.lane_mut(unit) {
            lane.known = rows;
        }
        self.add_sign(unit, event)
    }

    /// A notice cut nothing. It is drawn where it told a row.
    fn learn(&mut self, unit: Unit) -> Result<(), NoMemory> {
        let rows = self.rows;
        let Some(lane) = self.lane_mut(unit) else {
            return Ok(());
        };
        let told = rows.saturating_sub(lane.known);
        lane.known = rows;
        if told == 0 {
            return Ok(());
        }
        self.add_sign(unit, Event::Notice { rows: told })
    }

    /// Takes all intervals from this index on off the path.
    fn cut(&mut self, unit: Unit, index: usize, removal: Removal) {
        let Some(lane) = self.lanes.get_mut(usize::from(unit.number())) else {
            return;
        };
        for place in lane.path.get(index..).unwrap_or(&[]) {
            if let Some(interval) = self.intervals.get_mut(*place) {
                interval.removal = Some(removal);
            }
        }
        lane.path.truncate(index);
        lane.stable = lane.stable.min(index);
        lane.passed = lane.passed.min(index);
    }
}
