//! Where things stand on the page, in pixels. Sums saturate: past any page that can be looked at.

use crate::picture::Picture;
use crate::window::{Columns, Window};
use model::{Mark, Unit};
use std::fmt;

/// Left of the first column stand the labels of the units.
pub(crate) const LEFT: usize = 112;

/// Right of the last column.
const RIGHT: usize = 32;

/// Above the first unit's line stand the title and the columns' numbers.
const TOP: usize = 148;

/// From one unit's line to the next.
const LANE: usize = 84;

/// The legend, below the last unit's line.
const LEGEND: usize = 172;

/// The title and the legend need as much.
const LEAST_WIDTH: usize = 760;

/// Columns are this wide while there are few.
const WIDE: usize = 56;

/// Columns are this wide at least.
const NARROW: usize = 30;

/// How many columns are few.
const FEW: usize = 60;

/// A digit of a label, and the room beside a label.
const DIGIT: usize = 7;

const GAP: usize = 10;

/// A point of the page.
#[derive(Clone, Copy)]
pub(crate) struct Point {
    pub x: usize,
    pub y: usize,
}

impl fmt::Display for Point {
    fn fmt<W: fmt::Write>(&self, f: &mut fmt::Formatter<W>) -> fmt::Result {
        write!(f, "{} {}", self.x, self.y)
    }
}

/// Where things stand.
#[derive(Clone, Copy)]
pub(crate) struct Layout {
    pub columns: Columns,
    /// How wide a column is.
    step: usize,
    units: usize,
}

/// How many digits the number has.
fn digits(number: u32) -> usize {
    match number.checked_ilog10() {
        Some(log) => log as usize + 1,
        None => 1,
    }
}

/// How wide the label of a mark is.
fn label_width(mark: Mark) -> usize {
    let count = digits(mark.incarnation).saturating_add(digits(mark.index));
    count.saturating_add(1).saturating_mul(DIGIT)
}

impl Layout {
    /// The layout of the window's columns.
    pub(crate) fn new(picture: &Picture<'_>, window: Window) -> Layout {
        let columns = window.columns(picture.columns);
        let mut step = if columns.count() <= FEW { WIDE } else { NARROW };
        for interval in &picture.intervals {
            if columns.has(interval.column) {
                step = step.max(label_width(interval.mark).saturating_add(GAP));
            }
        }
        Layout {
            columns,
            step,
            units: picture.lanes.len(),
        }
    }

    /// How wide a column is.
    pub(crate) fn step(&self) -> usize {
        self.step
    }

    /// The middle of the column. One that isn't drawn stands at the edge that it lies beyond.
    pub(crate) fn x(&self, column: usize) -> usize {
        if column < self.columns.first {
            return LEFT.saturating_sub(16);
        }
        let count = column
            .min(self.columns.end)
            .saturating_sub(self.columns.first);
        count
            .saturating_mul(self.step)
            .saturating_add(self.step / 2)
            .saturating_add(LEFT)
    }

    /// The line of the unit.
    pub(crate) fn y(&self, unit: Unit) -> usize {
        usize::from(unit.number())
            .saturating_mul(LANE)
            .saturating_add(TOP)
    }

    /// Where the column meets the line of the unit.
    pub(crate) fn point(&self, column: usize, unit: Unit) -> Point {
        Point {
            x: self.x(column),
            y: self.y(unit),
        }
    }

    /// Where the label of the unit stands.
    pub(crate) fn label(&self, unit: Unit) -> Point {
        Point {
            x: 24,
            y: self.y(unit),
        }
    }

    /// The end of the units' lines.
    pub(crate) fn right(&self) -> usize {
        self.columns
            .count()
            .saturating_mul(self.step)
            .saturating_add(LEFT)
    }

    /// The width of the page.
    pub(crate) fn width(&self) -> usize {
        self.right().saturating_add(RIGHT).max(LEAST_WIDTH)
    }

    /// Where the legend begins.
    pub(crate) fn legend(&self) -> usize {
        self.units.saturating_mul(LANE).saturating_add(TOP)
    }

    /// The height of the page.
    pub(crate) fn height(&self) -> usize {
        self.legend().saturating_add(LEGEND)
    }
}
