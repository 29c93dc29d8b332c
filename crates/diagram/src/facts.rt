//! What the elements of a page tell its script: attributes that have numbers and names of intervals, and no text of a
//! step.

use crate::interval::{Interval, Removal};
use crate::layout::Layout;
use crate::picture::Picture;
use crate::writer::Writer;
use model::{Mark, Unit};
use std::fmt;

/// The mark of every unit's beginning.
const BEGINNING: Mark = Mark {
    incarnation: 0,
    index: 0,
};

/// What a page shows.
#[derive(Clone, Copy)]
pub(crate) struct View<'v, 'a> {
    pub picture: &'v Picture<'a>,
    pub layout: &'v Layout,
    /// The number of the line of each entry of the history.
    pub lines: &'v [u64],
    /// For each interval, whether one that is drawn depends on it.
    pub needed: &'v [bool],
}

impl<'v, 'a> View<'v, 'a> {
    /// The number of the line that a column shows, if it is known.
    pub(crate) fn line(&self, column: usize) -> Option<usize> {
        let entry = *self.picture.entries.get(column)?;
        let line = *self.lines.get(entry)?;
        Some(line as usize)
    }

    /// Whether the interval is in a column that is drawn.
    pub(crate) fn draws(&self, interval: &Interval<'a>) -> bool {
        self.layout.columns.has(interval.column)
    }

    /// Whether the interval was logged before the first column that is drawn, and stays on its path.
    pub(crate) fn is_settled(&self, interval: &Interval<'a>) -> bool {
        match (interval.logged, interval.removal) {
            (Some(column), None) => column < self.layout.columns.first,
            _ => false,
        }
    }
}

/// The name of an interval: `i`, and its unit, incarnation and index with hyphens between.
#[derive(Clone, Copy)]
pub(crate) struct Name(pub Unit, pub Mark);

impl fmt::Display for Name {
    fn fmt<W: fmt::Write>(&self, f: &mut fmt::Formatter<W>) -> fmt::Result {
        let Mark { incarnation, index } = self.1;
        write!(f, "i{}-{incarnation}-{index}", self.0.number())
    }
}

/// The name of an interval.
pub(crate) fn name_of(interval: &Interval<'_>) -> Name {
    Name(interval.unit, interval.mark)
}

/// Adds an attribute that names an interval.
pub(crate) fn add_reference(page: &mut Writer, attribute: &str, interval: &Interval<'_>) {
    write!(page, " data-{attribute}=\"{}\"", name_of(interval));
}

/// Adds where an event stands: its unit, its column and its line.
pub(crate) fn add_place(page: &mut Writer, view: &View<'_, '_>, unit: Unit, column: usize) {
    page.add_number("unit", Some(usize::from(unit.number())));
    page.add_number("column", Some(column));
    page.add_number("line", view.line(column));
}

/// Adds what is known of an interval: its name, its mark, when it came to be, was logged, left and was undone, the
/// interval before it, and the last interval of each unit in its past.
pub(crate) fn add_facts<'a>(page: &mut Writer, view: &View<'_, 'a>, interval: &Interval<'a>) {
    let Mark { incarnation, index } = interval.mark;
    let name = name_of(interval);
    write!(page, " id=\"{name}\" data-mark=\"{incarnation},{index}\"");
    add_place(page, view, interval.unit, interval.column);
    add_fate(page, interval);
    add_before(page, view, interval);
    add_past(page, interval);
}

/// Adds when an interval was logged, left and was undone.
fn add_fate(page: &mut Writer, interval: &Interval<'_>) {
    page.add_number("logged", interval.logged);
    if !interval.outputs.is_empty() {
        page.add_number("released", interval.released);
    }
    match interval.removal {
        Some(Removal::Kill { column }) => page.add_number("lost", Some(column)),
        Some(Removal::Rollback { column }) => page.add_number("cut", Some(column)),
        None => {}
    }
}

/// Adds the name of the interval before this one on its unit's path.
fn add_before<'a>(page: &mut Writer, view: &View<'_, 'a>, interval: &Interval<'a>) {
    let Some(place) = interval.before else {
        return;
    };
    if let Some(before) = view.picture.intervals.get(place) {
        add_reference(page, "before", before);
    }
}

/// Adds the names of the last interval of each unit in the interval's past. A beginning sends nothing, so that of
/// another unit's alone no interval depends.
fn add_past(page: &mut Writer, interval: &Interval<'_>) {
    page.push(" data-past=\"");
    let mut separator = "";
    let mut number = 0u8;
    for mark in interval.vector.as_slice() {
        let unit = Unit::new(number);
        if unit == interval.unit || *mark != BEGINNING {
            write!(page, "{separator}{}", Name(unit, *mark));
            separator = " ";
        }
        number = number.wrapping_add(1);
    }
    page.push("\"");
}
