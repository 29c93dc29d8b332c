//! The marks of intervals, and the signs.

use crate::interval::{Event, Interval, Sign, Status};
use crate::layout::Layout;
use crate::notes::{add_interval_note, add_sign_note, status_name};
use crate::picture::Picture;
use crate::style::{
    CHECKPOINT, CUT, FIRM, FLUSH, HELD, KILL, LOST, NOTICE, RELEASE, RELEASED, RESTART, ROLLBACK,
    STABLE, VOLATILE,
};
use crate::writer::Writer;
use model::{Mark, Start};

/// Adds a mark for each interval in a column that is drawn.
pub(crate) fn add_intervals(svg: &mut Writer, picture: &Picture<'_>, layout: &Layout) {
    for interval in &picture.intervals {
        if layout.columns.has(interval.column) {
            add_interval(svg, picture, layout, interval);
        }
    }
}

fn add_interval<'a>(
    svg: &mut Writer,
    picture: &Picture<'a>,
    layout: &Layout,
    interval: &Interval<'a>,
) {
    let status = picture.status(interval);
    svg.push("<g class=\"interval ");
    svg.push(status_name(status));
    svg.push("\"");
    svg.add_position(layout.point(interval.column, interval.unit));
    add_interval_note(svg, picture, interval, status);
    svg.push(shape(status));
    svg.push(badge(picture, interval));
    add_mark_label(svg, interval.mark);
}

/// Adds the mark below an interval, and ends its group.
pub(crate) fn add_mark_label(svg: &mut Writer, mark: Mark) {
    let Mark { incarnation, index } = mark;
    write!(
        svg,
        "<text class=\"mark\" y=\"24\">{incarnation},{index}</text></g>\n",
    );
}

/// The shape of an interval's mark.
pub(crate) fn shape(status: Status) -> &'static str {
    match status {
        Status::Firm => FIRM,
        Status::Stable => STABLE,
        Status::Volatile => VOLATILE,
        Status::Lost => LOST,
        Status::Cut => CUT,
    }
}

/// The badge of an interval on a path that put something out.
fn badge<'a>(picture: &Picture<'a>, interval: &Interval<'a>) -> &'static str {
    if interval.outputs.is_empty() || interval.removal.is_some() {
        ""
    } else if picture.is_released(interval) {
        RELEASED
    } else {
        HELD
    }
}

/// Adds each sign in a column that is drawn.
pub(crate) fn add_signs(svg: &mut Writer, picture: &Picture<'_>, layout: &Layout) {
    for sign in &picture.signs {
        if layout.columns.has(sign.column) {
            add_sign(svg, layout, sign);
        }
    }
}

fn add_sign(svg: &mut Writer, layout: &Layout, sign: &Sign) {
    svg.push("<g");
    svg.add_position(layout.point(sign.column, sign.unit));
    add_sign_note(svg, sign);
    add_sign_shape(svg, sign.event);
}

/// Adds the shape of a sign, with a row below it where it began one, and ends its group.
pub(crate) fn add_sign_shape(svg: &mut Writer, event: Event) {
    svg.push(sign_shape(event));
    if let Event::Restart { row } | Event::Rollback { row } = event {
        add_row_label(svg, row);
    }
    svg.push("</g>\n");
}

/// Adds the row below a sign.
fn add_row_label(svg: &mut Writer, row: Start) {
    let Start { incarnation, index } = row;
    write!(
        svg,
        "<text class=\"row\" y=\"24\">{incarnation}:{index}</text>",
    );
}

/// The shape of a sign.
fn sign_shape(event: Event) -> &'static str {
    match event {
        Event::Flush { .. } => FLUSH,
        Event::Release { .. } => RELEASE,
        Event::Checkpoint { .. } => CHECKPOINT,
        Event::Kill { .. } => KILL,
        Event::Restart { .. } => RESTART,
        Event::Rollback { .. } => ROLLBACK,
        Event::Notice { .. } => NOTICE,
    }
}
