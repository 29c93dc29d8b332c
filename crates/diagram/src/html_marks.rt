//! The intervals, outputs and signs of a page.

use crate::facts::{View, add_facts, add_place, add_reference};
use crate::interval::{Interval, Sign};
use crate::layout::Layout;
use crate::marks::{add_mark_label, add_sign_shape, shape};
use crate::notes::{Shown, add_sign_note, add_source, status_name};
use crate::picture::Picture;
use crate::style::{BADGE_HIT, HELD, HIT, RELEASED};
use crate::writer::Writer;
use model::NoMemory;
use std::alloc::Global;

/// Adds a mark for each interval in a column that is drawn, and a badge for what it put out; of others that one of
/// these depends on, what is known of them, where that isn't settled before the first column that is drawn.
pub(crate) fn add_intervals(page: &mut Writer, view: &View<'_, '_>) {
    for (place, interval) in view.picture.intervals.iter().enumerate() {
        if view.draws(interval) {
            add_interval(page, view, interval);
            add_outputs(page, view, interval);
        } else if is_set(view.needed, place) && !view.is_settled(interval) {
            page.push("<g class=\"interval undrawn\"");
            add_facts(page, view, interval);
            page.push("/>\n");
        }
    }
}

/// Whether it is set for this place.
fn is_set(flags: &[bool], place: usize) -> bool {
    flags.get(place).copied().unwrap_or(false)
}

/// For each interval, whether one that is drawn depends on it.
pub(crate) fn needed(
    alloc: Global,
    picture: &Picture<'_>,
    layout: &Layout,
) -> Result<Vec<bool>, NoMemory> {
    let mut needed = Vec::new(alloc);
    for interval in &picture.intervals {
        needed.push(layout.columns.has(interval.column))?;
    }
    need_causes(&mut needed, picture);
    Ok(needed)
}

/// Needs also what a needed interval came behind, and what sent it its letter.
fn need_causes(needed: &mut [bool], picture: &Picture<'_>) {
    for place in (0..picture.intervals.len()).rev() {
        if let (true, Some(interval)) = (is_set(needed, place), picture.intervals.get(place)) {
            set(needed, interval.before);
            set(needed, picture.sender(interval.cause));
        }
    }
}

/// Sets it for this place, if there is one.
fn set(flags: &mut [bool], place: Option<usize>) {
    if let Some(place) = place {
        if let Some(flag) = flags.get_mut(place) {
            *flag = true;
        }
    }
}

fn add_interval<'a>(page: &mut Writer, view: &View<'_, 'a>, interval: &Interval<'a>) {
    let status = view.picture.status(interval);
    page.push("<g class=\"interval ");
    page.push(status_name(status));
    page.push("\" role=\"img\"");
    add_facts(page, view, interval);
    page.add_position(view.layout.point(interval.column, interval.unit));
    add_title(page, view, interval);
    page.push(HIT);
    page.push(shape(status));
    add_mark_label(page, interval.mark);
}

/// Adds the title of an interval: its unit, its mark, and what it received.
fn add_title<'a>(page: &mut Writer, view: &View<'_, 'a>, interval: &Interval<'a>) {
    let (unit, mark) = (interval.unit.number(), Shown(interval.mark));
    write!(page, "<title>unit {unit} {mark}\n");
    add_source(page, view.picture, interval);
    page.push("</title>");
}

/// Adds the badge of an interval that put something out, with the texts. It isn't seen where the interval is undone.
fn add_outputs<'a>(page: &mut Writer, view: &View<'_, 'a>, interval: &Interval<'a>) {
    if interval.outputs.is_empty() {
        return;
    }
    let (off, badge) = (off_class(interval), badge(interval));
    page.push("<g class=\"outputs");
    page.push(off);
    page.push("\" role=\"img\"");
    add_reference(page, "of", interval);
    page.add_position(view.layout.point(interval.column, interval.unit));
    add_texts(page, interval);
    page.push(BADGE_HIT);
    page.push(badge);
    page.push("</g>\n");
}

/// What the class of a badge has besides where its interval is undone.
fn off_class(interval: &Interval<'_>) -> &'static str {
    if interval.removal.is_some() {
        " off"
    } else {
        ""
    }
}

/// The badge of an interval that put something out.
fn badge(interval: &Interval<'_>) -> &'static str {
    if interval.released.is_some() {
        RELEASED
    } else {
        HELD
    }
}

/// Adds the title of a badge: what the interval put out.
fn add_texts(page: &mut Writer, interval: &Interval<'_>) {
    let (unit, mark) = (interval.unit.number(), Shown(interval.mark));
    write!(page, "<title>outputs of unit {unit} {mark}");
    for output in &interval.outputs {
        page.push("\n");
        page.add_text(output.as_str());
    }
    page.push("</title>");
}

/// Adds each sign in a column that is drawn.
pub(crate) fn add_signs(page: &mut Writer, view: &View<'_, '_>) {
    for sign in &view.picture.signs {
        if view.layout.columns.has(sign.column) {
            add_sign(page, view, sign);
        }
    }
}

fn add_sign(page: &mut Writer, view: &View<'_, '_>, sign: &Sign) {
    page.push("<g class=\"event\" role=\"img\"");
    add_place(page, view, sign.unit, sign.column);
    page.add_position(view.layout.point(sign.column, sign.unit));
    add_sign_note(page, sign);
    page.push(HIT);
    add_sign_shape(page, sign.event);
}
