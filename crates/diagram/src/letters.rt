//! The arrows of letters.

use crate::interval::{Interval, Sent};
use crate::layout::{Layout, Point};
use crate::notes::add_letter_note;
use crate::picture::Picture;
use crate::writer::Writer;

/// From the class of an arrow to its course.
pub(crate) const ARROW: &str = "\" marker-end=\"url(#head)\" d=\"";

/// The same of a short arrow.
pub(crate) const SHORT_ARROW: &str = "\" marker-end=\"url(#tip)\" d=\"";

/// Adds an arrow for each receipt of a letter, and a short one for each letter that no interval on a
/// path received.
pub(crate) fn add_letters(svg: &mut Writer, picture: &Picture<'_>, layout: &Layout) {
    for receipt in &picture.intervals {
        if let Some(letter) = picture.letter(receipt.cause) {
            add_arrow(svg, picture, layout, letter, receipt);
        }
    }
    for letter in &picture.letters {
        if !letter.is_received {
            add_short_arrow(svg, picture, layout, letter);
        }
    }
}

/// Adds the arrow of a letter to the interval that received it, where either end is drawn.
fn add_arrow<'a>(
    svg: &mut Writer,
    picture: &Picture<'a>,
    layout: &Layout,
    letter: &Sent,
    receipt: &Interval<'a>,
) {
    let Some(sender) = picture.intervals.get(letter.sender) else {
        return;
    };
    if !layout.columns.has(sender.column) && !layout.columns.has(receipt.column) {
        return;
    }
    let class = gone_class(sender.removal.is_some() || receipt.removal.is_some());
    svg.push("<path class=\"letter");
    svg.push(class);
    svg.push(ARROW);
    add_course(svg, layout, sender, receipt);
    add_title(svg, picture, letter);
}

/// Adds the title of a letter, and ends its arrow.
fn add_title(svg: &mut Writer, picture: &Picture<'_>, letter: &Sent) {
    svg.push("\">");
    add_letter_note(svg, picture, letter, ": ");
    svg.push("</path>\n");
}

/// What the class of an arrow has besides where one of its ends was undone.
pub(crate) fn gone_class(is_gone: bool) -> &'static str {
    if is_gone { " gone" } else { "" }
}

/// Adds the course from one interval to another: straight, or in an arc where they are of one unit.
pub(crate) fn add_course(
    svg: &mut Writer,
    layout: &Layout,
    sender: &Interval<'_>,
    receipt: &Interval<'_>,
) {
    let start = layout.point(sender.column, sender.unit);
    let end = layout.point(receipt.column, receipt.unit);
    if start.y == end.y {
        let peak = Point {
            x: start.x.midpoint(end.x),
            y: start.y.saturating_sub(48),
        };
        write!(svg, "M{start}Q{peak} {end}");
    } else {
        write!(svg, "M{start}L{end}");
    }
}

/// Adds the short arrow of a letter that wasn't delivered, towards its receiver, where its sender is drawn.
fn add_short_arrow(svg: &mut Writer, picture: &Picture<'_>, layout: &Layout, letter: &Sent) {
    let Some(sender) = picture.intervals.get(letter.sender) else {
        return;
    };
    if !layout.columns.has(sender.column) {
        return;
    }
    let class = gone_class(sender.removal.is_some());
    svg.push("<path class=\"letter undelivered");
    svg.push(class);
    svg.push(SHORT_ARROW);
    add_short_course(svg, layout, letter, sender);
    add_title(svg, picture, letter);
}

/// Adds a short course from the sender towards the letter's receiver.
pub(crate) fn add_short_course(
    svg: &mut Writer,
    layout: &Layout,
    letter: &Sent,
    sender: &Interval<'_>,
) {
    let start = layout.point(sender.column, sender.unit);
    // Downwards to a unit below, past the mark's label, or else upwards, past its badge.
    let course = if letter.source < letter.receiver {
        "l28 24"
    } else {
        "l8 -36"
    };
    write!(svg, "M{start}{course}");
}
