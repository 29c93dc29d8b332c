//! The letters of a page.

use crate::facts::{View, add_reference};
use crate::interval::{Interval, Sent};
use crate::layout::Layout;
use crate::letters::{ARROW, SHORT_ARROW, add_course, add_short_course, gone_class};
use crate::notes::add_letter_note;
use crate::writer::Writer;

/// Up to the course of a path that is there to be hit.
const HIT_PATH: &str = "<path class=\"hit\" d=\"";

/// The end of a path, and of its group.
const END_PATH: &str = "\"/></g>\n";

/// Adds an arrow for each receipt of a letter, and a short one for each letter, which is seen while no interval on a
/// path has received it.
pub(crate) fn add_letters(page: &mut Writer, view: &View<'_, '_>) {
    for receipt in &view.picture.intervals {
        if let Some(letter) = view.picture.letter(receipt.cause) {
            add_arrow(page, view, letter, receipt);
        }
    }
    for letter in &view.picture.letters {
        add_short_arrow(page, view, letter);
    }
}

/// The column in which the interval was undone, if it was.
fn gone(interval: &Interval<'_>) -> Option<usize> {
    Some(interval.removal?.column())
}

/// The first column in which either was undone, if one was.
fn first_gone(one: Option<usize>, other: Option<usize>) -> Option<usize> {
    match (one, other) {
        (Some(one), Some(other)) => Some(one.min(other)),
        (one, None) => one,
        (None, other) => other,
    }
}

/// Adds the arrow of a letter to the interval that received it, where either end is drawn.
fn add_arrow<'a>(page: &mut Writer, view: &View<'_, 'a>, letter: &Sent, receipt: &Interval<'a>) {
    let Some(sender) = view.picture.intervals.get(letter.sender) else {
        return;
    };
    if !view.draws(sender) && !view.draws(receipt) {
        return;
    }
    let undone = first_gone(gone(sender), gone(receipt));
    page.push("<g class=\"send\"");
    add_ends(page, letter, sender, undone);
    add_receipt(page, receipt);
    add_note(page, view, letter);
    add_paths(page, view.layout, sender, receipt, undone.is_some());
}

/// Adds which interval received a letter, when, and when that was undone.
fn add_receipt(page: &mut Writer, receipt: &Interval<'_>) {
    add_reference(page, "to", receipt);
    page.add_number("column", Some(receipt.column));
    page.add_number("until", gone(receipt));
}

/// Adds the course of an arrow, wide to be hit and as it is seen, and ends its group.
fn add_paths(
    page: &mut Writer,
    layout: &Layout,
    sender: &Interval<'_>,
    receipt: &Interval<'_>,
    is_gone: bool,
) {
    page.push(HIT_PATH);
    add_course(page, layout, sender, receipt);
    page.push("\"/><path class=\"letter");
    page.push(gone_class(is_gone));
    page.push(ARROW);
    add_course(page, layout, sender, receipt);
    page.push(END_PATH);
}

/// Adds the short arrow of a letter, where its sender is drawn.
fn add_short_arrow(page: &mut Writer, view: &View<'_, '_>, letter: &Sent) {
    let Some(sender) = view.picture.intervals.get(letter.sender) else {
        return;
    };
    if !view.draws(sender) {
        return;
    }
    let off = if letter.is_received { " off" } else { "" };
    page.push("<g class=\"send");
    page.push(off);
    page.push("\"");
    add_ends(page, letter, sender, gone(sender));
    page.add_number("column", Some(sender.column));
    add_note(page, view, letter);
    add_short_paths(page, view.layout, letter, sender);
}

/// Adds the course of a short arrow, wide to be hit and as it is seen, and ends its group.
fn add_short_paths(page: &mut Writer, layout: &Layout, letter: &Sent, sender: &Interval<'_>) {
    let class = gone_class(sender.removal.is_some());
    page.push(HIT_PATH);
    add_short_course(page, layout, letter, sender);
    page.push("\"/><path class=\"letter undelivered");
    page.push(class);
    page.push(SHORT_ARROW);
    add_short_course(page, layout, letter, sender);
    page.push(END_PATH);
}

/// Adds the letter's number, its sender, its receiver, and in which column one of its ends was undone.
fn add_ends(page: &mut Writer, letter: &Sent, sender: &Interval<'_>, undone: Option<usize>) {
    let (number, receiver) = (letter.number.number(), letter.receiver.number());
    page.push(" role=\"img\"");
    page.add_number("letter", Some(number as usize));
    add_reference(page, "from", sender);
    page.add_number("receiver", Some(usize::from(receiver)));
    page.add_number("gone", undone);
}

/// Ends the tag, and adds the title of the letter.
fn add_note(page: &mut Writer, view: &View<'_, '_>, letter: &Sent) {
    page.push(">");
    add_letter_note(page, view.picture, letter, "\n");
}
