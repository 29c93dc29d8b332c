//! What is told of a mark, a letter or a sign by its title.

use crate::interval::{Cause, Event, Interval, Sent, Sign, Status};
use crate::picture::Picture;
use crate::writer::Writer;
use model::{Mark, Start};
use std::fmt;

/// A mark as `[incarnation,index]`.
#[derive(Clone, Copy)]
pub(crate) struct Shown(pub Mark);

impl fmt::Display for Shown {
    fn fmt<W: fmt::Write>(&self, f: &mut fmt::Formatter<W>) -> fmt::Result {
        let Mark { incarnation, index } = self.0;
        write!(f, "[{incarnation},{index}]")
    }
}

/// The status in a word, which is the class of its marks too.
pub(crate) fn status_name(status: Status) -> &'static str {
    match status {
        Status::Firm => "firm",
        Status::Stable => "stable",
        Status::Volatile => "volatile",
        Status::Lost => "lost",
        Status::Cut => "cut",
    }
}

/// Adds the title of an interval: its unit, mark, status, source, text, vector and outputs.
pub(crate) fn add_interval_note<'a>(
    svg: &mut Writer,
    picture: &Picture<'a>,
    interval: &Interval<'a>,
    status: Status,
) {
    let unit = interval.unit.number();
    let mark = Shown(interval.mark);
    write!(svg, "<title>unit {unit} {mark}, {}\n", status_name(status));
    add_source(svg, picture, interval);
    svg.push("\nvector");
    for mark in interval.vector.as_slice() {
        write!(svg, " {}", Shown(*mark));
    }
    add_outputs(svg, picture, interval);
    svg.push("</title>");
}

/// Adds where what the interval received came from, and its text.
pub(crate) fn add_source<'a>(svg: &mut Writer, picture: &Picture<'a>, interval: &Interval<'a>) {
    match interval.cause {
        Cause::Begin => svg.push("its beginning"),
        Cause::Outside { number, text } => {
            write!(svg, "from outside, number {number}: ");
            svg.add_text(text.as_str());
        }
        Cause::Letter { .. } => {
            if let Some(letter) = picture.letter(interval.cause) {
                add_letter(svg, picture, letter);
                svg.push(": ");
                svg.add_text(letter.text.as_str());
            }
        }
    }
}

/// Adds the letter's number and its sender.
pub(crate) fn add_letter(svg: &mut Writer, picture: &Picture<'_>, letter: &Sent) {
    let number = letter.number.number();
    let source = letter.source.number();
    write!(svg, "letter {number} from unit {source}");
    if let Some(sender) = picture.intervals.get(letter.sender) {
        write!(svg, " {}", Shown(sender.mark));
    }
}

/// Adds what the interval put out, and what has become of it.
fn add_outputs<'a>(svg: &mut Writer, picture: &Picture<'a>, interval: &Interval<'a>) {
    let state = match interval.removal {
        Some(_) => "undone",
        None => if picture.is_released(interval) {
            "released"
        } else {
            "held"
        },
    };
    for output in &interval.outputs {
        write!(svg, "\noutput, {state}: ");
        svg.add_text(output.as_str());
    }
}

/// Adds the title of a letter: its number, sender, receiver, and its text behind this separator.
pub(crate) fn add_letter_note(
    svg: &mut Writer,
    picture: &Picture<'_>,
    letter: &Sent,
    separator: &str,
) {
    svg.push("<title>");
    add_letter(svg, picture, letter);
    let receiver = letter.receiver.number();
    write!(svg, " to unit {receiver}{separator}");
    svg.add_text(letter.text.as_str());
    svg.push("</title>");
}

/// Adds the title of a sign.
pub(crate) fn add_sign_note(svg: &mut Writer, sign: &Sign) {
    write!(svg, "<title>unit {}, ", sign.unit.number());
    add_event(svg, sign.event);
    svg.push("</title>");
}

/// Adds what a sign stands for.
fn add_event(svg: &mut Writer, event: Event) {
    match event {
        Event::Flush { count } => write!(svg, "flush: logged {count}"),
        Event::Release { count } => write!(svg, "release: outputs {count}"),
        Event::Checkpoint { mark } => write!(svg, "checkpoint at {}", Shown(mark)),
        Event::Kill { lost } => write!(svg, "kill: lost {lost}"),
        Event::Restart { row } => add_row(svg, "restart", row),
        Event::Rollback { row } => add_row(svg, "notice that cut", row),
        Event::Notice { rows } => write!(svg, "notice: rows told {rows}"),
    }
}

/// Adds the row that a restart or a notice appended.
fn add_row(svg: &mut Writer, what: &str, row: Start) {
    let Start { incarnation, index } = row;
    write!(
        svg,
        "{what}: incarnation {incarnation} begins at index {index}",
    )
}
