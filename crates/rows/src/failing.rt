//! Rows over a store that fails.
//!
//! A row tells which calls of the store fail by lines at its head, `append N fails` and `fetch N
//! fails`, with numbers from 0; or by `write past N fails`, where the log goes to a writer that takes
//! N bytes. All other lines are steps.

use crate::answers::{answer, push_reply};
use crate::at_once::at_once;
use crate::calls::step_of;
use crate::kept::push_kept;
use book::Book;
use handler::Sample;
use model::{Refusal, Reply, Step};
use stable_log::{FuseStore, FuseWriter, Store, WriterStore};
use std::alloc::Global;

type Books = Book<Sample, FuseStore>;

/// At how many places a row is made to fail at most.
const PLACES: u64 = 1000;

/// The number in a line between these words.
fn number_in(line: &str, first: &str) -> Option<u64> {
    let number = line.strip_prefix(first)?.strip_suffix(" fails")?;
    number.parse::<u64>().ok()
}

/// The numbers in those lines that have one.
fn numbers_in(alloc: Global, lines: &str, first: &str) -> anyhow::Result<Vec<u64>> {
    let mut numbers = Vec::new(alloc);
    for line in lines.lines() {
        if let Some(number) = number_in(line, first) {
            numbers.push(number)?;
        }
    }
    Ok(numbers)
}

/// Whether a line of a row is a step, and tells of no call that fails.
pub(crate) fn is_step(line: &str) -> bool {
    !line.ends_with(" fails")
}

/// The steps of a row.
pub(crate) fn steps_of(alloc: Global, lines: &str) -> anyhow::Result<Vec<Step>> {
    let mut steps = Vec::new(alloc);
    for line in lines.lines() {
        if is_step(line) {
            steps.push(step_of(alloc, line)?)?;
        }
    }
    Ok(steps)
}

/// How the steps of a row are given to a book.
#[derive(Clone, Copy, Drop)]
pub(crate) enum Way {
    OneByOne,
    AtOnce,
}

/// What a new book over a store that fails as the row tells comes to.
pub(crate) fn failed(alloc: Global, lines: &str, way: Way) -> anyhow::Result<String> {
    if let Some(room) = numbers_in(alloc, lines, "write past ")?.as_slice().first() {
        let writer = FuseWriter::new(alloc, *room as usize);
        let book = Book::new(alloc, Sample, WriterStore::new(alloc, writer));
        return told_by(alloc, book, lines, way);
    }
    let (appends, fetches) = failing_calls(alloc, lines)?;
    told_by(alloc, failing_book(alloc, appends, fetches), lines, way)
}

/// The numbers of the appends and of the fetches that fail in a row.
pub(crate) fn failing_calls(alloc: Global, lines: &str) -> anyhow::Result<(Vec<u64>, Vec<u64>)> {
    let appends = numbers_in(alloc, lines, "append ")?;
    let fetches = numbers_in(alloc, lines, "fetch ")?;
    Ok((appends, fetches))
}

/// What a new book tells of the steps of a row.
fn told_by<S: Store>(
    alloc: Global,
    mut book: Book<Sample, S>,
    lines: &str,
    way: Way,
) -> anyhow::Result<String> {
    let told = match way {
        Way::OneByOne => one_by_one(alloc, &mut book, lines),
        Way::AtOnce => all_at_once(alloc, &mut book, lines),
    };
    book.forget();
    told
}

/// What the book tells of the steps of a row, done by one call.
fn all_at_once<S: Store>(
    alloc: Global,
    book: &mut Book<Sample, S>,
    lines: &str,
) -> anyhow::Result<String> {
    let steps = steps_of(alloc, lines)?;
    at_once(alloc, book, steps.as_slice())
}

/// The replies of the book to the steps of a row, one by one.
fn one_by_one<S: Store>(
    alloc: Global,
    book: &mut Book<Sample, S>,
    lines: &str,
) -> anyhow::Result<String> {
    let mut text = String::new(alloc);
    for line in lines.lines() {
        if is_step(line) {
            push_reply(alloc, &mut text, &answer(alloc, book, line)?)?;
        }
    }
    Ok(text)
}

/// What a row came to where a step that was refused for the store, or for want of memory, was given
/// again.
#[derive(Drop)]
pub(crate) struct Again {
    pub(crate) replies: String,
    pub(crate) refused: bool,
}

impl Again {
    /// Adds what comes out for a line. A flush that was stopped counts what both times logged.
    fn add(&mut self, alloc: Global, book: &mut Books, line: &str) -> anyhow::Result<()> {
        if let Some(unit) = line.strip_prefix("kept ") {
            return push_kept(alloc, &mut self.replies, book, unit);
        }
        let first = answer(alloc, book, line)?;
        match logged_before(&first) {
            Some(count) => self.add_again(alloc, book, line, count),
            None => push_reply(alloc, &mut self.replies, &first),
        }
    }

    /// Gives a step again that had logged so many records when it was refused.
    fn add_again(
        &mut self,
        alloc: Global,
        book: &mut Books,
        line: &str,
        count: u64,
    ) -> anyhow::Result<()> {
        self.refused = true;
        let reply = with_more(answer(alloc, book, line)?, count);
        push_reply(alloc, &mut self.replies, &reply)
    }
}

/// How many records a step had logged when it was refused for the store, or for want of memory, if it was.
fn logged_before(reply: &Reply) -> Option<u64> {
    match reply {
        Reply::Stopped {
            count,
            refusal: Refusal::Store | Refusal::Memory,
        } => Some(*count),
        Reply::Refused {
            refusal: Refusal::Store | Refusal::Memory,
        } => Some(0),
        _ => None,
    }
}

/// The reply to a flush, with so many more records.
fn with_more(reply: Reply, more: u64) -> Reply {
    match reply {
        Reply::Flushed { count } => Reply::Flushed {
            count: count.saturating_add(more),
        },
        other => other,
    }
}

/// What the steps come to over a store that fails the appends and the fetches of these numbers.
fn given_again(
    alloc: Global,
    lines: &str,
    appends: Vec<u64>,
    fetches: Vec<u64>,
) -> anyhow::Result<Again> {
    let mut all = Again {
        replies: String::new(alloc),
        refused: false,
    };
    give(alloc, lines, appends, fetches, &mut all)?;
    Ok(all)
}

/// Gives the steps to a new book over such a store.
fn give(
    alloc: Global,
    lines: &str,
    appends: Vec<u64>,
    fetches: Vec<u64>,
    all: &mut Again,
) -> anyhow::Result<()> {
    let mut book = failing_book(alloc, appends, fetches);
    let given = give_to(alloc, &mut book, lines, all);
    book.forget();
    given
}

fn give_to(alloc: Global, book: &mut Books, lines: &str, all: &mut Again) -> anyhow::Result<()> {
    for line in lines.lines() {
        all.add(alloc, book, line)?;
    }
    Ok(())
}

/// A new book over a store that fails the appends and the fetches of these numbers.
fn failing_book(alloc: Global, appends: Vec<u64>, fetches: Vec<u64>) -> Books {
    Book::new(alloc, Sample, FuseStore::new(alloc, appends, fetches))
}

/// What the steps come to over a store that never fails.
pub(crate) fn once(alloc: Global, lines: &str) -> anyhow::Result<Again> {
    given_again(alloc, lines, Vec::new(alloc), Vec::new(alloc))
}

/// What the steps come to over a store that fails one append or one fetch, of this number.
fn failing_once(alloc: Global, lines: &str, is_append: bool, number: u64) -> anyhow::Result<Again> {
    let one = [number].to_vec(alloc)?;
    let none = Vec::new(alloc);
    if is_append {
        given_again(alloc, lines, one, none)
    } else {
        given_again(alloc, lines, none, one)
    }
}

/// Whether each append, or each fetch, fails in turn with the replies all the same, up to the first
/// that the row doesn't come to.
fn survives(alloc: Global, lines: &str, replies: &str, is_append: bool) -> anyhow::Result<bool> {
    for number in 0..PLACES {
        let all = failing_once(alloc, lines, is_append, number)?;
        if all.replies.as_str() != replies {
            return Ok(false);
        }
        if !all.refused {
            return Ok(true);
        }
    }
    Ok(false)
}

/// Whether each append and each fetch fails in turn with the replies all the same.
pub(crate) fn survives_each(alloc: Global, lines: &str, replies: &str) -> anyhow::Result<bool> {
    Ok(survives(alloc, lines, replies, true)? && survives(alloc, lines, replies, false)?)
}
