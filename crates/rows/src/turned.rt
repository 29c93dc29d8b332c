//! Rows whose turns are worked beside the book.
//!
//! A line is a step; or `work` and a step, whose turn is prepared and worked, and kept; or `with` and
//! a step, which is done by the turn that was kept. `work` has no reply, and a step that is given
//! back has the reply `stale`.

use crate::answers::{answer, push_reply};
use crate::calls::{Books, new_book, step_of, step_with};
use anyhow::bail;
use book::Committed;
use handler::{Ask, Done, Sample};
use model::Step;
use std::alloc::Global;

/// Adds the replies of a new book to these lines.
pub(crate) fn turn(alloc: Global, lines: &str, text: &mut String) -> anyhow::Result<()> {
    let mut book = new_book(alloc);
    let done = do_all(alloc, &mut book, lines, text);
    book.forget();
    done
}

fn do_all(alloc: Global, book: &mut Books, lines: &str, text: &mut String) -> anyhow::Result<()> {
    let mut kept = None;
    for line in lines.lines() {
        do_one(alloc, book, line, &mut kept, text)?;
    }
    Ok(())
}

fn do_one(
    alloc: Global,
    book: &mut Books,
    line: &str,
    kept: &mut Option<Done<Sample>>,
    text: &mut String,
) -> anyhow::Result<()> {
    if let Some(step) = line.strip_prefix("work ") {
        *kept = Some(work(alloc, book, step)?);
        return Ok(());
    }
    match line.strip_prefix("with ") {
        Some(step) => do_by_kept(alloc, book, step, kept, text),
        None => push_reply(alloc, text, &answer(alloc, book, line)?),
    }
}

/// Does the step by the turn that was kept.
fn do_by_kept(
    alloc: Global,
    book: &mut Books,
    line: &str,
    kept: &mut Option<Done<Sample>>,
    text: &mut String,
) -> anyhow::Result<()> {
    match kept.take() {
        Some(worked) => do_with(alloc, book, line, worked, text),
        None => bail!("no turn is kept"),
    }
}

/// The turn that the step needs.
fn work(alloc: Global, book: &Books, line: &str) -> anyhow::Result<Done<Sample>> {
    let step = step_of(alloc, line)?;
    match needed(book, &step)? {
        Some(ask) => worked(alloc, ask),
        None => bail!("the step needs no turn"),
    }
}

/// What `prepare` gives, without what its contract says: the rows see it by the replies.
fn needed(book: &Books, step: &Step) -> anyhow::Result<Option<Ask<Sample>>> {
    Ok(book.prepare(step)?)
}

fn worked(alloc: Global, ask: Ask<Sample>) -> anyhow::Result<Done<Sample>> {
    Ok(ask.work(alloc, &Sample)?)
}

/// Does the step by the turn, and adds its reply.
fn do_with(
    alloc: Global,
    book: &mut Books,
    line: &str,
    worked: Done<Sample>,
    text: &mut String,
) -> anyhow::Result<()> {
    let step = step_of(alloc, line)?;
    push_committed(alloc, &step_with(book, step, worked), text)
}

/// Adds the reply, or that the step was given back.
fn push_committed(alloc: Global, done: &Committed, text: &mut String) -> anyhow::Result<()> {
    match done {
        Committed::Stale(_) => Ok(text.push_str("stale\n")?),
        Committed::Reply(reply) => push_reply(alloc, text, reply),
    }
}
