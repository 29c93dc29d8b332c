//! Rows of what a book tells.
//!
//! A line is a step of a caller; or `logger` and a step; or `feed`, the feed's number, the step's place in it, and a
//! step. The lines that come out are, for each open tenant in the order of opening and for tenant `nobody`: its
//! replies, what its units released, its rows, and the audit; then who gave each entry and how many records the store
//! took of it; and the replies of a new book that runs the same steps at once.

use crate::answers::push_replies;
use crate::calls::{self, Books, name_of, new_book, outcome_line, step_of};
use anyhow::Context;
use model::{Entry, MAX_UNITS, Step, TenantName, Who};
use std::alloc::Global;

/// Adds what a new book tells after these lines.
pub(crate) fn tell(alloc: Global, lines: &str, text: &mut String) -> anyhow::Result<()> {
    add_book_after(alloc, lines, text)?;
    add_run(alloc, lines, text)
}

fn add_book_after(alloc: Global, lines: &str, text: &mut String) -> anyhow::Result<()> {
    let book = book_after(alloc, lines)?;
    let added = add_book(alloc, &book, text);
    book.forget();
    added
}

/// Adds what the book tells of its tenants, of one that is not there, and of its entries.
fn add_book(alloc: Global, book: &Books, text: &mut String) -> anyhow::Result<()> {
    add_tenants(alloc, book, text)?;
    add_tenant(alloc, book, &name_of("nobody")?, text)?;
    for entry in calls::history(book) {
        add_entry(alloc, entry, text)?;
    }
    Ok(())
}

fn add_tenants(alloc: Global, book: &Books, text: &mut String) -> anyhow::Result<()> {
    for name in calls::tenants(book)?.iter() {
        add_tenant(alloc, book, name, text)?;
    }
    Ok(())
}

/// A new book that did these steps, one by one.
fn book_after(alloc: Global, lines: &str) -> anyhow::Result<Books> {
    let mut book = new_book(alloc);
    for line in lines.lines() {
        let (who, step) = given(line)?;
        let _ = calls::step_as(&mut book, who, step_of(alloc, step)?);
    }
    Ok(book)
}

/// Who gives the step of a line, and the line of the step.
fn given(line: &str) -> anyhow::Result<(Who, &str)> {
    if let Some(step) = line.strip_prefix("logger ") {
        return Ok((Who::Logger, step));
    }
    match line.strip_prefix("feed ") {
        Some(rest) => given_by_feed(rest),
        None => Ok((Who::Caller, line)),
    }
}

fn given_by_feed(words: &str) -> anyhow::Result<(Who, &str)> {
    let (feed, rest) = words.split_once(' ').context("a feed is wanted")?;
    let (at, step) = rest.split_once(' ').context("a place is wanted")?;
    let feed = feed.parse::<u32>().context("a number is wanted")?;
    let at = at.parse::<u32>().context("a number is wanted")?;
    Ok((Who::Feed { feed, at }, step))
}

/// Adds what the book tells of a tenant.
fn add_tenant(
    alloc: Global,
    book: &Books,
    name: &TenantName,
    text: &mut String,
) -> anyhow::Result<()> {
    text.push_str(format!(in alloc; "{}:\n", name.as_str())?.as_str())?;
    let replies = calls::replies_of(book, name)?;
    push_replies(alloc, text, replies.as_slice())?;
    add_released(book, name, text)?;
    add_rows(alloc, book, name, text)?;
    let outcome = calls::audit_of(alloc, book, name);
    text.push_str(outcome_line(alloc, name, &outcome)?.as_str())?;
    text.push('\n')?;
    Ok(())
}

/// Adds a line for each unit of the tenant, with what it released.
fn add_released(book: &Books, name: &TenantName, text: &mut String) -> anyhow::Result<()> {
    for number in 0..MAX_UNITS as u8 {
        let Some(outputs) = calls::released(book, name, number) else {
            return Ok(());
        };
        text.push_str("released:")?;
        for output in outputs {
            text.push(' ')?;
            text.push_str(output.as_str())?;
        }
        text.push('\n')?;
    }
    Ok(())
}

/// Adds a line for each row of the tenant's table.
fn add_rows(
    alloc: Global,
    book: &Books,
    name: &TenantName,
    text: &mut String,
) -> anyhow::Result<()> {
    let Some(rows) = calls::rollbacks(book, name) else {
        text.push_str("not open\n")?;
        return Ok(());
    };
    for row in rows {
        let line = format!(in alloc;
            "unit {} begins incarnation {} at {}\n",
            row.unit.number(),
            row.incarnation,
            row.start
        )?;
        text.push_str(line.as_str())?;
    }
    Ok(())
}

/// Adds who gave an entry, and how many records the store took of it.
fn add_entry(alloc: Global, entry: &Entry, text: &mut String) -> anyhow::Result<()> {
    let taken = entry.said.appended;
    let line = match &entry.who {
        Who::Caller => format!(in alloc; "a caller: {taken}\n")?,
        Who::Logger => format!(in alloc; "the logger: {taken}\n")?,
        Who::Feed { feed, at } => format!(in alloc; "feed {feed} at {at}: {taken}\n")?,
    };
    text.push_str(line.as_str())?;
    Ok(())
}

/// The steps of these lines, whoever gives them.
fn steps_of(alloc: Global, lines: &str) -> anyhow::Result<Vec<Step>> {
    let mut steps = Vec::new(alloc);
    for line in lines.lines() {
        let (_, step) = given(line)?;
        steps.push(step_of(alloc, step)?)?;
    }
    Ok(steps)
}

/// Adds the replies of a new book that runs these steps at once.
fn add_run(alloc: Global, lines: &str, text: &mut String) -> anyhow::Result<()> {
    let steps = steps_of(alloc, lines)?;
    run_in_new_book(alloc, steps.as_slice(), text)
}

fn run_in_new_book(alloc: Global, steps: &[Step], text: &mut String) -> anyhow::Result<()> {
    let mut book = new_book(alloc);
    let added = add_replies(alloc, &mut book, steps, text);
    book.forget();
    added
}

fn add_replies(
    alloc: Global,
    book: &mut Books,
    steps: &[Step],
    text: &mut String,
) -> anyhow::Result<()> {
    let replies = calls::run(book, steps)?;
    push_replies(alloc, text, replies.as_slice())
}
