//! The calls that the rows make, without what their contracts say: the rows see that by what comes out. So each
//! function of a row is proved among what it needs alone.

use anyhow::bail;
use audit::{Verdict, audit_line, check};
use auditor::{audit_tenant, can_check};
use book::{Book, Committed, Host};
use driver::{Driver, drive, drive_host};
use handler::{Done, Sample};
use lines::{Counted, ServeFault, read_step, serve, write_reply};
use model::{Entry, Flaw, Kept, Move, Reply, Row, Seat, Step, TenantName, Text, Texts, Unit, Who};
use stable_log::{MemoryStore, Store};
use std::alloc::Global;
use std::io::{BufRead, Write};

pub(crate) type Books = Book<Sample, MemoryStore>;

/// A book over a store in memory.
pub(crate) fn new_book(alloc: Global) -> Books {
    Book::new(alloc, Sample, MemoryStore::new(alloc))
}

pub(crate) fn step<S: Store>(book: &mut Book<Sample, S>, step: Step) -> Reply {
    book.step(step)
}

pub(crate) fn step_as(book: &mut Books, who: Who, step: Step) -> Reply {
    book.step_as(who, step)
}

pub(crate) fn step_with(book: &mut Books, step: Step, worked: Done<Sample>) -> Committed {
    book.step_with(Who::Caller, step, worked)
}

pub(crate) fn run<S: Store>(
    book: &mut Book<Sample, S>,
    steps: &[Step],
) -> anyhow::Result<Vec<Reply>> {
    Ok(book.run(steps)?)
}

pub(crate) fn history(book: &Books) -> &[Entry] {
    book.history()
}

pub(crate) fn tenants<S: Store>(book: &Book<Sample, S>) -> anyhow::Result<Vec<TenantName>> {
    Ok(book.tenants()?)
}

pub(crate) fn replies_of<S: Store>(
    book: &Book<Sample, S>,
    name: &TenantName,
) -> anyhow::Result<Vec<Reply>> {
    Ok(book.replies_of(name)?)
}

pub(crate) fn released<'a>(book: &'a Books, name: &TenantName, number: u8) -> Option<&'a [Text]> {
    book.released(name, Unit::new(number))
}

pub(crate) fn rollbacks<'a>(book: &'a Books, name: &TenantName) -> Option<&'a [Row]> {
    book.rollbacks(name)
}

pub(crate) fn kept<S: Store>(
    book: &Book<Sample, S>,
    name: &TenantName,
    number: u8,
) -> Option<Kept> {
    book.kept(name, Unit::new(number))
}

pub(crate) fn seats(book: &Books, name: &TenantName) -> anyhow::Result<Vec<Seat>> {
    Ok(book.seats(name)?)
}

pub(crate) fn certificate(book: &Books, name: &TenantName) -> anyhow::Result<Vec<Move>> {
    Ok(book.certificate(name)?)
}

/// The outcome of the audit of a book's tenant.
pub(crate) fn audit_of(alloc: Global, book: &Books, name: &TenantName) -> Result<Verdict, Flaw> {
    audit_tenant(alloc, &Sample, book, name)
}

/// The outcome of the audit of these lists, where it may be asked.
pub(crate) fn audit_of_lists(
    alloc: Global,
    seats: &[Seat],
    moves: &[Move],
    released: &[Texts],
) -> Option<Result<Verdict, Flaw>> {
    if can_check(seats, moves, released) {
        Some(check(alloc, &Sample, seats, moves, released))
    } else {
        None
    }
}

/// The line that tells an outcome.
pub(crate) fn outcome_line(
    alloc: Global,
    name: &TenantName,
    outcome: &Result<Verdict, Flaw>,
) -> anyhow::Result<String> {
    Ok(audit_line(alloc, name, outcome)?)
}

/// The step that a line must be.
pub(crate) fn step_of(alloc: Global, line: &str) -> anyhow::Result<Step> {
    Ok(read_step(alloc, line.as_bytes())?)
}

pub(crate) fn reply_line(alloc: Global, reply: &Reply) -> anyhow::Result<String> {
    Ok(write_reply(alloc, reply)?)
}

/// Answers each line of the reader.
pub(crate) fn serve_all<R: BufRead, W: Write>(
    alloc: Global,
    reader: &mut Counted<R>,
    writer: &mut Counted<W>,
    book: &mut Books,
) -> Result<u64, ServeFault> {
    serve(alloc, reader, writer, book)
}

/// Whether a new driver comes to the end of the reader's lines by a book.
pub(crate) fn drive_all<S: Store>(
    alloc: Global,
    reader: &mut Counted<&[u8]>,
    writer: &mut Counted<Vec<u8>>,
    book: &mut Book<Sample, S>,
) -> bool {
    drive(alloc, reader, writer, book, &mut Driver::new(alloc)).is_ok()
}

/// The same by a host.
pub(crate) fn drive_all_by_host<S: Store>(
    alloc: Global,
    reader: &mut Counted<&[u8]>,
    writer: &mut Counted<Vec<u8>>,
    host: &mut Host<Sample, S>,
) -> bool {
    drive_host(alloc, reader, writer, host, &mut Driver::new(alloc)).is_ok()
}

/// The name of a tenant.
pub(crate) fn name_of(text: &str) -> anyhow::Result<TenantName> {
    match TenantName::new(text) {
        Some(name) => Ok(name),
        None => bail!("no name"),
    }
}
