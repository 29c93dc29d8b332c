//! `run --explain` and `drive --explain`: lines are answered one by one, and each refusal is told with its reason,
//! and each letter that waits, and what a release left behind.

use crate::hosted::Hosted;
use crate::waits::tell_news;
use book::Book;
use diagram::{MissingNotice, Situation, why_waits};
use driver::{Driver, drive};
use handler::Handler;
use json::Scratch;
use lines::{Counted, LineFault, ServeFault, fault_reply, put_reply, read_step};
use log::{Log, warn};
use model::{Entry, Letter, MAX_LINE_BYTES, NoMemory, Reply, Row, Step, TenantName, Unit};
use quick_forms::read_addressed;
use reasons::{left_behind, reason, refusal_in, wait_reason};
use shared_log::Store;
use std::alloc::Global;
use std::io::{BufRead, ErrorKind, Read, Write};
use std::{io, str};

/// A line that is no longer than it may be, with its line feed.
const WHOLE_LINE: u64 = MAX_LINE_BYTES as u64 + 1;

/// How many entries of the history may be followed for a line, and for all lines together besides, to tell what a
/// release left behind: so that takes no longer than the lines do.
const FOLLOWED: u64 = 4;

const FOLLOWED_BESIDES: u64 = 1_000_000;

/// How the reply to a release begins.
const RELEASED: &[u8] = b"{\"ok\":\"released\"";

/// Answers each line as `serve` answers it, or as `drive` does where there is a driver, and tells for each that was
/// refused its number, why, and what would help. Each reply is out before its reason, and before the next line is
/// read. `before` lines came before the first. Tells how many lines there were.
pub fn serve_explained<L: Log, R: BufRead, W: Write, H: Handler, S: Store>(
    told: &L,
    alloc: Global,
    hosted: &Hosted<'_, H>,
    reader: &mut R,
    writer: &mut W,
    book: &mut Book<H, S>,
    driver: &mut Option<Driver>,
    before: u64,
) -> Result<u64, ServeFault> {
    let mut line = Vec::new(alloc);
    let mut scratch = Scratch::new(alloc);
    let mut text = Vec::new(alloc);
    let mut left = FOLLOWED_BESIDES;
    for count in 1..u64::MAX {
        line.clear();
        if !read_line(alloc, reader, &mut line)? {
            return Ok(count - 1);
        }
        left = left.saturating_add(FOLLOWED);
        let reply = match driver {
            Some(driver) => drive_line(alloc, line.as_slice(), book, driver)?,
            None => answer_line(alloc, &mut scratch, &mut text, line.as_slice(), book)?,
        };
        put(writer, reply.as_slice())?;
        let number = before.saturating_add(count);
        explain(
            told,
            alloc,
            hosted,
            book,
            number,
            line.as_slice(),
            reply.as_slice(),
        );
        if reply.as_slice().starts_with(RELEASED) {
            explain_release(
                told,
                alloc,
                hosted,
                book,
                number,
                line.as_slice(),
                &mut left,
            );
        }
        if let Some(driver) = driver {
            tell_news(told, alloc, driver, line.as_slice());
        }
    }
    Ok(u64::MAX - 1)
}

/// Reads the next line with its line feed, and tells whether there is one. Of one that is too long as much is kept as
/// shows that it is, and the rest is read past.
fn read_line<R: BufRead>(
    alloc: Global,
    reader: &mut R,
    line: &mut Vec<u8>,
) -> Result<bool, ServeFault> {
    if read_part(reader, line)? && !is_ended(line.as_slice()) {
        skip_rest(alloc, reader)?;
    }
    Ok(!line.is_empty())
}

fn is_ended(line: &[u8]) -> bool {
    line.last() == Some(&b'\n')
}

/// Reads up to a line feed, or as much as a line may have, and tells whether it was as much.
fn read_part<R: BufRead>(reader: &mut R, part: &mut Vec<u8>) -> Result<bool, ServeFault> {
    match reader.by_ref().take(WHOLE_LINE).read_until(b'\n', part) {
        Ok(count) => Ok(count as u64 == WHOLE_LINE),
        Err(error) => Err(fault_of(&error)),
    }
}

fn fault_of(error: &io::Error) -> ServeFault {
    if error.kind() == ErrorKind::OutOfMemory {
        ServeFault::NoMemory
    } else {
        ServeFault::Read
    }
}

/// Reads past the rest of a line.
fn skip_rest<R: BufRead>(alloc: Global, reader: &mut R) -> Result<(), ServeFault> {
    let mut part = Vec::new(alloc);
    for _ in 0..u64::MAX {
        part.clear();
        if !read_part(reader, &mut part)? || is_ended(part.as_slice()) {
            return Ok(());
        }
    }
    Ok(())
}

/// The reply line to a line. Its text is made in a buffer that is kept for the next.
fn answer_line<H: Handler, S: Store>(
    alloc: Global,
    scratch: &mut Scratch,
    text: &mut Vec<u8>,
    line: &[u8],
    book: &mut Book<H, S>,
) -> Result<Vec<u8>, ServeFault> {
    let reply = step_line(alloc, scratch, without_end(line), book);
    let mut writer = Counted::new(Vec::new(alloc));
    match put_reply(&mut writer, text, &reply) {
        Ok(()) => Ok(writer.inner),
        // A list fails to take bytes for want of memory alone.
        Err(_) => Err(ServeFault::NoMemory),
    }
}

/// Does the step that a line is, if it is one.
fn step_line<H: Handler, S: Store>(
    alloc: Global,
    scratch: &mut Scratch,
    line: &[u8],
    book: &mut Book<H, S>,
) -> Reply {
    if line.len() > MAX_LINE_BYTES {
        return fault_reply(LineFault::Bad);
    }
    match read_addressed(alloc, scratch, line) {
        Ok(step) => book.step_addressed(step),
        Err(fault) => fault_reply(fault),
    }
}

/// The reply line to a line, and the lines of what left behind it.
fn drive_line<H: Handler, S: Store>(
    alloc: Global,
    line: &[u8],
    book: &mut Book<H, S>,
    driver: &mut Driver,
) -> Result<Vec<u8>, ServeFault> {
    let mut reader = Counted::new(line);
    let mut writer = Counted::new(Vec::new(alloc));
    match drive(alloc, &mut reader, &mut writer, book, driver) {
        Ok(_) => Ok(writer.inner),
        // A list fails to take bytes for want of memory alone.
        Err(_) => Err(ServeFault::NoMemory),
    }
}

/// A line without its line feed.
fn without_end(line: &[u8]) -> &[u8] {
    line.strip_suffix(b"\n").unwrap_or(line)
}

/// Writes these lines, each in one piece.
fn put<W: Write>(writer: &mut W, lines: &[u8]) -> Result<(), ServeFault> {
    for line in lines.split_inclusive(|byte| *byte == b'\n') {
        if writer.write_all(line).is_err() {
            return Err(ServeFault::Write);
        }
    }
    match writer.flush() {
        Ok(()) => Ok(()),
        Err(_) => Err(ServeFault::Write),
    }
}

/// Tells why a line was refused, if it was.
fn explain<L: Log, H: Handler, S: Store>(
    told: &L,
    alloc: Global,
    hosted: &Hosted<'_, H>,
    book: &Book<H, S>,
    number: u64,
    line: &[u8],
    reply: &[u8],
) {
    let Ok(reply) = str::from_utf8(reply) else {
        return;
    };
    let Some(refusal) = refusal_in(reply) else {
        return;
    };
    match reason_of(alloc, hosted, book, without_end(line), refusal) {
        Ok(reason) => warn!(told; "line {number}: {reason}"),
        Err(_) => warn!(told; "line {number}: {refusal}"),
    }
}

/// Why a line was refused. Of a letter that has to wait the history tells for what.
fn reason_of<H: Handler, S: Store>(
    alloc: Global,
    hosted: &Hosted<'_, H>,
    book: &Book<H, S>,
    line: &[u8],
    refusal: &str,
) -> Result<String, NoMemory> {
    if refusal == "wait" {
        if let Some(missing) = waits_for(alloc, hosted, book, line)? {
            return wait_reason(alloc, missing.receiver, missing.unit);
        }
    }
    reason(alloc, &hosted.handler, hosted.kinds, line, refusal)
}

/// What the letter that a line delivers has to wait for.
fn waits_for<H: Handler, S: Store>(
    alloc: Global,
    hosted: &Hosted<'_, H>,
    book: &Book<H, S>,
    line: &[u8],
) -> Result<Option<MissingNotice>, NoMemory> {
    let Some((tenant, letter)) = delivered(alloc, line) else {
        return Ok(None);
    };
    let Some(rows) = rows_of(book, &tenant) else {
        return Ok(None);
    };
    why_waits(
        alloc,
        &hosted.handler,
        history_of(book),
        rows,
        &tenant,
        letter,
    )
}

/// Tells what the first output waits for that a release left behind, as long as so many entries are left to follow.
fn explain_release<L: Log, H: Handler, S: Store>(
    told: &L,
    alloc: Global,
    hosted: &Hosted<'_, H>,
    book: &Book<H, S>,
    number: u64,
    line: &[u8],
    left: &mut u64,
) {
    let history = history_of(book);
    let Some((tenant, unit)) = releasing(alloc, line) else {
        return;
    };
    let Some(rest) = left.checked_sub(history.len() as u64) else {
        return;
    };
    *left = rest;
    if let Ok(Some(reason)) = reason_left(alloc, hosted, history, &tenant, unit) {
        warn!(told; "line {number}: {reason}");
    }
}

/// What the first output waits for that the unit holds.
fn reason_left<H: Handler>(
    alloc: Global,
    hosted: &Hosted<'_, H>,
    history: &[Entry],
    tenant: &TenantName,
    unit: Unit,
) -> Result<Option<String>, NoMemory> {
    let situation = Situation::of(alloc, &hosted.handler, history, tenant)?;
    if !situation.is_up(unit) {
        return Ok(None);
    }
    left_behind(alloc, &situation, unit)
}

/// Whose outputs a line releases.
fn releasing(alloc: Global, line: &[u8]) -> Option<(TenantName, Unit)> {
    match read_step(alloc, line) {
        Ok(step) => released_by(&step),
        Err(_) => None,
    }
}

fn released_by(step: &Step) -> Option<(TenantName, Unit)> {
    match step {
        Step::Release { tenant, unit } => Some((tenant.copy(), *unit)),
        _ => None,
    }
}

/// The letter that a line delivers.
fn delivered(alloc: Global, line: &[u8]) -> Option<(TenantName, Letter)> {
    match read_step(alloc, line) {
        Ok(step) => letter_of(&step),
        Err(_) => None,
    }
}

fn letter_of(step: &Step) -> Option<(TenantName, Letter)> {
    match step {
        Step::Deliver { tenant, letter } => Some((tenant.copy(), *letter)),
        _ => None,
    }
}

fn rows_of<'a, H: Handler, S: Store>(
    book: &'a Book<H, S>,
    tenant: &TenantName,
) -> Option<&'a [Row]> {
    book.rollbacks(tenant)
}

fn history_of<H: Handler, S: Store>(book: &Book<H, S>) -> &[Entry] {
    book.history()
}
