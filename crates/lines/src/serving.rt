//! Serving.

ghost use Rattle.std.specs.Prelude.{◌≡◌, ◌≢◌, ◌<◌, ◌≤◌, ℕ, List, IfOk, OnOk, OnErr, All, length};
ghost use Rattle.std.specs.Prelude.{vec_capacity};
ghost use Rattle.std.specs.Io.KnownBytes.{Appends};
ghost use Rattle.model.specs.Failures.{HasRisen};
ghost use Rattle.model.specs.declared.replies.Reply.{Reply as ReplyOf};
ghost use Rattle.book.specs.Entries.{Ledger};
ghost use Rattle.written.specs.Beginnings.{AppendsBeginning};
ghost use Rattle.model.specs.declared.replies.Who.{Who as WhoOf};
ghost use Rattle.model.specs.declared.replies.Who.TheVariants.{Caller};
ghost use Rattle.book.specs.Entries.{IsEntered};
ghost use Rattle.book.specs.Standing.{Carries, EntersHonestly, IsHostOf};
ghost use Rattle.lines.specs.Doing.{DoesBy, TakesSteps};
ghost use Rattle.lines.specs.Serving.{Serves, EntersEach, HostServes, IsRemembered};
ghost use Rattle.lines.specs.Serving.{reply_line};
ghost use Rattle.lines.specs.Serving.{reply_upon, ServedAll, ServedAllBy, ServedSome, ServedSomeBy, ServesBy, Took};
ghost use Rattle.lines.specs.Serving.{Broken};

use crate::counted::{Counted, flush_unless, put_bytes};
use crate::fault::ServeFault;
use crate::input::{LineRead, read_line};
use book::{Book, Host};
use forms::LineFault;
use handler::Handler;
use json::Scratch;
use model::{AddressedStep, MAX_LINE_BYTES, Refusal, Reply};
use quick_forms::{read_addressed, write_reply};
use shared_log::Store;
use std::alloc::Global;
use std::io::{BufRead, Write};

/// Answers each line of the input, in order, and tells how many there were.
///
/// A line that is no step, or is longer than `MAX_LINE_BYTES`, is answered `bad-line`; each step is
/// done by the book as a caller's. A line takes one buffer of that many bytes, whatever its length,
/// and a reply is flushed before the next read that may wait.
///
/// `Read` comes only where the reader failed, `Write` only where the writer failed, and `NoMemory`
/// where there was no memory for the buffer or for a reply's text. After each the book holds the
/// steps so far, and what is written is a beginning of the replies to the lines read so far.
pub fn serve<R: BufRead, W: Write, H: Handler, S: Store>(
    alloc: Global,
    reader: &mut Counted<R>,
    writer: &mut Counted<W>,
    book: &mut Book<H, S>,
) -> Result<u64, ServeFault>
    ensures all { IfOk result (λ count. ServedAll (R.remaining reader.old.inner)
        (W.contents writer.old.inner) (W.contents writer.new.inner) book.old book.new count) }
    ensures some { OnErr result (ServedSome
        (R.remaining reader.old.inner) (R.remaining reader.new.inner)
        (W.contents writer.old.inner) (W.contents writer.new.inner) book.old book.new) }
    ensures read { result ≡ Err ServeFault.Read → HasRisen reader.old.failed reader.new.failed }
    ensures write { result ≡ Err ServeFault.Write → HasRisen writer.old.failed writer.new.failed }
    ensures read_same { result ≢ Err ServeFault.Read → reader.new.failed ≡ reader.old.failed }
    ensures write_same { result ≢ Err ServeFault.Write → writer.new.failed ≡ writer.old.failed }
{
    serve_by(
        alloc,
        reader,
        writer,
        book,
        &|book: &mut Book<H, S>, step: AddressedStep| -> Reply
            ensures { IsEntered book.entry.now Caller step result book.exit.now }
        { book.step_addressed(step) },
    )
}

/// The same by a host: whichever book it stood for before, what is written are the replies of that book, and the host
/// then stands for the book after them.
pub fn serve_host<R: BufRead, W: Write, H: Handler, S: Store>(
    alloc: Global,
    reader: &mut Counted<R>,
    writer: &mut Counted<W>,
    host: &mut Host<H, S>,
) -> Result<u64, ServeFault>
    ensures all { IfOk result (λ count. ServedAllBy (HostServes H.meaning) (R.remaining reader.old.inner)
        (W.contents writer.old.inner) (W.contents writer.new.inner) host.old host.new count) }
    ensures some { OnErr result (ServedSomeBy (HostServes H.meaning)
        (R.remaining reader.old.inner) (R.remaining reader.new.inner)
        (W.contents writer.old.inner) (W.contents writer.new.inner) host.old host.new) }
    ensures read { result ≡ Err ServeFault.Read → HasRisen reader.old.failed reader.new.failed }
    ensures write { result ≡ Err ServeFault.Write → HasRisen writer.old.failed writer.new.failed }
    ensures read_same { result ≢ Err ServeFault.Read → reader.new.failed ≡ reader.old.failed }
    ensures write_same { result ≢ Err ServeFault.Write → writer.new.failed ≡ writer.old.failed }
{
    serve_by(
        alloc,
        reader,
        writer,
        host,
        &|host: &mut Host<H, S>, step: AddressedStep| -> Reply
            ensures { (who : WhoOf) → Carries (IsHostOf H.meaning)
                (EntersHonestly H.meaning who step result) host.entry.now host.exit.now }
        { host.step(step) },
    )
}

// The same by whatever a function does steps on.
fn serve_by<R: BufRead, W: Write, B, F: Fn(&mut B, AddressedStep) -> Reply>(
    alloc: Global,
    reader: &mut Counted<R>,
    writer: &mut Counted<W>,
    book: &mut B,
    step: &F,
) -> Result<u64, ServeFault>
    requires { TakesSteps F.Fn step.now }
    ensures all { IfOk result (λ count. ServedAllBy (ServesBy (DoesBy F.Fn step.now)) (R.remaining reader.old.inner)
        (W.contents writer.old.inner) (W.contents writer.new.inner) book.old book.new count) }
    ensures some { OnErr result (ServedSomeBy (ServesBy (DoesBy F.Fn step.now))
        (R.remaining reader.old.inner) (R.remaining reader.new.inner)
        (W.contents writer.old.inner) (W.contents writer.new.inner) book.old book.new) }
    ensures read { result ≡ Err ServeFault.Read → HasRisen reader.old.failed reader.new.failed }
    ensures write { result ≡ Err ServeFault.Write → HasRisen writer.old.failed writer.new.failed }
    ensures read_same { result ≢ Err ServeFault.Read → reader.new.failed ≡ reader.old.failed }
    ensures write_same { result ≢ Err ServeFault.Write → writer.new.failed ≡ writer.old.failed }
{
    let Ok(mut held) = Vec::with_capacity(alloc, MAX_LINE_BYTES) else {
        return Err(ServeFault::NoMemory);
    };
    // Each line takes a call at least, so that the count of lines fits.
    let _most = reader.calls_left();
    let mut scratch = Scratch::new(alloc);
    let mut text = Vec::new(alloc);
    let mut ahead = false;
    let mut count = 0;
    loop {
        if !serve_line(
            alloc,
            reader,
            writer,
            book,
            step,
            &mut scratch,
            &mut held,
            &mut text,
            &mut ahead,
        )? {
            return Ok(count);
        }
        count += 1;
    }
}

// Reads a line and answers it, if one is left.
fn serve_line<R: BufRead, W: Write, B, F: Fn(&mut B, AddressedStep) -> Reply>(
    alloc: Global,
    reader: &mut Counted<R>,
    writer: &mut Counted<W>,
    book: &mut B,
    step: &F,
    scratch: &mut Scratch,
    held: &mut Vec<u8>,
    text: &mut Vec<u8>,
    ahead: &mut bool,
) -> Result<bool, ServeFault>
    requires room { MAX_LINE_BYTES ≤ vec_capacity held.old }
    requires takes { TakesSteps F.Fn step.now }
    ensures room { MAX_LINE_BYTES ≤ vec_capacity held.new }
    ensures took { IfOk result (λ found. Took (DoesBy F.Fn step.now) found
        (R.remaining reader.old.inner) (R.remaining reader.new.inner)
        (W.contents writer.old.inner) (W.contents writer.new.inner) book.old book.new) }
    ensures err { OnErr result (Broken (DoesBy F.Fn step.now)
        (R.remaining reader.old.inner) (R.remaining reader.new.inner)
        (W.contents writer.old.inner) (W.contents writer.new.inner) book.old book.new) }
    ensures read { result ≡ Err ServeFault.Read → HasRisen reader.old.failed reader.new.failed }
    ensures write { result ≡ Err ServeFault.Write → HasRisen writer.old.failed writer.new.failed }
    ensures read_same { result ≢ Err ServeFault.Read → reader.new.failed ≡ reader.old.failed }
    ensures write_same { result ≢ Err ServeFault.Write → writer.new.failed ≡ writer.old.failed }
    ensures fewer { OnOk result (reader.new.left < reader.old.left) }
{
    let reply = match read_line(reader, writer, held, ahead)? {
        LineRead::End => {
            flush_unless(writer, false)?;
            return Ok(false);
        }
        LineRead::Long => fault_reply(LineFault::Bad),
        LineRead::Line => match read_addressed(alloc, scratch, held.as_slice()) {
            Ok(read) => step(book, read),
            Err(fault) => fault_reply(fault),
        },
    };
    put_reply(writer, text, &reply)?;
    Ok(true)
}

/// Writes a reply's line, with its line feed. Its text is made in a buffer that can be kept for the next; what it
/// held is gone. `NoMemory` comes where there is none for the text, and `Write` only where the writer failed; a
/// beginning of the line may be written then.
pub fn put_reply<W: Write>(
    writer: &mut Counted<W>,
    text: &mut Vec<u8>,
    reply: &Reply,
) -> Result<(), ServeFault>
    ensures ok { OnOk result (Appends (W.contents writer.old.inner) (W.contents writer.new.inner)
        (reply_line reply.now)) }
    ensures err { OnErr result (AppendsBeginning (W.contents writer.old.inner)
        (W.contents writer.new.inner) (reply_line reply.now)) }
    ensures write { result ≡ Err ServeFault.Write → HasRisen writer.old.failed writer.new.failed }
    ensures read { result ≢ Err ServeFault.Read }
    ensures same { result ≢ Err ServeFault.Write → writer.new.failed ≡ writer.old.failed }
{
    text.clear();
    if write_reply(text, reply).is_err() || text.push(b'\n').is_err() {
        return Err(ServeFault::NoMemory);
    }
    put_bytes(writer, text.as_slice())
}

/// The reply to a line that gave no step: `bad-line`, or `memory`.
pub fn fault_reply(fault: LineFault) -> Reply
    ensures { result ≡ reply_upon fault }
{
    match fault {
        LineFault::Bad => Reply::Refused {
            refusal: Refusal::BadLine,
        },
        LineFault::NoMemory => Reply::Refused {
            refusal: Refusal::Memory,
        },
    }
}

/// Where no reply is for want of memory, the history grew by one entry for each line that is a
/// step, in order, by the caller, with that step and its reply; the other lines were told to be
/// bad.
pub fn memory_aside()
    ensures { (lines : List (List ℕ)) (old new : Ledger) (replies : List ReplyOf)
        → Serves lines old replies new → All IsRemembered replies
        → EntersEach lines old replies new }
{}
