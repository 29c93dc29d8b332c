//! The steps of a feed.

ghost use Rattle.std.specs.Prelude.{◌≡◌, ◌≢◌, ◌<◌, ◌≤◌, IfOk, IfErr, OnOk, vec_capacity};
ghost use Rattle.model.specs.Failures.{HasRisen};
ghost use Rattle.lines.specs.Parts.{IsLineRead};
ghost use Rattle.lines.specs.Feeds.{IsReading, FeedOf};

use crate::counted::{Counted, fill};
use crate::fault::ServeFault;
use crate::input::{LineRead, heard_at_end, line_kind};
use crate::part::Part;
use forms::LineFault;
use json::Scratch;
use model::{AddressedStep, MAX_LINE_BYTES, Step};
use quick_forms::read_addressed;
use std::alloc::Global;
use std::io::BufRead;

/// The step of each line of the input, in order, or why a line gave none: `Bad` exactly where it is
/// no step, as a line of more than `MAX_LINE_BYTES` bytes always is, and `NoMemory` where there was
/// no memory to read it.
///
/// `Read` comes only where the reader failed, and `NoMemory` where there was no memory for a line's
/// bytes or for the list. What was read up to then is lost.
pub fn read_feed<R: BufRead>(
    alloc: Global,
    reader: &mut Counted<R>,
) -> Result<Vec<Result<Step, LineFault>>, ServeFault>
    ensures all { IfOk result (λ found. FeedOf (R.remaining reader.old.inner) found.items) }
    ensures read { result ≡ Err ServeFault.Read → HasRisen reader.old.failed reader.new.failed }
    ensures read_same { result ≢ Err ServeFault.Read → reader.new.failed ≡ reader.old.failed }
    ensures write { result ≢ Err ServeFault.Write }
{
    let Ok(mut held) = Vec::with_capacity(alloc, MAX_LINE_BYTES) else {
        return Err(ServeFault::NoMemory);
    };
    let mut scratch = Scratch::new(alloc);
    let mut found = Vec::new(alloc);
    loop {
        match feed_line(reader, &mut held)? {
            LineRead::End => return Ok(found),
            kind => {
                let read = read_heard(alloc, &mut scratch, kind, held.as_slice());
                if found.push(in_one_piece(read)).is_err() {
                    return Err(ServeFault::NoMemory);
                }
            }
        }
    }
}

/// The step of a line that was heard, or why it gives none: `Bad` where it is no step, as one that is too long always
/// is, and `NoMemory` where there was no memory to read it.
pub fn read_heard(
    alloc: Global,
    scratch: &mut Scratch,
    kind: LineRead,
    held: &[u8],
) -> Result<AddressedStep, LineFault>
    ensures { IsReading kind held.now result }
{
    match kind {
        LineRead::Line => read_addressed(alloc, scratch, held),
        LineRead::Long | LineRead::End => Err(LineFault::Bad),
    }
}

/// The step that was read, in one piece, as a list keeps it.
fn in_one_piece(read: Result<AddressedStep, LineFault>) -> Result<Step, LineFault>
    ensures { result ≡ read }
{
    match read {
        Ok(step) => Ok(step.into_step()),
        Err(fault) => Err(fault),
    }
}

fn feed_line<R: BufRead>(
    reader: &mut Counted<R>,
    held: &mut Vec<u8>,
) -> Result<LineRead, ServeFault>
    requires { MAX_LINE_BYTES ≤ vec_capacity held.old }
    ensures room { MAX_LINE_BYTES ≤ vec_capacity held.new }
    ensures heard { IfOk result (λ heard. IsLineRead heard held.new.items
        (R.remaining reader.old.inner) (R.remaining reader.new.inner)) }
    ensures err { IfErr result (λ e. (e ≡ ServeFault.Read) × HasRisen reader.old.failed reader.new.failed) }
    ensures same { OnOk result (reader.new.failed ≡ reader.old.failed) }
    ensures fewer { OnOk result (reader.new.left < reader.old.left) }
{
    held.clear();
    let mut is_long = false;
    loop {
        match fill(reader, held, &mut is_long)? {
            Part::More => {}
            Part::Ended(_) => return Ok(line_kind(is_long)),
            Part::AtEnd => return Ok(heard_at_end(held.as_slice(), is_long)),
        }
    }
}
