//! The next line of an input.

ghost use Rattle.std.specs.Prelude.{◌≡◌, ◌≢◌, ◌<◌, ◌≤◌, ◌==◌, IfOk, IfErr, OnOk, OnErr, if◌then◌else◌, length};
ghost use Rattle.std.specs.Prelude.{vec_capacity};
ghost use Rattle.std.specs.Io.KnownBytes.{Keeps};
ghost use Rattle.model.specs.Failures.{HasRisen};
ghost use Rattle.lines.specs.Parts.{Takes, TakesPart, IsLineRead};

use crate::counted::{Counted, fill, flush_unless};
use crate::fault::ServeFault;
use crate::part::Part;
use model::MAX_LINE_BYTES;
use std::io::{BufRead, Write};

/// What was read.
#[derive(Clone, Copy, Debug, PartialEq, Eq)]
pub enum LineRead {
    /// A line, which is held.
    Line,
    /// A line that is too long to hold.
    Long,
    /// No line was left.
    End,
}

/// Reads a line, of which `held` has all bytes then, unless it is too long. Before each read that may wait, what was
/// written is flushed: that is where the last read didn't show that there is more, as `ahead` tells.
///
/// `Read` comes only where the reader failed, and `Write` only where the writer failed. At most a part of a line is
/// taken then.
pub fn read_line<R: BufRead, W: Write>(
    reader: &mut Counted<R>,
    writer: &mut Counted<W>,
    held: &mut Vec<u8>,
    ahead: &mut bool,
) -> Result<LineRead, ServeFault>
    requires { MAX_LINE_BYTES ≤ vec_capacity held.old }
    ensures room { MAX_LINE_BYTES ≤ vec_capacity held.new }
    ensures heard { IfOk result (λ heard. IsLineRead heard held.new.items
        (R.remaining reader.old.inner) (R.remaining reader.new.inner)) }
    ensures part { OnErr result (TakesPart (R.remaining reader.old.inner) (R.remaining reader.new.inner)) }
    ensures keeps { Keeps (W.contents writer.old.inner) (W.contents writer.new.inner) }
    ensures read { result ≡ Err ServeFault.Read → HasRisen reader.old.failed reader.new.failed }
    ensures write { result ≡ Err ServeFault.Write → HasRisen writer.old.failed writer.new.failed }
    ensures memory { result ≢ Err ServeFault.NoMemory }
    ensures read_same { result ≢ Err ServeFault.Read → reader.new.failed ≡ reader.old.failed }
    ensures write_same { result ≢ Err ServeFault.Write → writer.new.failed ≡ writer.old.failed }
    ensures fewer { OnOk result (reader.new.left < reader.old.left) }
{
    held.clear();
    let mut is_long = false;
    loop {
        flush_unless(writer, *ahead)?;
        *ahead = false;
        match fill(reader, held, &mut is_long)? {
            Part::More => {}
            Part::Ended(more) => {
                *ahead = more;
                return Ok(line_kind(is_long));
            }
            Part::AtEnd => return Ok(heard_at_end(held.as_slice(), is_long)),
        }
    }
}

/// What a line that ended is.
pub fn line_kind(is_long: bool) -> LineRead
    ensures { result ≡ (if is_long then LineRead.Long else LineRead.Line) }
{
    if is_long {
        LineRead::Long
    } else {
        LineRead::Line
    }
}

/// What stands before the end of the input: a line without a line feed, or none.
pub fn heard_at_end(held: &[u8], is_long: bool) -> LineRead
    ensures { result
        ≡ (if is_long then LineRead.Long else if length held.now == 0 then LineRead.End else LineRead.Line) }
{
    if is_long {
        LineRead::Long
    } else if held.is_empty() {
        LineRead::End
    } else {
        LineRead::Line
    }
}
