//! A line, a part at a time.

ghost use Rattle.std.specs.Prelude.{◌≡◌, ◌<◌, ◌≤◌, ◌++◌, List, ℕ, IfOk, OnErr, length, take, slice_index, vec_capacity};
ghost use Rattle.std.specs.Io.KnownBytes.{Keeps};
ghost use Rattle.lines.specs.Lines.{IsPart, Holds};
ghost use Rattle.lines.specs.Parts.{Takes};

use memchr::memchr;
use model::MAX_LINE_BYTES;
use std::io;
use std::io::BufRead;
use written::is_interrupted;

/// How far a read came.
#[derive(Clone, Copy, Debug, PartialEq, Eq)]
pub enum Part {
    /// The line goes on.
    More,
    /// Its end was read, and whether the reader shows more behind it.
    Ended(bool),
    /// There is no more input.
    AtEnd,
}

/// Takes what the reader shows of the line. Where the call was interrupted it takes nothing, and
/// the line goes on.
pub(crate) fn read_part<R: BufRead>(
    reader: &mut R,
    held: &mut Vec<u8>,
    is_long: &mut bool,
) -> io::Result<Part>
    requires { MAX_LINE_BYTES ≤ vec_capacity held.old }
    ensures room { MAX_LINE_BYTES ≤ vec_capacity held.new }
    ensures takes { IfOk result (λ part. Takes part (R.remaining reader.old) (R.remaining reader.new)
        held.old.items is_long.old held.new.items is_long.new) }
    ensures kept { OnErr result (Keeps (R.remaining reader.old) (R.remaining reader.new)) }
{
    let available = match reader.fill_buf() {
        Ok(available) => available,
        Err(e) => {
            return if is_interrupted(&e) {
                Ok(Part::More)
            } else {
                Err(e)
            };
        }
    };
    if available.is_empty() {
        return Ok(Part::AtEnd);
    }
    let end = part_len(available);
    hold(held, is_long, &available[..end]);
    if end < available.len() {
        let ahead = end + 1 < available.len();
        reader.consume(end + 1);
        Ok(Part::Ended(ahead))
    } else {
        reader.consume(end);
        Ok(Part::More)
    }
}

// The bytes before the first line feed.
fn part_len(bytes: &[u8]) -> usize
    ensures within { result ≤ length bytes.now }
    ensures before { IsPart (take result bytes.now) }
    ensures at { result < length bytes.now → slice_index bytes.now result ≡ 10 }
{
    memchr(b'\n', bytes).unwrap_or(bytes.len())
}

// The room is there from the start, so that a line's bytes take no memory.
fn hold(held: &mut Vec<u8>, is_long: &mut bool, part: &[u8])
    requires { MAX_LINE_BYTES ≤ vec_capacity held.old }
    ensures room { MAX_LINE_BYTES ≤ vec_capacity held.new }
    ensures grows { (text : List ℕ) → Holds held.old.items is_long.old text
        → Holds held.new.items is_long.new (text ++ part.now) }
{
    if *is_long {
        return;
    }
    if part.len() <= MAX_LINE_BYTES && held.len() <= MAX_LINE_BYTES - part.len() {
        held.extend_from_slice(part).unwrap();
    } else {
        *is_long = true;
    }
}
