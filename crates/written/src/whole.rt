//! Writes until all is out.

ghost use Rattle.std.specs.Prelude.{◌≡◌, ◌≤◌, ◌↔◌, IfOk, IsTrue, OnOk, OnErr, length, take};
ghost use Rattle.std.specs.Io.KnownBytes.{Appends, Keeps};
ghost use Rattle.std.specs.IoError.{error_kind};
ghost use Rattle.written.specs.Beginnings.{AppendsBeginning};

use std::io;
use std::io::{ErrorKind, Write};
use thiserror::Error;

/// A writer failed: a call of it that wasn't interrupted did, or it took nothing of bytes that are
/// there, or 2^64 - 1 calls were not enough.
#[derive(Clone, Copy, Debug, PartialEq, Eq, Error)]
#[error("the writer failed")]
pub struct Failed;

/// Whether a call was interrupted: it did nothing, and may be made again.
pub fn is_interrupted(error: &io::Error) -> bool
    ensures { IsTrue result ↔ (error_kind error.now ≡ ErrorKind.Interrupted) }
{
    error.kind() == ErrorKind::Interrupted
}

/// Writes all of the bytes, or a beginning of them where the writer fails.
pub fn put_all<W: Write>(writer: &mut W, bytes: &[u8]) -> Result<(), Failed>
    ensures ok { OnOk result (Appends (W.contents writer.old) (W.contents writer.new) bytes.now) }
    ensures err { OnErr result (AppendsBeginning (W.contents writer.old) (W.contents writer.new) bytes.now) }
{
    let mut rest = bytes;
    for _ in 0..u64::MAX {
        if rest.is_empty() {
            return Ok(());
        }
        let n = put_some(writer, rest)?;
        let (_, after) = rest.split_at(n);
        rest = after;
    }
    Err(Failed)
}

/// How many of the bytes one write took: none where it was interrupted.
fn put_some<W: Write>(writer: &mut W, bytes: &[u8]) -> Result<usize, Failed>
    ensures within { IfOk result (λ n. n ≤ length bytes.now) }
    ensures ok { IfOk result (λ n. Appends (W.contents writer.old) (W.contents writer.new) (take n bytes.now)) }
    ensures err { OnErr result (Keeps (W.contents writer.old) (W.contents writer.new)) }
{
    match writer.write(bytes) {
        Ok(0) => Err(Failed),
        Ok(n) => Ok(n),
        Err(e) => {
            if is_interrupted(&e) {
                Ok(0)
            } else {
                Err(Failed)
            }
        }
    }
}

/// Flushes what was written.
pub fn flush_all<W: Write>(writer: &mut W) -> Result<(), Failed>
    ensures { Keeps (W.contents writer.old) (W.contents writer.new) }
{
    for _ in 0..u64::MAX {
        if flush_some(writer)? {
            return Ok(());
        }
    }
    Err(Failed)
}

/// Whether one flush came to its end: it doesn't where it was interrupted.
fn flush_some<W: Write>(writer: &mut W) -> Result<bool, Failed>
    ensures { Keeps (W.contents writer.old) (W.contents writer.new) }
{
    match writer.flush() {
        Ok(()) => Ok(true),
        Err(e) => {
            if is_interrupted(&e) {
                Ok(false)
            } else {
                Err(Failed)
            }
        }
    }
}
