//! What counts failures. Only this module can raise a count, and it does so only where a call of
//! what is counted failed, or where 2^64 - 1 calls were made: that part is read here, and not
//! proved.

ghost use Rattle.std.specs.Prelude.{◌≡◌, ◌<◌, ◌≤◌, OnOk, OnErr, IfErr, IfOk, vec_capacity};
ghost use Rattle.std.specs.Io.KnownBytes.{Appends, Keeps};
ghost use Rattle.model.specs.Failures.{HasRisen};
ghost use Rattle.lines.specs.Parts.{Takes};
ghost use Rattle.written.specs.Beginnings.{AppendsBeginning};

use crate::fault::ServeFault;
use crate::part::{Part, read_part};
use model::MAX_LINE_BYTES;
use std::io::{BufRead, Write};
use std::marker::Model;
use written::{flush_all, put_all};

/// A reader or a writer, with a count of its calls that failed. The count stays at its greatest.
///
/// A call that was interrupted is made again, and isn't counted. A write that takes nothing has
/// failed. A reader has failed too once 2^64 - 1 calls of it were made, and a writer where as many
/// went to one reply.
#[derive(Drop)]
pub struct Counted<T> {
    pub inner: T,
    failed: u64,
    left: u64,
}

impl<T> Model for Counted<T> {
    ghost use Rattle.lines.specs.Counting.{Tally};

    ghost Value = { Tally T };

    ghost view = { λ c. record { inner = c.inner; failed = c.failed; left = c.left } };
}

impl<T> Counted<T> {
    pub fn new(inner: T) -> Counted<T>
        ensures inner { result.inner ≡ inner }
        ensures failed { result.failed ≡ 0 }
    {
        Counted {
            inner,
            failed: 0,
            left: u64::MAX,
        }
    }

    /// How many calls failed.
    pub fn failed(&self) -> u64
        ensures { result ≡ self.now.failed }
    {
        let Counted { failed, .. } = self;
        *failed
    }

    /// How many more calls may be made of a reader.
    pub fn calls_left(&self) -> u64
        ensures { result ≡ self.now.left }
    {
        self.left
    }

    fn count_failure(&mut self)
        ensures inner { self.new.inner ≡ self.old.inner }
        ensures risen { HasRisen self.old.failed self.new.failed }
        ensures up { self.old.failed ≤ self.new.failed }
        ensures left { self.new.left ≡ self.old.left }
    {
        self.failed = self.failed.saturating_add(1);
    }
}

/// Takes what the reader shows of the line. `Read` comes only where the reader failed, and nothing is taken then.
pub fn fill<R: BufRead>(
    reader: &mut Counted<R>,
    held: &mut Vec<u8>,
    is_long: &mut bool,
) -> Result<Part, ServeFault>
    requires { MAX_LINE_BYTES ≤ vec_capacity held.old }
    ensures room { MAX_LINE_BYTES ≤ vec_capacity held.new }
    ensures takes { IfOk result (λ part. Takes part
        (R.remaining reader.old.inner) (R.remaining reader.new.inner)
        held.old.items is_long.old held.new.items is_long.new) }
    ensures kept { OnErr result (Keeps (R.remaining reader.old.inner) (R.remaining reader.new.inner)) }
    ensures err { IfErr result (λ e. (e ≡ ServeFault.Read) × HasRisen reader.old.failed reader.new.failed) }
    ensures same { OnOk result (reader.new.failed ≡ reader.old.failed) }
    ensures fewer { OnOk result (reader.new.left < reader.old.left) }
{
    if reader.left == 0 {
        reader.count_failure();
        return Err(ServeFault::Read);
    }
    reader.left -= 1;
    match read_part(&mut reader.inner, held, is_long) {
        Ok(part) => Ok(part),
        Err(_) => {
            reader.count_failure();
            Err(ServeFault::Read)
        }
    }
}

/// Writes these bytes. `Write` comes only where the writer failed; a beginning of them may be written then.
pub fn put_bytes<W: Write>(writer: &mut Counted<W>, bytes: &[u8]) -> Result<(), ServeFault>
    ensures ok { OnOk result (Appends (W.contents writer.old.inner) (W.contents writer.new.inner) bytes.now) }
    ensures err { OnErr result
        (AppendsBeginning (W.contents writer.old.inner) (W.contents writer.new.inner) bytes.now) }
    ensures fault { IfErr result (λ e. (e ≡ ServeFault.Write) × HasRisen writer.old.failed writer.new.failed) }
    ensures same { OnOk result (writer.new.failed ≡ writer.old.failed) }
{
    match put_all(&mut writer.inner, bytes) {
        Ok(()) => Ok(()),
        Err(_) => {
            writer.count_failure();
            Err(ServeFault::Write)
        }
    }
}

/// Flushes what was written, unless there is more to read without waiting. `Write` comes only where the writer failed.
pub fn flush_unless<W: Write>(writer: &mut Counted<W>, ahead: bool) -> Result<(), ServeFault>
    ensures keeps { Keeps (W.contents writer.old.inner) (W.contents writer.new.inner) }
    ensures err { IfErr result (λ e. (e ≡ ServeFault.Write) × HasRisen writer.old.failed writer.new.failed) }
    ensures same { OnOk result (writer.new.failed ≡ writer.old.failed) }
{
    if ahead {
        return Ok(());
    }
    match flush_all(&mut writer.inner) {
        Ok(()) => Ok(()),
        Err(_) => {
            writer.count_failure();
            Err(ServeFault::Write)
        }
    }
}
