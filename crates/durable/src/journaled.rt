//! The reader that journals.

ghost use Rattle.std.specs.Prelude.{◌≡◌, ◌<◌, ◌≤◌, ◌+◌, ◌-◌, ◌^◌, ℕ, List, [], true, false, IfOk, OnOk, IsErr, length};
ghost use Rattle.std.specs.Prelude.{min, take, vec_capacity};
ghost use Rattle.std.specs.Io.{ReadsAtMost};
ghost use Rattle.std.specs.Io.KnownBytes.{Appends, Keeps, ReadConsumes};
ghost use Rattle.durable.specs.Measuring.{line_feeds};
ghost use Rattle.durable.specs.Standing.{EndsSynced, lasting, left, ends_after};

use crate::durable::Durable;
use std::alloc::{AllocError, Global};
use std::io;
use std::io::{ErrorKind, Read};
use std::marker::Model;
use written::{Failed, put_all};

/// A reader whose bytes are appended to a file, and synced, before it gives them. A block that is
/// read is synced once, however many lines it has. Where the input ends without a line feed one is
/// appended, and synced, before the end is told: the file of a run that ended has whole lines.
///
/// Where the file can't be written or synced the call fails, and so does each later one, without a
/// call of the file: a sync that is asked for again may say yes to bytes that are lost. An error of
/// the reader below is passed on, and changes nothing.
#[derive(Drop)]
pub struct Journaled<R, F> {
    inner: R,
    file: F,
    unkept: Vec<u8>,
    lines: u64,
    is_ended: bool,
    is_broken: bool,
}

impl<R, F> Model for Journaled<R, F> {
    ghost use Rattle.std.specs.Prelude.{◌≡◌, ◌<◌, [], false, vec_capacity};
    ghost use Rattle.durable.specs.Standing.{Journal};

    ghost Value = { Journal R F };

    ghost view = { λ j. record {
      inner = j.inner;
      file = j.file;
      unkept = j.unkept.items;
      lines = j.lines;
      is_ended = j.is_ended;
      is_broken = j.is_broken;
    } };

    ghost invariant = { λ j. (0 < vec_capacity j.unkept) × (j.is_broken ≡ false → j.unkept.items ≡ []) };
}

impl<R, F> Journaled<R, F> {
    /// Reads so many bytes at most at once, and appends them to the file, which has whole lines so
    /// far. `AllocError` comes where there is no memory to hold as many.
    pub fn new(
        alloc: Global,
        block: usize,
        inner: R,
        file: F,
    ) -> Result<Journaled<R, F>, AllocError>
    where
        R: Drop,
        F: Drop,
        requires { 0 < block }
        ensures { IfOk result (λ j.
            j ≡ record { inner = inner; file = file; unkept = []; lines = 0; is_ended = true; is_broken = false }) }
    {
        Ok(Journaled {
            inner,
            file,
            unkept: Vec::with_capacity(alloc, block)?,
            lines: 0,
            is_ended: true,
            is_broken: false,
        })
    }

    /// The file.
    pub fn file(&self) -> &F
        ensures { result.now ≡ self.now.file }
    {
        &self.file
    }

    /// How many whole lines were appended and synced.
    pub fn lines(&self) -> u64
        ensures { result ≡ self.now.lines }
    {
        self.lines
    }

    /// Whether the file failed.
    pub fn is_broken(&self) -> bool
        ensures { result ≡ self.now.is_broken }
    {
        self.is_broken
    }
}

impl<R: Read, F: Durable> Read for Journaled<R, F> {
    ghost remaining = { left R.remaining };

    /// What is given are the last bytes of the file, and the file is synced.
    fn read(&mut self, buf: &mut [u8]) -> io::Result<usize>
        ensures bound { ReadsAtMost result buf.new }
        ensures bytes { ReadConsumes (left R.remaining self.old) (left R.remaining self.new) result buf.new }
        ensures grows { 0 < length buf.old
            → IfOk result (λ n.
            Appends (F.contents self.old.file) (F.contents self.new.file)
            (lasting self.old.is_ended (take n buf.new))) }
        ensures stands { 0 < length buf.old
            → IfOk result (λ n. EndsSynced (F.contents self.new.file) (F.synced self.new.file) (take n buf.new)) }
        ensures ended { 0 < length buf.old → IfOk result (λ n. self.new.is_ended ≡ ends_after (take n buf.new)) }
        ensures lines { 0 < length buf.old
            → IfOk result (λ n.
            self.new.lines ≡ min (self.old.lines + line_feeds (lasting self.old.is_ended (take n buf.new)))
            (2 ^ 64 - 1)) }
        ensures broken { self.old.is_broken ≡ true → IsErr result × (self.new ≡ self.old) }
    {
        if self.is_broken {
            return Err(failed());
        }
        if buf.is_empty() {
            return Ok(0);
        }
        let most = buf.len().min(self.unkept.capacity());
        let count = self.inner.read(&mut buf[..most])?;
        let block = &buf[..count];
        match make_last(&mut self.file, block, &mut self.is_ended) {
            Ok(lines) => {
                self.lines = self.lines.saturating_add(lines);
                Ok(count)
            }
            Err(Failed) => {
                self.is_broken = true;
                self.unkept.extend_from_slice(block).unwrap();
                Err(failed())
            }
        }
    }
}

fn failed() -> io::Error {
    io::Error::new(ErrorKind::Other, "the journal can't be written")
}

/// Appends what lasts of a block, and syncs it. Tells how many lines end in it.
fn make_last<F: Durable>(file: &mut F, block: &[u8], is_ended: &mut bool) -> Result<u64, Failed>
    ensures grows { OnOk result (Appends (F.contents file.old) (F.contents file.new) (lasting is_ended.old block.now)) }
    ensures stands { OnOk result (EndsSynced (F.contents file.new) (F.synced file.new) block.now) }
    ensures ended { OnOk result (is_ended.new ≡ ends_after block.now) }
    ensures lines { IfOk result (λ n. n ≡ line_feeds (lasting is_ended.old block.now)) }
{
    if block.is_empty() {
        return end_file(file, is_ended);
    }
    put_synced(file, block)?;
    *is_ended = block.last() == Some(&b'\n');
    Ok(count_line_feeds(block))
}

/// Ends the last line of the file.
#[tactic(auto, using(crate::proofs::Ends::ends_with_none))]
fn end_file<F: Durable>(file: &mut F, is_ended: &mut bool) -> Result<u64, Failed>
    ensures grows { OnOk result (Appends (F.contents file.old) (F.contents file.new) (lasting is_ended.old [])) }
    ensures stands { OnOk result (EndsSynced (F.contents file.new) (F.synced file.new) []) }
    ensures ended { OnOk result (is_ended.new ≡ true) }
    ensures lines { IfOk result (λ n. n ≡ line_feeds (lasting is_ended.old [])) }
{
    if *is_ended {
        put_synced(file, b"")?;
        return Ok(0);
    }
    put_synced(file, b"\n")?;
    *is_ended = true;
    Ok(1)
}

/// Appends bytes and syncs the file.
fn put_synced<F: Durable>(file: &mut F, bytes: &[u8]) -> Result<(), Failed>
    ensures grows { OnOk result (Appends (F.contents file.old) (F.contents file.new) bytes.now) }
    ensures stands { OnOk result (EndsSynced (F.contents file.new) (F.synced file.new) bytes.now) }
{
    put_all(file, bytes)?;
    match file.sync() {
        Ok(()) => Ok(()),
        Err(_) => Err(Failed),
    }
}

/// How many lines end in the bytes.
fn count_line_feeds(bytes: &[u8]) -> u64
    ensures { result ≡ line_feeds bytes.now }
{
    let mut count = 0u64;
    for byte in bytes {
        if *byte == b'\n' {
            count += 1;
        }
    }
    count
}
