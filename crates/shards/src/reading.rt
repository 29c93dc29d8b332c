//! The lines of a block are read, in threads where there are enough of them.

ghost use Rattle.std.specs.Prelude.{◌≡◌, ◌<◌, ◌≤◌, ◌+◌, ◌*◌, ℕ, length, min, slice_index_or};
ghost use Rattle.shards.specs.Kept.{AreReadFrom, IsReadAt};

use crate::kept::Lines;
use json::Scratch;
use lines::LineFault;
use model::AddressedStep;
use std::alloc::Global;
use std::collections::VecDeque;
use std::thread;
use std::thread::Threads;

/// What one thread needs to read a share of a block's lines, and what it read of them.
#[derive(Drop)]
pub(crate) struct Reader {
    alloc: Global,
    scratch: Scratch,
    pub found: VecDeque<Result<AddressedStep, LineFault>>,
}

impl Reader {
    pub(crate) fn new(alloc: Global) -> Reader {
        Reader {
            alloc,
            scratch: Scratch::new(alloc),
            found: VecDeque::new(alloc),
        }
    }

    /// Reads the lines from one place up to another. Where there is no memory for what is read of a line, it and those
    /// behind it are left out.
    pub(crate) fn read(&mut self, lines: &Lines, from: usize, to: usize)
        requires { to ≤ length lines.now }
        ensures { AreReadFrom lines.now from self.new.found.items }
    {
        self.found.clear();
        for at in from..to {
            let read = lines.read(self.alloc, &mut self.scratch, at);
            if self.found.push_back(read).is_err() {
                return;
            }
        }
    }

    /// What was read of the next line, which stands at this place, or what is told of a line that was left out.
    pub(crate) fn next(&mut self, lines: &Lines, at: usize) -> Result<AddressedStep, LineFault>
        requires within { at < length lines.now }
        requires read { AreReadFrom lines.now at self.old.found.items }
        ensures read { IsReadAt lines.now at result }
        ensures others { AreReadFrom lines.now (at + 1) self.new.found.items }
    {
        match self.found.pop_front() {
            Some(read) => read,
            None => Err(lines.unread(at)),
        }
    }
}

/// At which place the share of a reader begins, where each has so many lines of so many.
pub(crate) fn share_start(size: usize, reader: usize, count: usize) -> usize
    ensures { result ≡ min (reader * size) count }
{
    reader.saturating_mul(size).min(count)
}

/// Each reader reads its share of the lines, in at most so many threads.
pub(crate) fn read_shares<T: Threads + Sync>(
    rt: &T,
    lines: &Lines,
    readers: &mut [Reader],
    size: usize,
    threads: usize,
)
    requires { 0 < threads }
    ensures { (i : ℕ) (d : _) → i < length readers.old
        → AreReadFrom lines.now (min (i * size) (length lines.now)) (slice_index_or readers.new i d).found.items }
{
    thread::for_each_mut(
        rt,
        readers,
        threads,
        &|at, reader: &mut Reader|
            ensures { AreReadFrom lines.entry.now (min (at * size) (length lines.entry.now))
                reader.exit.now.found.items }
        { read_share(reader, lines, size, at) },
    );
}

/// A reader reads its share of the lines.
fn read_share(reader: &mut Reader, lines: &Lines, size: usize, at: usize)
    ensures { AreReadFrom lines.now (min (at * size) (length lines.now)) reader.new.found.items }
{
    let count = lines.len();
    let from = share_start(size, at, count);
    let to = from.saturating_add(size).min(count);
    reader.read(lines, from, to);
}
