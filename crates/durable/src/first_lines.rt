//! The next lines of a reader.

ghost use Rattle.std.specs.Prelude.{◌≤◌, length};

use memchr::{memchr, memchr_iter};
use std::io;
use std::io::{BufRead, Read};

/// A reader of so many lines of another, at most: it ends behind them, though there may be more.
#[derive(Drop)]
pub struct FirstLines<R> {
    inner: R,
    left: u64,
    /// How many bytes of the block that the other shows are known to be of these lines; 0 where that isn't known. So
    /// a block is looked through once, and not for each of its lines.
    open: usize,
    /// How many lines ended in what was read.
    pub lines: u64,
    /// How many bytes were read.
    pub bytes: u64,
}

/// How many line feeds there are. Most often it is one, at the end.
fn line_feeds(bytes: &[u8]) -> u64 {
    match memchr(b'\n', bytes) {
        Some(at) if at + 1 == bytes.len() => 1,
        _ => memchr_iter(b'\n', bytes).count() as u64,
    }
}

/// How many of the bytes belong to so many lines at most. Each line has one byte at least, so that where there are no
/// more bytes than lines none is looked at.
fn len_of_lines(bytes: &[u8], lines: u64) -> usize
    ensures { result ≤ length bytes.now }
{
    if bytes.len() as u64 <= lines {
        return bytes.len();
    }
    let mut left = lines;
    for at in 0..bytes.len() {
        if bytes[at] == b'\n' {
            left = left.saturating_sub(1);
            if left == 0 {
                return at + 1;
            }
        }
    }
    bytes.len()
}

/// How many bytes of a block are shown, where so many lines are left, and so many bytes are known to be of them.
fn len_shown(block: &[u8], lines: u64, known: usize) -> usize
    ensures { result ≤ length block.now }
{
    if known > 0 {
        return block.len().min(known);
    }
    len_of_lines(block, lines)
}

impl<R> FirstLines<R> {
    /// A reader of so many lines.
    pub fn new(inner: R, lines: u64) -> FirstLines<R> {
        FirstLines {
            inner,
            left: lines,
            open: 0,
            lines: 0,
            bytes: 0,
        }
    }

    /// Whether all these lines were read.
    pub fn is_through(&self) -> bool {
        self.left == 0
    }

    /// Counts bytes that are read.
    fn count(&mut self, bytes: u64, lines: u64) {
        self.left = self.left.saturating_sub(lines);
        self.lines = self.lines.saturating_add(lines);
        self.bytes = self.bytes.saturating_add(bytes);
    }
}

impl<R: BufRead> Read for FirstLines<R> {
    fn read(&mut self, buf: &mut [u8]) -> io::Result<usize> {
        let block = self.fill_buf()?;
        let count = block.len().min(buf.len());
        buf[..count].copy_from_slice(&block[..count]);
        self.consume(count);
        Ok(count)
    }
}

impl<R: BufRead> BufRead for FirstLines<R> {
    fn fill_buf(&mut self) -> io::Result<&[u8]> {
        if self.left == 0 {
            return Ok(b"");
        }
        let left = self.left;
        let open = self.open;
        let block = self.inner.fill_buf()?;
        let count = len_shown(block, left, open);
        Ok(&block[..count])
    }

    fn consume(&mut self, amount: usize) {
        let left = self.left;
        let open = self.open;
        let Ok(block) = self.inner.fill_buf() else {
            return;
        };
        let shown = len_shown(block, left, open);
        let count = shown.min(amount);
        let lines = line_feeds(&block[..count]);
        self.inner.consume(count);
        self.open = shown - count;
        self.count(count as u64, lines);
    }
}
