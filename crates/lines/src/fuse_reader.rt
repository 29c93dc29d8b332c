//! A reader that fails.

ghost use Rattle.std.specs.Prelude.{◌≤◌, length};

use std::io;
use std::io::{BufRead, ErrorKind, Read};

/// Shows so many lines of a reader, each with its line feed, and then fails; an end of the input before that stays an
/// end. For tests: no clause tells which bytes it shows.
#[derive(Drop)]
pub struct FuseReader<R> {
    inner: R,
    left: u64,
}

impl<R> FuseReader<R> {
    /// A reader that fails before the line of this number, from 0.
    pub fn new(inner: R, lines: u64) -> FuseReader<R> {
        FuseReader { inner, left: lines }
    }
}

/// How many bytes of these are of the first line, with its line feed.
fn line_length(shown: &[u8]) -> usize
    ensures { result ≤ length shown.now }
{
    match shown.iter().position(|byte| *byte == b'\n') {
        Some(at) => at + 1,
        None => shown.len(),
    }
}

/// Whether the line ends with the last of so many bytes.
fn ends_line(shown: &[u8], count: usize) -> bool {
    0 < count && count <= shown.len() && shown[count - 1] == b'\n'
}

/// How many bytes there are and fit.
fn fitting(shown: &[u8], room: &[u8]) -> usize
    ensures shown { result ≤ length shown.now }
    ensures room { result ≤ length room.now }
{
    shown.len().min(room.len())
}

impl<R: BufRead> Read for FuseReader<R> {
    fn read(&mut self, buf: &mut [u8]) -> io::Result<usize> {
        let shown = self.fill_buf()?;
        let count = fitting(shown, buf);
        buf[..count].copy_from_slice(&shown[..count]);
        self.consume(count);
        Ok(count)
    }
}

impl<R: BufRead> BufRead for FuseReader<R> {
    fn fill_buf(&mut self) -> io::Result<&[u8]> {
        if self.left == 0 {
            return Err(io::Error::from(ErrorKind::BrokenPipe));
        }
        let shown = self.inner.fill_buf()?;
        let count = line_length(shown);
        Ok(&shown[..count])
    }

    fn consume(&mut self, amount: usize) {
        let is_ended = match self.inner.fill_buf() {
            Ok(shown) => ends_line(shown, amount),
            Err(_) => false,
        };
        if is_ended {
            self.left = self.left.saturating_sub(1);
        }
        self.inner.consume(amount);
    }
}
