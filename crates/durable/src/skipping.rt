//! Lines that whoever goes on has already.

use std::io;
use std::io::Write;

/// A writer of lines, each in one piece, that leaves out the first ones.
#[derive(Drop)]
pub struct Skipping<W> {
    pub inner: W,
    /// How many more are left out.
    pub left: u64,
    /// How many came, those that are left out among them.
    pub came: u64,
}

impl<W> Skipping<W> {
    /// A writer that leaves out so many lines, behind so many that came before.
    pub fn new(inner: W, left: u64, came: u64) -> Skipping<W> {
        Skipping { inner, left, came }
    }
}

impl<W: Write> Write for Skipping<W> {
    fn write(&mut self, buf: &[u8]) -> io::Result<usize> {
        if self.left == 0 {
            let count = self.inner.write(buf)?;
            self.came = self.came.saturating_add(1);
            return Ok(count);
        }
        self.left -= 1;
        self.came = self.came.saturating_add(1);
        Ok(buf.len())
    }

    fn flush(&mut self) -> io::Result<()> {
        self.inner.flush()
    }
}
