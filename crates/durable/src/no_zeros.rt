//! The bytes of a journal.

use std::io;
use std::io::Read;

/// A reader that gives 1 in the place of each byte 0. No step line has either, so the line that has it is bad all the
/// same, and is answered so. A byte 0 of a journal is then one that never reached the disk.
#[derive(Drop)]
pub struct NoZeros<R> {
    inner: R,
}

impl<R> NoZeros<R> {
    /// One over this reader, from where it stands. Takes no memory.
    pub fn new(inner: R) -> NoZeros<R> {
        NoZeros { inner }
    }
}

impl<R: Read> Read for NoZeros<R> {
    fn read(&mut self, buf: &mut [u8]) -> io::Result<usize> {
        let count = self.inner.read(buf)?;
        for byte in &mut buf[..count] {
            if *byte == 0 {
                *byte = 1;
            }
        }
        Ok(count)
    }
}
