//! How many bytes feeds may have.

use std::cell::Cell;
use std::io;
use std::io::{ErrorKind, Read};

/// The bytes of all feeds together, at most: their steps stand in memory, in up to nine times as many.
pub(crate) const MOST: u64 = 268_435_456;

/// A reader that takes its bytes out of a budget that readers share, and fails with `FileTooLarge` where it is spent.
#[derive(Drop)]
pub(crate) struct Budgeted<'a, I> {
    left: &'a Cell<u64>,
    inner: I,
}

impl<'a, I> Budgeted<'a, I> {
    pub(crate) fn new(left: &'a Cell<u64>, inner: I) -> Budgeted<'a, I> {
        Budgeted { left, inner }
    }
}

impl<'a, I: Read> Read for Budgeted<'a, I> {
    fn read(&mut self, buf: &mut [u8]) -> io::Result<usize> {
        let count = self.inner.read(buf)?;
        match self.left.get().checked_sub(count as u64) {
            Some(left) => {
                self.left.set(left);
                Ok(count)
            }
            None => {
                self.left.set(0);
                Err(io::Error::from(ErrorKind::FileTooLarge))
            }
        }
    }
}
