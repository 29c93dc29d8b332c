//! Streams that may be non-blocking.

use std::io;
use std::io::{ErrorKind, Read, Write};
use std::thread::sleep;
use std::time::{Clock, Duration};

/// Bytes that are read or written at once, at most: those of a journal are appended and synced as one.
pub const BLOCK: usize = 65536;

/// How many milliseconds pass before a stream that had nothing is asked again.
const PAUSE: u64 = 2;

/// A reader or a writer that waits where its stream, which another program made non-blocking, has nothing to give or no
/// room: it is asked again until it has.
#[derive(Drop)]
pub struct Patient<'a, R, T> {
    clock: &'a R,
    inner: T,
}

impl<'a, R, T> Patient<'a, R, T> {
    /// Waits for this stream.
    pub fn new(clock: &'a R, inner: T) -> Patient<'a, R, T> {
        Patient { clock, inner }
    }
}

/// Whether the stream is to be asked again.
fn would_block(error: &io::Error) -> bool {
    error.kind() == ErrorKind::WouldBlock
}

fn pause(clock: &impl Clock) {
    sleep(clock, Duration::from_millis(PAUSE));
}

impl<'a, R: Clock, T: Read> Read for Patient<'a, R, T> {
    fn read(&mut self, buf: &mut [u8]) -> io::Result<usize> {
        for _ in 0..u64::MAX {
            match self.inner.read(buf) {
                Err(error) if would_block(&error) => pause(self.clock),
                other => return other,
            }
        }
        Err(io::Error::from(ErrorKind::WouldBlock))
    }
}

impl<'a, R: Clock, T: Write> Write for Patient<'a, R, T> {
    fn write(&mut self, buf: &[u8]) -> io::Result<usize> {
        for _ in 0..u64::MAX {
            match self.inner.write(buf) {
                Err(error) if would_block(&error) => pause(self.clock),
                other => return other,
            }
        }
        Err(io::Error::from(ErrorKind::WouldBlock))
    }

    fn flush(&mut self) -> io::Result<()> {
        for _ in 0..u64::MAX {
            match self.inner.flush() {
                Err(error) if would_block(&error) => pause(self.clock),
                other => return other,
            }
        }
        Err(io::Error::from(ErrorKind::WouldBlock))
    }
}
