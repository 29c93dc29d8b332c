//! Replies that refuse.

use std::io;
use std::io::Write;

/// How a reply line begins that refuses a step, but for a flush that logged some records.
const REFUSAL: &[u8] = b"{\"no\":";

/// How the reply to a flush begins, and what it has where its end was refused.
const FLUSH: &[u8] = b"{\"count\":";

const FLUSH_REFUSAL: &[u8] = b",\"no\":";

/// A writer of reply lines, each in one piece, that counts those which refuse.
#[derive(Drop)]
pub struct Judged<W> {
    pub inner: W,
    pub refused: u64,
}

impl<W> Judged<W> {
    /// A writer that has counted none yet.
    pub fn new(inner: W) -> Judged<W> {
        Judged { inner, refused: 0 }
    }
}

/// Whether the reply line refuses. Within a text no quote stands without a backslash.
fn refuses(line: &[u8]) -> bool {
    line.starts_with(REFUSAL) || (line.starts_with(FLUSH) && has_refusal(line))
}

fn has_refusal(line: &[u8]) -> bool {
    match line.iter().position(|byte| *byte == b',') {
        Some(at) => line[at..].starts_with(FLUSH_REFUSAL),
        None => false,
    }
}

impl<W: Write> Write for Judged<W> {
    fn write(&mut self, buf: &[u8]) -> io::Result<usize> {
        let count = self.inner.write(buf)?;
        if refuses(buf) {
            self.refused = self.refused.saturating_add(1);
        }
        Ok(count)
    }

    fn flush(&mut self) -> io::Result<()> {
        self.inner.flush()
    }
}
