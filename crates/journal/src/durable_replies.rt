//! Replies that a later run can keep.

ghost use Rattle.std.specs.Prelude.{◌≡◌, true, false, IsErr, Ok, OnOk};
ghost use Rattle.std.specs.Io.{WritesAtMost};
ghost use Rattle.std.specs.Io.KnownBytes.{WriteAppends};
ghost use Rattle.journal.specs.Promises.{tells_memory};

use std::io;
use std::io::{ErrorKind, Write};

/// How the line of a reply ends that tells want of memory.
const MEMORY_END: [u8; 15] = *b"\"no\":\"memory\"}\n";

/// A writer of reply lines that lets no reply through that tells want of memory: a run that steps
/// the same lines again may have memory, and would answer otherwise. Such a line is refused, and
/// nothing of it is written.
#[derive(Drop)]
pub struct DurableReplies<W> {
    pub inner: W,
    /// Whether a line was refused.
    pub is_refused: bool,
}

impl<W> DurableReplies<W> {
    /// A writer that has refused nothing yet.
    pub fn new(inner: W) -> DurableReplies<W>
        ensures { result ≡ record { inner = inner; is_refused = false } }
    {
        DurableReplies {
            inner,
            is_refused: false,
        }
    }
}

impl<W: Write> Write for DurableReplies<W> {
    ghost contents = { λ p. W.contents p.inner };

    fn write(&mut self, buf: &[u8]) -> io::Result<usize>
        ensures bound { WritesAtMost result buf.now }
        ensures bytes { WriteAppends (W.contents self.old.inner) (W.contents self.new.inner) result buf.now }
        ensures refused { tells_memory buf.now ≡ true → IsErr result
            × (self.new ≡ record { inner = self.old.inner; is_refused = true }) }
        ensures passed { tells_memory buf.now ≡ false → self.new.is_refused ≡ self.old.is_refused }
    {
        if buf.ends_with(&MEMORY_END) {
            self.is_refused = true;
            return Err(io::Error::from(ErrorKind::OutOfMemory));
        }
        self.inner.write(buf)
    }

    fn flush(&mut self) -> io::Result<()> {
        self.inner.flush()
    }
}
