//! A writer that fails.

ghost use Rattle.std.specs.Prelude.{◌≡◌, ◌⊎◌, ◌-◌, ◌≤◌, ◌++◌, [], IfErr, IfOk, OnErr, Some, take, length, min};
ghost use Rattle.std.specs.Io.{WritesAtMost};
ghost use Rattle.std.specs.IoError.{error_kind};
ghost use Rattle.std.specs.Io.KnownBytes.{Keeps, WriteAppends};

use std::alloc::Global;
use std::io;
use std::io::{ErrorKind, Write};
use std::marker::Model;

/// Takes so many bytes, and then fails. For tests.
#[derive(Drop)]
pub struct FuseWriter {
    bytes: Vec<u8>,
    left: usize,
}

impl Model for FuseWriter {
    ghost use Rattle.stable_log.specs.Fuses.{Fuse};

    ghost Value = { Fuse };

    ghost view = { λ w. record { bytes = w.bytes.items; left = w.left } };
}

impl FuseWriter {
    /// A writer that takes `left` bytes, and has taken none yet.
    pub fn new(alloc: Global, left: usize) -> FuseWriter
        ensures { result ≡ record { bytes = []; left = left } }
    {
        FuseWriter {
            bytes: Vec::new(alloc),
            left,
        }
    }

    /// What was taken.
    pub fn bytes(&self) -> &[u8]
        ensures { result.now ≡ self.now.bytes }
    {
        self.bytes.as_slice()
    }
}

/// How many bytes of a piece there is room for.
fn room_for(left: usize, piece: &[u8]) -> usize
    ensures { result ≡ min left (length piece.now) }
{
    if piece.len() < left {
        piece.len()
    } else {
        left
    }
}

impl Write for FuseWriter {
    ghost contents = { λ w. Some w.bytes };

    fn write(&mut self, buf: &[u8]) -> io::Result<usize>
        ensures bound { WritesAtMost result buf.now }
        ensures bytes { WriteAppends (Some self.old.bytes) (Some self.new.bytes) result buf.now }
        ensures taken { IfOk result (λ n. n ≡ min self.old.left (length buf.now)) }
        ensures left { IfOk result (λ n. self.new.left ≡ self.old.left - n) }
        ensures full { IfErr result (λ e. (error_kind e ≡ ErrorKind.OutOfMemory) ⊎ (self.old.left ≡ 0)) }
        ensures err { OnErr result (self.new ≡ self.old) }
    {
        if self.left == 0 {
            return Err(io::Error::from(ErrorKind::StorageFull));
        }
        let taken = room_for(self.left, buf);
        self.bytes.extend_from_slice(&buf[..taken])?;
        self.left -= taken;
        Ok(taken)
    }

    fn flush(&mut self) -> io::Result<()>
        ensures bytes { Keeps (Some self.old.bytes) (Some self.new.bytes) }
        ensures same { self.new ≡ self.old }
        ensures works { IfErr result (λ _. ⊥) }
    {
        Ok(())
    }
}
