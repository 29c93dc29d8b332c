//! A store and a writer that tell of their first call.

ghost use Rattle.std.specs.Prelude.{◌≡◌};

use model::Record;
use stable_log::{MemoryStore, Store, StoreFault};
use std::io;
use std::io::Write;
use std::sync::atomic::{AtomicBool, Ordering};

/// A store in memory that tells of the first append.
#[derive(Drop)]
pub(crate) struct Telling<'a> {
    pub inner: MemoryStore,
    pub appended: &'a AtomicBool,
}

impl<'a> Store for Telling<'a> {
    ghost log = { λ s. ⟦<MemoryStore as Store>⟧.log s.inner };

    ghost failures = { λ s. ⟦<MemoryStore as Store>⟧.failures s.inner };

    fn append(&mut self, logged: &Record) -> Result<(), StoreFault> {
        self.appended.store(true, Ordering::SeqCst);
        self.inner.append(logged)
    }

    fn fetch(&mut self, place: u64) -> Result<Record, StoreFault> {
        self.inner.fetch(place)
    }

    fn forget(&mut self, place: u64) {
        self.inner.forget(place);
    }
}

/// A writer that takes all, and tells of the first write.
#[derive(Drop)]
pub(crate) struct TellingWriter<'a>(pub &'a AtomicBool);

impl<'a> Write for TellingWriter<'a> {
    fn write(&mut self, bytes: &[u8]) -> io::Result<usize> {
        self.0.store(true, Ordering::SeqCst);
        Ok(bytes.len())
    }

    fn flush(&mut self) -> io::Result<()> {
        Ok(())
    }
}
