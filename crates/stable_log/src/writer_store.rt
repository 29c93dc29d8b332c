//! A store that writes its records.

ghost use Rattle.std.specs.Prelude.{◌≡◌, ◌≢◌, ◌<◌, ◌≤◌, ◌+◌, ◌++◌, ◌∷◌, [], IfOk, OnOk, OnErr, None, length, slice_get};
ghost use Rattle.std.specs.Prelude.{slice_set, string_bytes, Some, true, false};
ghost use Rattle.std.specs.Io.KnownBytes.{Appends, Keeps};
ghost use Rattle.model.specs.Failures.{HasRisen};
ghost use Rattle.written.specs.Beginnings.{AppendsBeginning};
ghost use Rattle.shared_log.specs.Logged.{IsHeld};
ghost use Rattle.stable_log.specs.Writing.{log_line, one_more};

use crate::device::Device;
use forms::write_record;
use model::{NoMemory, Record};
use shared_log::{Records, Store, StoreFault};
use std::alloc::Global;
use std::io::Write;
use std::marker::Model;

/// A store that keeps its records in memory, and writes one line of JSON for each. A record is
/// acknowledged once its line is out. One that is forgotten leaves memory; its line stays written.
///
/// A write that fails closes the store: it writes nothing any more, and each later append counts one
/// more failure of the device and answers `Device`. What was acknowledged before and is not forgotten
/// can still be fetched, which needs no device.
#[derive(Drop)]
pub struct WriterStore<W> {
    alloc: Global,
    records: Records,
    device: Device<W>,
}

impl<W> Model for WriterStore<W> {
    ghost use Rattle.stable_log.specs.Writing.{Writing};

    ghost Value = { Writing W };

    ghost view = { λ s. record {
      records = s.records;
      writer = s.device.writer;
      failures = s.device.failures;
      is_closed = s.device.is_closed;
    } };
}

/// The line of a record, with the line feed at its end.
fn line_of(alloc: Global, logged: &Record) -> Result<String, NoMemory>
    ensures { IfOk result (λ s. string_bytes s ≡ log_line logged.now) }
{
    let mut line = write_record(alloc, logged)?;
    line.push('\n')?;
    Ok(line)
}

impl<W> WriterStore<W> {
    /// A store with no records, over this writer.
    pub fn new(alloc: Global, writer: W) -> WriterStore<W>
        ensures { result ≡ record { records = []; writer = writer; failures = 0; is_closed = false } }
    {
        WriterStore {
            alloc,
            records: Records::new(alloc),
            device: Device::new(writer),
        }
    }

    /// The writer, and what is written.
    pub fn writer(&self) -> &W
        ensures { result.now ≡ self.now.writer }
    {
        self.device.writer()
    }

    /// Whether a write failed: nothing is written any more.
    pub fn is_closed(&self) -> bool
        ensures { result ≡ self.now.is_closed }
    {
        self.device.is_closed()
    }
}

impl<W: Write + Drop> Store for WriterStore<W> {
    ghost log = { λ s. s.records };

    ghost failures = { λ s. s.failures };

    /// Keeps a record, and its place, once its line is out. After an error the records are as they were: where the
    /// writer failed now a beginning of the line is written, and else nothing.
    fn append(&mut self, logged: &Record) -> Result<(), StoreFault>
        ensures ok { OnOk result (self.new.records ≡ self.old.records ++ Some logged.now ∷ []) }
        ensures err { OnErr result (self.new.records ≡ self.old.records) }
        ensures device { result ≡ Err StoreFault.Device → HasRisen self.old.failures self.new.failures }
        ensures up { self.old.failures ≤ self.new.failures }
        ensures line { OnOk result (Appends (W.contents self.old.writer) (W.contents self.new.writer)
            (log_line logged.now)) }
        ensures beginning { result ≡ Err StoreFault.Device
            → AppendsBeginning (W.contents self.old.writer) (W.contents self.new.writer) (log_line logged.now) }
        ensures memory { result ≡ Err StoreFault.NoMemory → self.new ≡ self.old }
        ensures quiet { self.old.is_closed ≡ true → self.new.writer ≡ self.old.writer }
        ensures refused { self.old.is_closed ≡ true → result ≡ Err StoreFault.Device }
        ensures counts { result ≡ Err StoreFault.Device → self.new.failures ≡ one_more self.old.failures }
        ensures uncounted { result ≢ Err StoreFault.Device → self.new.failures ≡ self.old.failures }
        ensures once { self.new.failures ≤ self.old.failures + 1 }
        ensures closes { result ≡ Err StoreFault.Device → self.new.is_closed ≡ true }
        ensures opens { OnOk result (self.new.is_closed ≡ false) }
    {
        if self.device.is_closed() {
            self.device.refuse();
            return Err(StoreFault::Device);
        }
        let line = line_of(self.alloc, logged)?;
        let kept = logged.copy(self.alloc)?;
        self.records.keep(kept)?;
        if self.device.put(line.as_bytes()).is_err() {
            self.records.take_back();
            return Err(StoreFault::Device);
        }
        Ok(())
    }

    fn fetch(&mut self, place: u64) -> Result<Record, StoreFault>
        requires { IsHeld self.old.records place }
        ensures found { IfOk result (λ r. slice_get self.old.records place ≡ Some (Some r)) }
        ensures same { self.new ≡ self.old }
        ensures device { result ≢ Err StoreFault.Device }
    {
        let copied = self.records.copy_of(self.alloc, place)?;
        Ok(copied)
    }

    /// Gives up the record of a place, which stays as an empty one. The record's line stays written.
    fn forget(&mut self, place: u64)
        requires { place < length self.old.records }
        ensures emptied { self.new ≡ record self.old { records = slice_set self.old.records place None } }
        ensures same { self.new.failures ≡ self.old.failures }
    {
        self.records.forget(place);
    }
}
