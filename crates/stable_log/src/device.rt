//! What counts the failures of a writer. Only this module can raise the count, and it does so only where a call of the
//! writer failed, or where the device is closed since one did: that part is read here, and not proved.

ghost use Rattle.std.specs.Prelude.{◌≡◌, ◌≤◌, OnOk, OnErr, false, true};
ghost use Rattle.std.specs.Io.KnownBytes.{Appends};
ghost use Rattle.model.specs.Failures.{HasRisen};
ghost use Rattle.written.specs.Beginnings.{AppendsBeginning};
ghost use Rattle.stable_log.specs.Writing.{one_more};

use std::io::Write;
use std::marker::Model;
use written::{Failed, flush_all, put_all};

/// A writer, with a count of its failures. It is open until one, and closed from then on. The count stays at its
/// greatest.
#[derive(Drop)]
pub(crate) struct Device<W> {
    writer: W,
    failures: u64,
    is_closed: bool,
}

impl<W> Model for Device<W> {
    ghost use Rattle.stable_log.specs.Writing.{Wired};

    ghost Value = { Wired W };

    ghost view = { λ d. record { writer = d.writer; failures = d.failures; is_closed = d.is_closed } };
}

/// Writes all of the bytes and flushes them. Where that fails a beginning of them is written.
fn put_out<W: Write>(writer: &mut W, bytes: &[u8]) -> Result<(), Failed>
    ensures ok { OnOk result (Appends (W.contents writer.old) (W.contents writer.new) bytes.now) }
    ensures err { OnErr result (AppendsBeginning (W.contents writer.old) (W.contents writer.new) bytes.now) }
{
    put_all(writer, bytes)?;
    flush_all(writer)
}

impl<W> Device<W> {
    /// An open device over this writer.
    pub(crate) fn new(writer: W) -> Device<W>
        ensures { result ≡ record { writer = writer; failures = 0; is_closed = false } }
    {
        Device {
            writer,
            failures: 0,
            is_closed: false,
        }
    }

    pub(crate) fn writer(&self) -> &W
        ensures { result.now ≡ self.now.writer }
    {
        &self.writer
    }

    pub(crate) fn is_closed(&self) -> bool
        ensures { result ≡ self.now.is_closed }
    {
        let Device { is_closed, .. } = self;
        *is_closed
    }

    /// The device failed, and is closed.
    fn count_failure(&mut self)
        ensures writer { self.new.writer ≡ self.old.writer }
        ensures risen { HasRisen self.old.failures self.new.failures }
        ensures up { self.old.failures ≤ self.new.failures }
        ensures counted { self.new.failures ≡ one_more self.old.failures }
        ensures closed { self.new.is_closed ≡ true }
    {
        self.is_closed = true;
        self.failures = self.failures.saturating_add(1);
    }

    /// A closed device fails once more, and writes nothing.
    pub(crate) fn refuse(&mut self)
        requires { self.old.is_closed ≡ true }
        ensures writer { self.new.writer ≡ self.old.writer }
        ensures risen { HasRisen self.old.failures self.new.failures }
        ensures up { self.old.failures ≤ self.new.failures }
        ensures counted { self.new.failures ≡ one_more self.old.failures }
        ensures closed { self.new.is_closed ≡ true }
    {
        self.count_failure();
    }
}

impl<W: Write> Device<W> {
    /// Writes all of the bytes to an open device and flushes them. Where that fails a beginning of them is written,
    /// and the device is closed.
    pub(crate) fn put(&mut self, bytes: &[u8]) -> Result<(), Failed>
        requires { self.old.is_closed ≡ false }
        ensures ok { OnOk result (Appends (W.contents self.old.writer) (W.contents self.new.writer) bytes.now) }
        ensures err { OnErr result
            (AppendsBeginning (W.contents self.old.writer) (W.contents self.new.writer) bytes.now) }
        ensures same { OnOk result (self.new.failures ≡ self.old.failures) }
        ensures open { OnOk result (self.new.is_closed ≡ false) }
        ensures risen { OnErr result (HasRisen self.old.failures self.new.failures) }
        ensures up { self.old.failures ≤ self.new.failures }
        ensures counted { OnErr result (self.new.failures ≡ one_more self.old.failures) }
        ensures closed { OnErr result (self.new.is_closed ≡ true) }
    {
        let put = put_out(&mut self.writer, bytes);
        if put.is_err() {
            self.count_failure();
        }
        put
    }
}
