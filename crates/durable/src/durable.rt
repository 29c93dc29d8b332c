//! What outlives a process.

ghost use Rattle.std.specs.Prelude.{◌≡◌, ℕ, List, Option, OnOk, None, Some, refl};
ghost use Rattle.std.proofs.Common.{rules};
ghost use Rattle.std.specs.Io.KnownBytes.{Keeps};

use std::fs::File;
use std::io;
use std::io::Write;

/// A file to which bytes are appended, and that can be synced.
pub trait Durable: Write {
    /// The bytes that are left after a crash, where they are known.
    ghost synced: { Self → Option (List ℕ) } = { λ _. None };

    /// Makes all that was written outlast a crash. After a failure nothing is known of that.
    fn sync(&mut self) -> io::Result<()>
        ensures held { Keeps (Self.contents self.old) (Self.contents self.new) }
        ensures stands { OnOk result (Keeps (Self.contents self.new) (synced self.new)) };

    /// The bytes are known of all files of a type, or of none.
    ghost steady: { (f g : Self) → Self.contents f ≡ None → Self.contents g ≡ None };
}

/// A file of the system. No clause says what the system does with bytes.
impl Durable for File {
    fn sync(&mut self) -> io::Result<()> {
        self.sync_data()
    }

    ghost steady = { λ f g none. refl };
}

/// A list of bytes stands for a file that never fails, in tests.
impl Durable for Vec<u8> {
    ghost synced = { λ v. Some v.items };

    fn sync(&mut self) -> io::Result<()> {
        Ok(())
    }

    ghost steady = { λ f g none. Prim.search rules };
}
