//! What a hart leaves to others.

ghost use Rattle.std.specs.Prelude.{◌≡◌, ◌≢◌, true, false};

use crate::fault::Exception;
use crate::instruction::Writing;
use crate::register::Register;

/// Why an instruction was not carried out by the registers and reads of the memory alone. Nothing was changed.
#[derive(Clone, Copy)]
pub(crate) enum Apart {
    /// It raises this.
    Raised(Exception),
    /// It is a store: what it writes, `rs1`, `rs2` and the immediate.
    Store(Writing, Register, Register, u32),
    /// What its word says was not read yet.
    Unread,
}

impl Apart {
    /// Whether what the word says was not read yet.
    pub(crate) fn is_unread(&self) -> bool
        ensures unread { result ≡ true → self.now ≡ Apart.Unread }
        ensures read { result ≡ false → self.now ≢ Apart.Unread }
    {
        match self {
            Apart::Unread => true,
            _ => false,
        }
    }
}
