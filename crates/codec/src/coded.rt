//! Values that can be written as bytes and read again.

ghost use Rattle.std.specs.Prelude.{◌≡◌, ◌<◌, IfErr, IfOk};
ghost use Rattle.codec.specs.Codes.{Decodes, Encodes, Unless};
ghost use Rattle.codec.specs.declared.fault.DecodeFault.{DecodeFault as FaultOf};

use crate::fault::DecodeFault;
use crate::input::Input;
use model::NoMemory;
use std::alloc::Global;

/// A value that can be written as bytes and read again. What was written is read back equal.
pub trait Coded: Drop + Sized {
    ghost use Rattle.std.specs.Prelude.{List, ℕ};

    /// The bytes of a value, with those that follow behind them.
    ghost code: { Self → List ℕ → List ℕ };

    /// What is so of every value, and by which its bytes are those of no other.
    ghost fits: { Self → Type 0 };

    /// Appends the value's bytes.
    ///
    /// # Errors
    ///
    /// `NoMemory` where they find no memory; some of them may be appended then.
    fn encode(&self, out: &mut Vec<u8>) -> Result<(), NoMemory>
        ensures code { IfOk result (λ _. Encodes code self.now out.old.items out.new.items) }
        ensures fits { IfOk result (λ _. fits self.now) };

    /// Takes a value's bytes off the input.
    ///
    /// # Errors
    ///
    /// `Cut` where the input ends within them, `Damaged` where they are those of no value, `NoMemory` where the value
    /// finds none: of bytes that were encoded there is no other. Takes no more memory than the input's length allows.
    fn decode(alloc: Global, input: &mut Input) -> Result<Self, DecodeFault>
        ensures ok { IfOk result (λ x. Decodes code fits input.old x input.new) }
        ensures err { IfErr result (λ e. Unless code fits input.old (e ≡ FaultOf.NoMemory)) };
}
