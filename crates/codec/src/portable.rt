//! Handlers whose states can be written as bytes.

ghost use Rattle.std.specs.Prelude.{◌≡◌, IfErr, IfOk};
ghost use Rattle.codec.specs.Codes.{Decodes, Encodes, Unless};
ghost use Rattle.codec.specs.declared.fault.DecodeFault.{DecodeFault as FaultOf};

use crate::fault::DecodeFault;
use crate::input::Input;
use handler::Handler;
use model::NoMemory;
use std::alloc::Global;

/// A handler whose states can be written as bytes and read again.
///
/// The law: what was written of a state is read back as an equal one.
pub trait Portable: Handler {
    ghost use Rattle.std.specs.Prelude.{List, ℕ};

    /// The bytes of a state, with those that follow behind them.
    ghost state_code: { Self.State → List ℕ → List ℕ };

    /// What is so of every state, and by which its bytes are those of no other.
    ghost state_fits: { Self.State → Type 0 };

    /// Appends the state's bytes.
    ///
    /// # Errors
    ///
    /// `NoMemory` where they find no memory; some of them may be appended then.
    fn write_state(&self, state: &Self::State, out: &mut Vec<u8>) -> Result<(), NoMemory>
        ensures code { IfOk result (λ _. Encodes state_code state.now out.old.items out.new.items) }
        ensures fits { IfOk result (λ _. state_fits state.now) };

    /// Takes a state's bytes off the input.
    ///
    /// # Errors
    ///
    /// `Cut` where the input ends within them, `Damaged` where they are those of no state, `NoMemory` where the state
    /// finds none: of bytes that were written there is no other. Takes no more memory than the input's length allows.
    fn read_state(&self, alloc: Global, input: &mut Input) -> Result<Self::State, DecodeFault>
        ensures ok { IfOk result (λ s. Decodes state_code state_fits input.old s input.new) }
        ensures err { IfErr result (λ e. Unless state_code state_fits input.old (e ≡ FaultOf.NoMemory)) };
}
