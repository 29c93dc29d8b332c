//! Why a step was not made.

use std::alloc::AllocError;

/// What an instruction raises, by the manual's names.
#[derive(Clone, Copy, Debug, PartialEq, Eq)]
pub enum Exception {
    /// The program counter, or the target of a jump or of a branch that is taken, is no multiple of 4.
    /// As in the manual, a jump or a branch raises it, and not the instruction at its target.
    InstructionAddressMisaligned,
    /// The program counter is past the end of the memory.
    InstructionAccessFault,
    /// The word at the program counter is no instruction of RV32IM.
    IllegalInstruction,
    /// EBREAK.
    Breakpoint,
    /// The address of a half is odd, or that of a word no multiple of 4, at a load.
    LoadAddressMisaligned,
    /// The address of a load is past the end of the memory.
    LoadAccessFault,
    /// The address of a half is odd, or that of a word no multiple of 4, at a store.
    StoreAddressMisaligned,
    /// The address of a store is past the end of the memory.
    StoreAccessFault,
    /// ECALL: the program asks for something. Whoever serves the call goes on by `Machine::advance`.
    EnvironmentCall,
}

/// Why a step was not made: the machine is as it was.
#[derive(Clone, Copy, Debug, PartialEq, Eq)]
pub enum Stop {
    /// There was no memory for a page. The same step can be tried again.
    NoMemory,
    /// The instruction raised an exception, and does so again at each try.
    Raised(Exception),
}

impl From<AllocError> for Stop {
    ghost use Rattle.std.specs.Prelude.{◌≡◌};
    ghost use Rattle.riscv.specs.declared.fault.Stop.TheVariants.{NoMemory};

    ghost from_gives = { λ _ s. s ≡ NoMemory };

    fn from(_error: AllocError) -> Stop {
        Stop::NoMemory
    }
}

impl From<Exception> for Stop {
    ghost use Rattle.std.specs.Prelude.{◌≡◌};
    ghost use Rattle.riscv.specs.declared.fault.Stop.TheVariants.{Raised};

    ghost from_gives = { λ e s. s ≡ Raised e };

    fn from(exception: Exception) -> Stop {
        Stop::Raised(exception)
    }
}
