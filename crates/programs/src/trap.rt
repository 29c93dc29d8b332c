//! Why a turn ends before the program returns.

ghost use Rattle.std.specs.Prelude.{◌≡◌, IfOk, string_bytes};
ghost use Rattle.programs.specs.Traps.{exception_text, reason_text, trap_text};

use model::{NoMemory, Text};
use riscv::Exception;
use std::alloc::{AllocError, AllocFailed, Global};

/// What a program did that it may not.
#[derive(Clone, Copy, PartialEq, Eq)]
pub(crate) enum Reason {
    /// An exception other than a call.
    Raised(Exception),
    /// More instructions than a turn has.
    Spent,
    /// A call of another number.
    UnknownCall,
    /// More sends and outputs than a turn has.
    TooMany,
    /// A text of more than 4,096 bytes.
    TooLong,
    /// A text that is not in the memory.
    OutOfRange,
    /// A text that is not UTF-8.
    NotUtf8,
    /// A send to a unit above 255.
    NoUnit,
}

/// What a program did that it may not, and the address of the instruction.
#[derive(Clone, Copy, PartialEq, Eq)]
pub(crate) struct Trap {
    pub(crate) reason: Reason,
    pub(crate) at: u32,
}

/// Why no instruction comes behind this one.
#[derive(Drop)]
pub(crate) enum Cut {
    /// The program did what it may not.
    Trapped(Reason),
    /// The program refuses the text of its turn, and this is to be put out.
    Refused(Text),
}

/// How a turn ended before the program returned.
#[derive(Drop)]
pub(crate) enum Ending {
    Trapped(Trap),
    Refused(Text),
}

/// Why an instruction was not carried out.
#[derive(Drop)]
pub(crate) enum Fault {
    NoMemory,
    For(Cut),
}

/// Why a run did not come to the address to return to.
#[derive(Drop)]
pub(crate) enum Halt {
    NoMemory,
    Ended(Ending),
}

impl From<NoMemory> for Fault {
    ghost use Rattle.std.specs.Prelude.{◌≡◌};
    ghost use Rattle.programs.specs.declared.trap.Fault.TheVariants.{NoMemory as Nothing};

    ghost from_gives = { λ _ f. f ≡ Nothing };

    fn from(_error: NoMemory) -> Fault {
        Fault::NoMemory
    }
}

impl From<AllocError> for Fault {
    ghost use Rattle.std.specs.Prelude.{◌≡◌};
    ghost use Rattle.programs.specs.declared.trap.Fault.TheVariants.{NoMemory as Nothing};

    ghost from_gives = { λ _ f. f ≡ Nothing };

    fn from(_error: AllocError) -> Fault {
        Fault::NoMemory
    }
}

impl<T: Drop> From<AllocFailed<T>> for Fault {
    ghost use Rattle.std.specs.Prelude.{◌≡◌};
    ghost use Rattle.programs.specs.declared.trap.Fault.TheVariants.{NoMemory as Nothing};

    ghost from_gives = { λ _ f. f ≡ Nothing };

    fn from(_error: AllocFailed<T>) -> Fault {
        Fault::NoMemory
    }
}

fn exception_words(exception: Exception) -> &'static str
    ensures { result.now ≡ exception_text exception }
{
    match exception {
        Exception::InstructionAddressMisaligned => "instruction address misaligned",
        Exception::InstructionAccessFault => "instruction access fault",
        Exception::IllegalInstruction => "illegal instruction",
        Exception::Breakpoint => "breakpoint",
        Exception::LoadAddressMisaligned => "load address misaligned",
        Exception::LoadAccessFault => "load access fault",
        Exception::StoreAddressMisaligned => "store address misaligned",
        Exception::StoreAccessFault => "store access fault",
        Exception::EnvironmentCall => "environment call",
    }
}

impl Reason {
    fn words(self) -> &'static str
        ensures { result.now ≡ reason_text self }
    {
        match self {
            Reason::Raised(exception) => exception_words(exception),
            Reason::Spent => "budget spent",
            Reason::UnknownCall => "unknown call",
            Reason::TooMany => "too many texts",
            Reason::TooLong => "text too long",
            Reason::OutOfRange => "text out of range",
            Reason::NotUtf8 => "text not utf-8",
            Reason::NoUnit => "no such unit",
        }
    }

    /// The fault of this reason.
    pub(crate) fn fault(self) -> Fault
        ensures { result ≡ Fault.For (Cut.Trapped self) }
    {
        Fault::For(Cut::Trapped(self))
    }
}

impl Trap {
    /// What is put out.
    #[tactic(auto, unfolding(crate::specs::Traps::trap_text))]
    pub(crate) fn text(self, alloc: Global) -> Result<String, NoMemory>
        ensures { IfOk result (λ s. string_bytes s ≡ trap_text self) }
    {
        let words = self.reason.words();
        let at = self.at;
        let text = format!(in alloc; "trap: {words} at {at:x}")?;
        Ok(text)
    }
}
