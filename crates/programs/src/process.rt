//! The state of a unit that runs a program.

ghost use Rattle.std.specs.Prelude.{◌≡◌, IfOk, false};
ghost use Rattle.programs.specs.Processes.{beginning, without_image};

use model::NoMemory;
use riscv::Memory;
use std::alloc::Global;

/// The memory, whether there is a program in it, and how much came of an image that isn't whole yet.
#[derive(Drop, PartialEq, Eq)]
pub struct Process {
    pub(crate) memory: Memory,
    pub(crate) has_program: bool,
    pub(crate) image: Memory,
    pub(crate) loaded: u32,
}

impl Process {
    /// Zeros, no program, and nothing of an image.
    pub(crate) fn new(alloc: Global) -> Result<Process, NoMemory>
        ensures { IfOk result (λ p. p ≡ beginning) }
    {
        Ok(Process {
            memory: Memory::new(alloc)?,
            has_program: false,
            image: Memory::new(alloc)?,
            loaded: 0,
        })
    }

    /// An equal process, which shares its pages.
    pub(crate) fn copy(&self, alloc: Global) -> Result<Process, NoMemory>
        ensures { IfOk result (λ p. p ≡ self.now) }
    {
        Ok(Process {
            memory: self.memory.copy(alloc)?,
            has_program: self.has_program,
            image: self.image.copy(alloc)?,
            loaded: self.loaded,
        })
    }

    /// The same, with nothing of an image.
    pub(crate) fn without_image(&self, alloc: Global) -> Result<Process, NoMemory>
        ensures { IfOk result (λ p. p ≡ without_image self.now) }
    {
        Ok(Process {
            memory: self.memory.copy(alloc)?,
            has_program: self.has_program,
            image: Memory::new(alloc)?,
            loaded: 0,
        })
    }

    /// The same, with another memory.
    pub(crate) fn with_memory(&self, alloc: Global, memory: Memory) -> Result<Process, NoMemory>
        ensures { IfOk result (λ p. p ≡ record self.now { memory = memory }) }
    {
        Ok(Process {
            memory,
            has_program: self.has_program,
            image: self.image.copy(alloc)?,
            loaded: self.loaded,
        })
    }
}
