//! The machine, one step of it, and many.

ghost use Rattle.std.specs.Prelude.{◌≡◌, ◌≢◌, ◌<◌, ◌%◌, ◌==◌, if◌then◌else◌};

use crate::apart::Apart;
use crate::fault::{Exception, Stop};
use crate::hart::{Pause, pass_within};
use crate::memory::{Memory, word_index};
use crate::predecoded::Predecoded;
use crate::registers::next;
use std::alloc::Global;

/// One hart and its memory. `x0` is kept at 0 by each step; whoever makes a machine begins with 0 there.
#[derive(Drop)]
pub struct Machine {
    /// The registers, `x0` to `x31`.
    pub registers: [u32; 32],
    /// The program counter: the address of the instruction that comes, in bytes.
    pub counter: u32,
    /// The memory, from address 0 on. Program and data lie in it alike, so a program may write over itself.
    pub memory: Memory,
}

/// How far a machine ran.
#[derive(Clone, Copy, Debug, PartialEq, Eq)]
pub struct Ran {
    /// How many steps it made.
    pub done: u32,
    /// Why it stopped before it made all that it had.
    pub stop: Option<Stop>,
}

/// Why there is no instruction at an address.
#[cold]
#[inline(never)]
fn fetch_exception(counter: u32) -> Exception
    ensures { result
        ≡ (if counter % 4 == 0 then Exception.InstructionAccessFault else Exception.InstructionAddressMisaligned) }
{
    if counter % 4 != 0 {
        Exception::InstructionAddressMisaligned
    } else {
        Exception::InstructionAccessFault
    }
}

impl Machine {
    ghost use Rattle.riscv.specs.Machines.{advanced, stepped, Makes, Runs};
    ghost use Rattle.riscv.specs.Harts.{left_by, Passes, Rounds};

    /// Goes on to the next instruction, as after an ECALL that was served. Takes no memory.
    pub fn advance(&mut self)
        ensures { self.new ≡ advanced self.old }
    {
        self.counter = next(self.counter);
    }

    /// Does what a hart left of an instruction that was read.
    fn settle(&mut self, alloc: Global, apart: Apart) -> Result<(), Stop>
        requires { apart ≢ Apart.Unread }
        ensures { Makes result (left_by self.old apart) self.old self.new }
    {
        match apart {
            Apart::Raised(exception) => Err(Stop::Raised(exception)),
            Apart::Store(writing, rs1, rs2, offset) => {
                self.store(alloc, writing, rs1, rs2, offset)
            }
            Apart::Unread => unreachable!(),
        }
    }

    /// Carries out the instruction at the program counter. Takes memory only where it is the first to write
    /// to a page since that was shared, at most 12 KiB, or the first to fetch from a page: 8 KiB, to keep what
    /// its words say. So no word is decoded again unless it is written over.
    ///
    /// # Errors
    ///
    /// `Raised` where the instruction, or the program counter, raises an exception; `NoMemory` where a page
    /// finds no memory. The machine stays as it was.
    pub fn step(&mut self, alloc: Global) -> Result<(), Stop>
        ensures { Makes result (stepped self.old) self.old self.new }
    {
        match self.run(alloc, 1).stop {
            None => Ok(()),
            Some(stop) => Err(stop),
        }
    }

    /// Makes steps within the page of the program counter.
    #[tactic(auto, unfolding(crate::specs::Machines::stepped))]
    fn pass_page(&mut self, alloc: Global, most: u32) -> Result<Pause, Stop>
        requires { 0 < most }
        ensures { Passes result most self.old self.new }
    {
        if self.counter % 4 != 0 || self.counter >= 0x4_0000 {
            return Err(Stop::Raised(fetch_exception(self.counter)));
        }
        let kept = match self.memory.code(self.counter).get(word_index(self.counter)) {
            Some(instruction) => *instruction,
            None => Predecoded::Unread,
        };
        let first = match kept {
            Predecoded::Unread => self.memory.read_code(alloc, self.counter)?,
            read => read,
        };
        let code = self.memory.code(self.counter);
        let most_here = if code.is_empty() { 1 } else { most };
        let pause = pass_within(
            &mut self.registers,
            self.counter,
            &first,
            code,
            &self.memory,
            most_here,
        );
        let left = most - most_here + pause.left;
        self.counter = pause.counter;
        Ok(Pause { left, ..pause })
    }

    /// Makes one step or more of those that are left, within a page.
    fn round(&mut self, alloc: Global, left: &mut u32) -> Result<(), Stop>
        requires { 0 < left.old }
        ensures { Rounds result left.old left.new self.old self.new }
    {
        let pause = self.pass_page(alloc, *left)?;
        *left = pause.left;
        let Some(apart) = pause.apart else {
            return Ok(());
        };
        if apart.is_unread() {
            return Ok(());
        }
        self.settle(alloc, apart)?;
        *left -= 1;
        Ok(())
    }

    /// Carries out instructions until one stops the machine, at most so many. Takes memory as `step` does.
    ///
    /// The machine then stands where the last one that was carried out left it, and `stop` says what `step`
    /// would give there, or is `None` where all were carried out.
    pub fn run(&mut self, alloc: Global, most: u32) -> Ran
        ensures { Runs result.done most result.stop self.old self.new }
    {
        let mut left = most;
        while left > 0 {
            if let Err(stop) = self.round(alloc, &mut left) {
                return Ran {
                    done: most - left,
                    stop: Some(stop),
                };
            }
        }
        Ran {
            done: most,
            stop: None,
        }
    }
}
