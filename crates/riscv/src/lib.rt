//! A machine for programs that units run: RV32IM, little-endian, after The RISC-V Instruction Set Manual,
//! Volume I, Unprivileged ISA: the base integer instructions with 32-bit registers (RV32I), and
//! multiplication and division (M). It has one hart and no devices: no compressed instructions, no
//! floats, no control and status registers, no interrupts. FENCE does nothing, since one hart has
//! nothing to order.
//!
//! - `Instruction`: what a word of 32 bits says, and `decode`, which reads it.
//! - `Memory`: 256 KiB from address 0 on. Copies share the pages that neither wrote since, and what the
//!   words of a page say, so that a word is decoded once.
//! - `Machine`: the registers, the program counter and the memory; `step`, one instruction, and `run`, many.
//! - `Exception`, `Stop`: why a step was not made.
//! - `words_are_bytes` and the functions beside it: laws that follow from the definitions.
//!
//! `specs/` says in the manual's terms what a step is: `Decoding`, `Arithmetic`, `Memories` and
//! `Machines`. `Machine::step` makes just that step, and `Machine::run` makes such steps, so a program runs alike
//! wherever it is run again.
//!
//! For the writer of a handler whose units run programs. A caller:
//!
//! ```
//! /// Runs a machine until its program traps or has spent so many instructions. It passes over calls.
//! pub fn run(machine: &mut Machine, alloc: Global, instructions: u32) -> Result<(), Stop> {
//!     let mut left = instructions;
//!     while left > 0 {
//!         let ran = machine.run(alloc, left);
//!         left -= ran.done;
//!         match ran.stop {
//!             None => {}
//!             Some(Stop::Raised(Exception::EnvironmentCall)) => {
//!                 machine.advance();
//!                 left -= 1;
//!             }
//!             Some(stop) => return Err(stop),
//!         }
//!     }
//!     Ok(())
//! }
//! ```
#![tactic(auto)]

mod accesses;
mod apart;
mod arithmetic;
mod body;
mod computing;
mod fault;
mod hart;
mod instruction;
mod laws;
mod machine;
mod memory;
mod page;
mod predecoded;
mod register;
mod registers;
mod storage;
mod words;

pub use fault::{Exception, Stop};
pub use instruction::{Comparison, Instruction, Operation, Reading, Writing};
pub use laws::{
    operands_are_fields, signed_divides, stores_are_kept, unsigned_divides, words_are_bytes,
    zero_stays_zero,
};
pub use machine::{Machine, Ran};
pub use memory::{MEMORY_BYTES, Memory};
pub use register::Register;
pub use words::decode;
