//! The instructions that load and store.

ghost use Rattle.std.specs.Prelude.{◌≡◌, ◌≢◌, ◌%◌, Err, OnOk, slice_index};
ghost use Rattle.riscv.specs.Decoding.{extended};
ghost use Rattle.riscv.specs.Machines.{plus, read_byte, read_half, read_word, loaded, executed};
ghost use Rattle.riscv.specs.Harts.{machine_of, Does};

use crate::apart::Apart;
use crate::fault::{Exception, Stop};
use crate::instruction::{Instruction, Reading, Writing};
use crate::machine::Machine;
use crate::memory::Memory;
use crate::register::Register;
use crate::registers::{next, put, read};
use std::alloc::Global;

/// Eight bits, extended by their sign.
#[inline(always)]
fn extend_8(n: u8) -> u32
    ensures { result ≡ extended 8 n }
{
    let n = n as u32;
    if n < 0x80 { n } else { n + 0xffff_ff00 }
}

/// Sixteen bits, extended by their sign.
#[inline(always)]
fn extend_16(n: u16) -> u32
    ensures { result ≡ extended 16 n }
{
    let n = n as u32;
    if n < 0x8000 { n } else { n + 0xffff_0000 }
}

/// The address of a load or a store.
#[inline(always)]
fn address(registers: &[u32; 32], rs1: Register, offset: u32) -> u32
    ensures { result ≡ plus (slice_index registers.now rs1) offset }
{
    read(registers, rs1).wrapping_add(offset)
}

#[inline(always)]
fn load_byte(memory: &Memory, address: u32) -> Result<u8, Exception>
    ensures { result ≡ read_byte memory.now address }
{
    if address < 0x4_0000 {
        Ok(memory.byte(address))
    } else {
        Err(Exception::LoadAccessFault)
    }
}

#[inline(always)]
fn load_half(memory: &Memory, address: u32) -> Result<u16, Exception>
    ensures { result ≡ read_half memory.now address }
{
    if address % 2 != 0 {
        Err(Exception::LoadAddressMisaligned)
    } else if address < 0x4_0000 {
        Ok(memory.half(address))
    } else {
        Err(Exception::LoadAccessFault)
    }
}

#[inline(always)]
fn load_word(memory: &Memory, address: u32) -> Result<u32, Exception>
    ensures { result ≡ read_word memory.now address }
{
    if address % 4 != 0 {
        Err(Exception::LoadAddressMisaligned)
    } else if address < 0x4_0000 {
        Ok(memory.word(address))
    } else {
        Err(Exception::LoadAccessFault)
    }
}

/// What a load reads at an address.
#[inline(always)]
fn loaded(memory: &Memory, reading: Reading, address: u32) -> Result<u32, Exception>
    ensures { result ≡ loaded reading memory.now address }
{
    match reading {
        Reading::Lb => Ok(extend_8(load_byte(memory, address)?)),
        Reading::Lh => Ok(extend_16(load_half(memory, address)?)),
        Reading::Lw => load_word(memory, address),
        Reading::Lbu => Ok(load_byte(memory, address)? as u32),
        Reading::Lhu => Ok(load_half(memory, address)? as u32),
    }
}

/// Loads into a register, and goes on to the next instruction.
#[tactic(auto, unfolding(crate::specs::Machines::executed))]
#[inline(always)]
pub(crate) fn load(
    registers: &mut [u32; 32],
    counter: &mut u32,
    memory: &Memory,
    reading: Reading,
    rd: Register,
    rs1: Register,
    offset: u32,
) -> Result<(), Apart>
    requires { counter.old % 4 ≡ 0 }
    ensures does { Does result
        (executed (machine_of registers.old counter.old memory.now) (Instruction.Load reading rd rs1 offset))
        (machine_of registers.old counter.old memory.now) registers.new counter.new }
    ensures aligned { OnOk result (counter.new % 4 ≡ 0) }
    ensures read { result ≢ Err Apart.Unread }
{
    match loaded(memory, reading, address(registers, rs1, offset)) {
        Ok(n) => {
            put(registers, rd, n);
            *counter = next(*counter);
            Ok(())
        }
        Err(e) => Err(Apart::Raised(e)),
    }
}

impl Machine {
    ghost use Rattle.riscv.specs.Machines.{stored, with_memory, Makes};

    #[inline(always)]
    fn store_byte(&mut self, alloc: Global, address: u32, n: u32) -> Result<(), Stop>
        ensures { Makes result (with_memory self.old (stored Writing.Sb self.old.memory address n)) self.old self.new }
    {
        if address < 0x4_0000 {
            self.memory.set_byte(alloc, address, n)?;
            self.counter = self.counter.wrapping_add(4);
            Ok(())
        } else {
            Err(Stop::Raised(Exception::StoreAccessFault))
        }
    }

    #[inline(always)]
    fn store_half(&mut self, alloc: Global, address: u32, n: u32) -> Result<(), Stop>
        ensures { Makes result (with_memory self.old (stored Writing.Sh self.old.memory address n)) self.old self.new }
    {
        if address % 2 != 0 {
            Err(Stop::Raised(Exception::StoreAddressMisaligned))
        } else if address < 0x4_0000 {
            self.memory.set_half(alloc, address, n)?;
            self.counter = self.counter.wrapping_add(4);
            Ok(())
        } else {
            Err(Stop::Raised(Exception::StoreAccessFault))
        }
    }

    #[inline(always)]
    fn store_word(&mut self, alloc: Global, address: u32, n: u32) -> Result<(), Stop>
        ensures { Makes result (with_memory self.old (stored Writing.Sw self.old.memory address n)) self.old self.new }
    {
        if address % 4 != 0 {
            Err(Stop::Raised(Exception::StoreAddressMisaligned))
        } else if address < 0x4_0000 {
            self.memory.set_word(alloc, address, n)?;
            self.counter = self.counter.wrapping_add(4);
            Ok(())
        } else {
            Err(Stop::Raised(Exception::StoreAccessFault))
        }
    }

    /// Stores what is in a register, and goes on to the next instruction.
    #[tactic(auto, unfolding(crate::specs::Machines::executed))]
    #[inline]
    pub(crate) fn store(
        &mut self,
        alloc: Global,
        writing: Writing,
        rs1: Register,
        rs2: Register,
        offset: u32,
    ) -> Result<(), Stop>
        ensures { Makes result (executed self.old (Instruction.Store writing rs1 rs2 offset)) self.old self.new }
    {
        let at = address(&self.registers, rs1, offset);
        let n = read(&self.registers, rs2);
        match writing {
            Writing::Sb => self.store_byte(alloc, at, n),
            Writing::Sh => self.store_half(alloc, at, n),
            Writing::Sw => self.store_word(alloc, at, n),
        }
    }
}
