//! The instructions that compute, and those that jump. Each form is one function that takes what it computes or
//! compares as a word of its own; where that is a constant, nothing of the others is left in the program.

ghost use Rattle.std.specs.Prelude.{◌≡◌, ◌≢◌, ◌%◌, Ok, Err, OnOk, slice_index};
ghost use Rattle.riscv.specs.Arithmetic.{value_of};
ghost use Rattle.riscv.specs.Memories.{Words};
ghost use Rattle.riscv.specs.Machines.{plus, with_register, linked, executed};
ghost use Rattle.riscv.specs.Harts.{machine_of, Does};

use crate::apart::Apart;
use crate::arithmetic::{compare, operate};
use crate::instruction::{Comparison, Instruction, Operation};
use crate::register::Register;
use crate::registers::{jump, next, put, read};

/// Puts a number into a register, and goes on to the next instruction.
#[inline(always)]
pub(crate) fn finish(
    registers: &mut [u32; 32],
    counter: &mut u32,
    rd: Register,
    n: u32,
) -> Result<(), Apart>
    ensures value { registers.new ≡ with_register registers.old rd n }
    ensures next { counter.new ≡ plus counter.old 4 }
    ensures ok { result ≡ Ok tt }
{
    put(registers, rd, n);
    *counter = next(*counter);
    Ok(())
}

/// AUIPC.
#[inline(always)]
pub(crate) fn auipc(
    registers: &mut [u32; 32],
    counter: &mut u32,
    rd: Register,
    n: u32,
) -> Result<(), Apart>
    ensures value { registers.new ≡ with_register registers.old rd (plus counter.old n) }
    ensures next { counter.new ≡ plus counter.old 4 }
    ensures ok { result ≡ Ok tt }
{
    let value = counter.wrapping_add(n);
    finish(registers, counter, rd, value)
}

/// FENCE.
#[inline(always)]
pub(crate) fn fence(counter: &mut u32) -> Result<(), Apart>
    ensures next { counter.new ≡ plus counter.old 4 }
    ensures ok { result ≡ Ok tt }
{
    *counter = next(*counter);
    Ok(())
}

/// Computes from a register and an immediate.
#[inline(always)]
pub(crate) fn op_imm(
    registers: &mut [u32; 32],
    counter: &mut u32,
    operation: Operation,
    rd: Register,
    rs1: Register,
    n: u32,
) -> Result<(), Apart>
    ensures value { registers.new
        ≡ with_register registers.old rd (value_of operation (slice_index registers.old rs1) n) }
    ensures next { counter.new ≡ plus counter.old 4 }
    ensures ok { result ≡ Ok tt }
{
    let value = operate(operation, read(registers, rs1), n);
    finish(registers, counter, rd, value)
}

/// Computes from two registers.
#[inline(always)]
pub(crate) fn op(
    registers: &mut [u32; 32],
    counter: &mut u32,
    operation: Operation,
    rd: Register,
    rs1: Register,
    rs2: Register,
) -> Result<(), Apart>
    ensures value { registers.new ≡ with_register registers.old rd
        (value_of operation (slice_index registers.old rs1) (slice_index registers.old rs2)) }
    ensures next { counter.new ≡ plus counter.old 4 }
    ensures ok { result ≡ Ok tt }
{
    let value = operate(operation, read(registers, rs1), read(registers, rs2));
    finish(registers, counter, rd, value)
}

/// Puts into a register what is seldom computed from another and an immediate.
#[inline(never)]
fn put_imm_apart(
    registers: &mut [u32; 32],
    operation: Operation,
    rd: Register,
    rs1: Register,
    n: u32,
)
    ensures { registers.new ≡ with_register registers.old rd (value_of operation (slice_index registers.old rs1) n) }
{
    let value = operate(operation, read(registers, rs1), n);
    put(registers, rd, value);
}

/// Puts into a register what is seldom computed from two others.
#[inline(never)]
fn put_apart(
    registers: &mut [u32; 32],
    operation: Operation,
    rd: Register,
    rs1: Register,
    rs2: Register,
)
    ensures { registers.new ≡ with_register registers.old rd
        (value_of operation (slice_index registers.old rs1) (slice_index registers.old rs2)) }
{
    let value = operate(operation, read(registers, rs1), read(registers, rs2));
    put(registers, rd, value);
}

/// Computes what is seldom computed from a register and an immediate.
#[inline(always)]
pub(crate) fn op_imm_apart(
    registers: &mut [u32; 32],
    counter: &mut u32,
    operation: Operation,
    rd: Register,
    rs1: Register,
    n: u32,
) -> Result<(), Apart>
    ensures value { registers.new
        ≡ with_register registers.old rd (value_of operation (slice_index registers.old rs1) n) }
    ensures next { counter.new ≡ plus counter.old 4 }
    ensures ok { result ≡ Ok tt }
{
    put_imm_apart(registers, operation, rd, rs1, n);
    *counter = next(*counter);
    Ok(())
}

/// Computes what is seldom computed from two registers.
#[inline(always)]
pub(crate) fn op_apart(
    registers: &mut [u32; 32],
    counter: &mut u32,
    operation: Operation,
    rd: Register,
    rs1: Register,
    rs2: Register,
) -> Result<(), Apart>
    ensures value { registers.new ≡ with_register registers.old rd
        (value_of operation (slice_index registers.old rs1) (slice_index registers.old rs2)) }
    ensures next { counter.new ≡ plus counter.old 4 }
    ensures ok { result ≡ Ok tt }
{
    put_apart(registers, operation, rd, rs1, rs2);
    *counter = next(*counter);
    Ok(())
}

/// Jumps, with the address of the next instruction in a register.
#[inline(always)]
fn link(registers: &mut [u32; 32], counter: &mut u32, rd: Register, to: u32) -> Result<(), Apart>
    ensures does { (memory : Words) → Does result (linked (machine_of registers.old counter.old memory) rd to)
        (machine_of registers.old counter.old memory) registers.new counter.new }
    ensures aligned { OnOk result (counter.new % 4 ≡ 0) }
    ensures read { result ≢ Err Apart.Unread }
{
    let link = next(*counter);
    jump(counter, to)?;
    put(registers, rd, link);
    Ok(())
}

/// JAL.
#[tactic(auto, unfolding(crate::specs::Machines::executed))]
#[inline(always)]
pub(crate) fn jal(
    registers: &mut [u32; 32],
    counter: &mut u32,
    rd: Register,
    offset: u32,
) -> Result<(), Apart>
    ensures does { (memory : Words)
        → Does result (executed (machine_of registers.old counter.old memory) (Instruction.Jal rd offset))
        (machine_of registers.old counter.old memory) registers.new counter.new }
    ensures aligned { OnOk result (counter.new % 4 ≡ 0) }
    ensures read { result ≢ Err Apart.Unread }
{
    let to = counter.wrapping_add(offset);
    link(registers, counter, rd, to)
}

/// JALR.
#[tactic(auto, unfolding(crate::specs::Machines::executed))]
#[inline(always)]
pub(crate) fn jalr(
    registers: &mut [u32; 32],
    counter: &mut u32,
    rd: Register,
    rs1: Register,
    offset: u32,
) -> Result<(), Apart>
    ensures does { (memory : Words)
        → Does result (executed (machine_of registers.old counter.old memory) (Instruction.Jalr rd rs1 offset))
        (machine_of registers.old counter.old memory) registers.new counter.new }
    ensures aligned { OnOk result (counter.new % 4 ≡ 0) }
    ensures read { result ≢ Err Apart.Unread }
{
    let to = read(registers, rs1).wrapping_add(offset);
    link(registers, counter, rd, to - to % 2)
}

/// Jumps where two registers compare so, or goes on.
#[tactic(auto, unfolding(crate::specs::Machines::executed))]
#[inline(always)]
pub(crate) fn branch(
    registers: &[u32; 32],
    counter: &mut u32,
    comparison: Comparison,
    rs1: Register,
    rs2: Register,
    offset: u32,
) -> Result<(), Apart>
    requires { counter.old % 4 ≡ 0 }
    ensures does { (memory : Words) → Does result
        (executed (machine_of registers.now counter.old memory) (Instruction.Branch comparison rs1 rs2 offset))
        (machine_of registers.now counter.old memory) registers.now counter.new }
    ensures aligned { OnOk result (counter.new % 4 ≡ 0) }
    ensures read { result ≢ Err Apart.Unread }
{
    if compare(comparison, read(registers, rs1), read(registers, rs2)) {
        let to = counter.wrapping_add(offset);
        jump(counter, to)
    } else {
        *counter = next(*counter);
        Ok(())
    }
}
