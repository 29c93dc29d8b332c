//! Instructions as they are kept beside the words of a page, from the first time on that they are carried out.

ghost use Rattle.std.specs.Prelude.{◌≡◌, ◌≢◌, IfOk, Some};
ghost use Rattle.riscv.specs.Decoding.{instruction_of};
ghost use Rattle.riscv.specs.Predecoding.{meaning, unread_page};

use crate::instruction::{Comparison, Instruction, Operation, Reading, Writing};
use crate::register::Register;
use crate::words::decode;
use std::alloc::{AllocError, Global};

/// Words of a page.
pub(crate) const PAGE_WORDS: usize = 1024;

/// What a word says, in one enum by the manual's mnemonics, so that a step is one jump. What is seldom
/// computed has no variant of its own.
#[derive(Clone, Copy)]
pub(crate) enum Predecoded {
    Lui(Register, u32),
    Auipc(Register, u32),
    Jal(Register, u32),
    Jalr(Register, Register, u32),
    Beq(Register, Register, u32),
    Bne(Register, Register, u32),
    Blt(Register, Register, u32),
    Bge(Register, Register, u32),
    Bltu(Register, Register, u32),
    Bgeu(Register, Register, u32),
    Lb(Register, Register, u32),
    Lh(Register, Register, u32),
    Lw(Register, Register, u32),
    Lbu(Register, Register, u32),
    Lhu(Register, Register, u32),
    Sb(Register, Register, u32),
    Sh(Register, Register, u32),
    Sw(Register, Register, u32),
    Addi(Register, Register, u32),
    Slli(Register, Register, u32),
    Slti(Register, Register, u32),
    Sltiu(Register, Register, u32),
    Xori(Register, Register, u32),
    Srli(Register, Register, u32),
    Srai(Register, Register, u32),
    Ori(Register, Register, u32),
    Andi(Register, Register, u32),
    Add(Register, Register, Register),
    Sub(Register, Register, Register),
    Sll(Register, Register, Register),
    Slt(Register, Register, Register),
    Sltu(Register, Register, Register),
    Xor(Register, Register, Register),
    Srl(Register, Register, Register),
    Sra(Register, Register, Register),
    Or(Register, Register, Register),
    And(Register, Register, Register),
    Mul(Register, Register, Register),
    // Another operation, with an immediate and of registers.
    OpImm(Operation, Register, Register, u32),
    Op(Operation, Register, Register, Register),
    Fence,
    Ecall,
    Ebreak,
    // No instruction.
    Illegal,
    // Not read yet: what the word says was not asked for since it was written.
    Unread,
}

/// What is kept of a page of which nothing was read.
pub(crate) fn unread(alloc: Global) -> Result<Vec<Predecoded>, AllocError>
    ensures { IfOk result (λ code. code.items ≡ unread_page) }
{
    let mut code = Vec::with_capacity(alloc, PAGE_WORDS)?;
    for _ in 0..PAGE_WORDS {
        code.push(Predecoded::Unread)?;
    }
    Ok(code)
}

fn branch(comparison: Comparison, rs1: Register, rs2: Register, n: u32) -> Predecoded
    ensures { meaning result ≡ Some (Instruction.Branch comparison rs1 rs2 n) }
{
    match comparison {
        Comparison::Beq => Predecoded::Beq(rs1, rs2, n),
        Comparison::Bne => Predecoded::Bne(rs1, rs2, n),
        Comparison::Blt => Predecoded::Blt(rs1, rs2, n),
        Comparison::Bge => Predecoded::Bge(rs1, rs2, n),
        Comparison::Bltu => Predecoded::Bltu(rs1, rs2, n),
        Comparison::Bgeu => Predecoded::Bgeu(rs1, rs2, n),
    }
}

fn load(reading: Reading, rd: Register, rs1: Register, n: u32) -> Predecoded
    ensures { meaning result ≡ Some (Instruction.Load reading rd rs1 n) }
{
    match reading {
        Reading::Lb => Predecoded::Lb(rd, rs1, n),
        Reading::Lh => Predecoded::Lh(rd, rs1, n),
        Reading::Lw => Predecoded::Lw(rd, rs1, n),
        Reading::Lbu => Predecoded::Lbu(rd, rs1, n),
        Reading::Lhu => Predecoded::Lhu(rd, rs1, n),
    }
}

fn store(writing: Writing, rs1: Register, rs2: Register, n: u32) -> Predecoded
    ensures { meaning result ≡ Some (Instruction.Store writing rs1 rs2 n) }
{
    match writing {
        Writing::Sb => Predecoded::Sb(rs1, rs2, n),
        Writing::Sh => Predecoded::Sh(rs1, rs2, n),
        Writing::Sw => Predecoded::Sw(rs1, rs2, n),
    }
}

fn with_immediate(operation: Operation, rd: Register, rs1: Register, n: u32) -> Predecoded
    ensures { meaning result ≡ Some (Instruction.OpImm operation rd rs1 n) }
{
    match operation {
        Operation::Add => Predecoded::Addi(rd, rs1, n),
        Operation::Sll => Predecoded::Slli(rd, rs1, n),
        Operation::Slt => Predecoded::Slti(rd, rs1, n),
        Operation::Sltu => Predecoded::Sltiu(rd, rs1, n),
        Operation::Xor => Predecoded::Xori(rd, rs1, n),
        Operation::Srl => Predecoded::Srli(rd, rs1, n),
        Operation::Sra => Predecoded::Srai(rd, rs1, n),
        Operation::Or => Predecoded::Ori(rd, rs1, n),
        Operation::And => Predecoded::Andi(rd, rs1, n),
        other => Predecoded::OpImm(other, rd, rs1, n),
    }
}

fn with_registers(operation: Operation, rd: Register, rs1: Register, rs2: Register) -> Predecoded
    ensures { meaning result ≡ Some (Instruction.Op operation rd rs1 rs2) }
{
    match operation {
        Operation::Add => Predecoded::Add(rd, rs1, rs2),
        Operation::Sub => Predecoded::Sub(rd, rs1, rs2),
        Operation::Sll => Predecoded::Sll(rd, rs1, rs2),
        Operation::Slt => Predecoded::Slt(rd, rs1, rs2),
        Operation::Sltu => Predecoded::Sltu(rd, rs1, rs2),
        Operation::Xor => Predecoded::Xor(rd, rs1, rs2),
        Operation::Srl => Predecoded::Srl(rd, rs1, rs2),
        Operation::Sra => Predecoded::Sra(rd, rs1, rs2),
        Operation::Or => Predecoded::Or(rd, rs1, rs2),
        Operation::And => Predecoded::And(rd, rs1, rs2),
        Operation::Mul => Predecoded::Mul(rd, rs1, rs2),
        other => Predecoded::Op(other, rd, rs1, rs2),
    }
}

/// An instruction in this form.
fn flat(instruction: Instruction) -> Predecoded
    ensures { meaning result ≡ Some instruction }
{
    match instruction {
        Instruction::Lui(rd, n) => Predecoded::Lui(rd, n),
        Instruction::Auipc(rd, n) => Predecoded::Auipc(rd, n),
        Instruction::Jal(rd, n) => Predecoded::Jal(rd, n),
        Instruction::Jalr(rd, rs1, n) => Predecoded::Jalr(rd, rs1, n),
        Instruction::Branch(comparison, rs1, rs2, n) => branch(comparison, rs1, rs2, n),
        Instruction::Load(reading, rd, rs1, n) => load(reading, rd, rs1, n),
        Instruction::Store(writing, rs1, rs2, n) => store(writing, rs1, rs2, n),
        Instruction::OpImm(operation, rd, rs1, n) => with_immediate(operation, rd, rs1, n),
        Instruction::Op(operation, rd, rs1, rs2) => with_registers(operation, rd, rs1, rs2),
        Instruction::Fence => Predecoded::Fence,
        Instruction::Ecall => Predecoded::Ecall,
        Instruction::Ebreak => Predecoded::Ebreak,
    }
}

/// What a word says.
pub(crate) fn predecode(word: u32) -> Predecoded
    ensures said { meaning result ≡ instruction_of word }
    ensures read { result ≢ Predecoded.Unread }
{
    match decode(word) {
        Some(instruction) => flat(instruction),
        None => Predecoded::Illegal,
    }
}
