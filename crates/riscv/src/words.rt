//! Words as instructions: the formats and tables of the manual.

ghost use Rattle.std.specs.Prelude.{◌≡◌, ◌+◌, ◌<◌, ◌^◌};
ghost use Rattle.riscv.specs.Decoding.{bits, extended, opcode, rd, funct3, rs1, rs2, funct7, immediate_i, immediate_s};
ghost use Rattle.riscv.specs.Decoding.{immediate_b, immediate_u, immediate_j, comparison_at, reading_at, writing_at};
ghost use Rattle.riscv.specs.Decoding.{base_operation, multiply_operation, other_operation, operation_at};
ghost use Rattle.riscv.specs.Decoding.{immediate_operation, branch_of, load_of, store_of, immediate_of, register_of};
ghost use Rattle.riscv.specs.Decoding.{jump_of, fence_of, system_of, instruction_of};

use crate::instruction::{Comparison, Instruction, Operation, Reading, Writing};
use crate::register::Register;

#[inline(always)]
fn opcode_in(word: u32) -> u32
    ensures { result ≡ opcode word }
{
    word % 0x80
}

#[inline(always)]
fn rd_in(word: u32) -> Register
    ensures { result ≡ rd word }
{
    Register::of(word / 0x80)
}

#[inline(always)]
fn funct3_in(word: u32) -> u32
    ensures { result ≡ funct3 word }
{
    word / 0x1000 % 8
}

#[inline(always)]
fn rs1_in(word: u32) -> Register
    ensures { result ≡ rs1 word }
{
    Register::of(word / 0x8000)
}

#[inline(always)]
fn rs2_in(word: u32) -> Register
    ensures { result ≡ rs2 word }
{
    Register::of(word / 0x10_0000)
}

#[inline(always)]
fn funct7_in(word: u32) -> u32
    ensures { result ≡ funct7 word }
{
    word / 0x200_0000 % 0x80
}

/// Twelve bits, extended by their sign.
#[inline(always)]
fn extend_12(n: u32) -> u32
    requires { n < 2 ^ 12 }
    ensures { result ≡ extended 12 n }
{
    if n < 0x800 { n } else { n + 0xffff_f000 }
}

#[inline(always)]
fn immediate_i_in(word: u32) -> u32
    ensures { result ≡ immediate_i word }
{
    extend_12(word / 0x10_0000 % 0x1000)
}

#[inline(always)]
fn immediate_s_in(word: u32) -> u32
    ensures { result ≡ immediate_s word }
{
    extend_12(word / 0x200_0000 % 0x80 * 0x20 + word / 0x80 % 0x20)
}

#[inline(always)]
fn immediate_b_in(word: u32) -> u32
    ensures { result ≡ immediate_b word }
{
    let n = word / 0x8000_0000 % 2 * 0x1000
        + word / 0x80 % 2 * 0x800
        + word / 0x200_0000 % 0x40 * 0x20
        + word / 0x100 % 0x10 * 2;
    if n < 0x1000 { n } else { n + 0xffff_e000 }
}

#[inline(always)]
fn immediate_u_in(word: u32) -> u32
    ensures { result ≡ immediate_u word }
{
    word / 0x1000 % 0x10_0000 * 0x1000
}

#[inline(always)]
fn immediate_j_in(word: u32) -> u32
    ensures { result ≡ immediate_j word }
{
    let n = word / 0x8000_0000 % 2 * 0x10_0000
        + word / 0x1000 % 0x100 * 0x1000
        + word / 0x10_0000 % 2 * 0x800
        + word / 0x20_0000 % 0x400 * 2;
    if n < 0x10_0000 { n } else { n + 0xffe0_0000 }
}

#[inline(always)]
fn comparison(n: u32) -> Option<Comparison>
    ensures { result ≡ comparison_at n }
{
    match n {
        0 => Some(Comparison::Beq),
        1 => Some(Comparison::Bne),
        4 => Some(Comparison::Blt),
        5 => Some(Comparison::Bge),
        6 => Some(Comparison::Bltu),
        7 => Some(Comparison::Bgeu),
        _ => None,
    }
}

#[inline(always)]
fn reading(n: u32) -> Option<Reading>
    ensures { result ≡ reading_at n }
{
    match n {
        0 => Some(Reading::Lb),
        1 => Some(Reading::Lh),
        2 => Some(Reading::Lw),
        4 => Some(Reading::Lbu),
        5 => Some(Reading::Lhu),
        _ => None,
    }
}

#[inline(always)]
fn writing(n: u32) -> Option<Writing>
    ensures { result ≡ writing_at n }
{
    match n {
        0 => Some(Writing::Sb),
        1 => Some(Writing::Sh),
        2 => Some(Writing::Sw),
        _ => None,
    }
}

#[inline(always)]
fn base(n: u32) -> Option<Operation>
    ensures { result ≡ base_operation n }
{
    match n {
        0 => Some(Operation::Add),
        1 => Some(Operation::Sll),
        2 => Some(Operation::Slt),
        3 => Some(Operation::Sltu),
        4 => Some(Operation::Xor),
        5 => Some(Operation::Srl),
        6 => Some(Operation::Or),
        7 => Some(Operation::And),
        _ => None,
    }
}

#[inline(always)]
fn multiply(n: u32) -> Option<Operation>
    ensures { result ≡ multiply_operation n }
{
    match n {
        0 => Some(Operation::Mul),
        1 => Some(Operation::Mulh),
        2 => Some(Operation::Mulhsu),
        3 => Some(Operation::Mulhu),
        4 => Some(Operation::Div),
        5 => Some(Operation::Divu),
        6 => Some(Operation::Rem),
        7 => Some(Operation::Remu),
        _ => None,
    }
}

#[inline(always)]
fn other(n: u32) -> Option<Operation>
    ensures { result ≡ other_operation n }
{
    match n {
        0 => Some(Operation::Sub),
        5 => Some(Operation::Sra),
        _ => None,
    }
}

#[inline(always)]
fn operation(n: u32, upper: u32) -> Option<Operation>
    ensures { result ≡ operation_at n upper }
{
    match upper {
        0 => base(n),
        1 => multiply(n),
        32 => other(n),
        _ => None,
    }
}

#[inline(always)]
fn left_shift(upper: u32) -> Option<Operation>
    ensures { result ≡ immediate_operation 1 upper }
{
    match upper {
        0 => Some(Operation::Sll),
        _ => None,
    }
}

#[inline(always)]
fn right_shift(upper: u32) -> Option<Operation>
    ensures { result ≡ immediate_operation 5 upper }
{
    match upper {
        0 => Some(Operation::Srl),
        32 => Some(Operation::Sra),
        _ => None,
    }
}

#[inline(always)]
fn operation_with_immediate(n: u32, upper: u32) -> Option<Operation>
    ensures { result ≡ immediate_operation n upper }
{
    match n {
        1 => left_shift(upper),
        5 => right_shift(upper),
        _ => base(n),
    }
}

#[inline(always)]
fn branch(word: u32) -> Option<Instruction>
    ensures { result ≡ branch_of word }
{
    match comparison(funct3_in(word)) {
        Some(c) => Some(Instruction::Branch(c, rs1_in(word), rs2_in(word), immediate_b_in(word))),
        None => None,
    }
}

#[inline(always)]
fn load(word: u32) -> Option<Instruction>
    ensures { result ≡ load_of word }
{
    match reading(funct3_in(word)) {
        Some(r) => Some(Instruction::Load(r, rd_in(word), rs1_in(word), immediate_i_in(word))),
        None => None,
    }
}

#[inline(always)]
fn store(word: u32) -> Option<Instruction>
    ensures { result ≡ store_of word }
{
    match writing(funct3_in(word)) {
        Some(s) => Some(Instruction::Store(s, rs1_in(word), rs2_in(word), immediate_s_in(word))),
        None => None,
    }
}

#[inline(always)]
fn with_immediate(word: u32) -> Option<Instruction>
    ensures { result ≡ immediate_of word }
{
    match operation_with_immediate(funct3_in(word), funct7_in(word)) {
        Some(o) => Some(Instruction::OpImm(o, rd_in(word), rs1_in(word), immediate_i_in(word))),
        None => None,
    }
}

#[inline(always)]
fn with_registers(word: u32) -> Option<Instruction>
    ensures { result ≡ register_of word }
{
    match operation(funct3_in(word), funct7_in(word)) {
        Some(o) => Some(Instruction::Op(o, rd_in(word), rs1_in(word), rs2_in(word))),
        None => None,
    }
}

#[inline(always)]
fn jump(word: u32) -> Option<Instruction>
    ensures { result ≡ jump_of word }
{
    if funct3_in(word) == 0 {
        Some(Instruction::Jalr(rd_in(word), rs1_in(word), immediate_i_in(word)))
    } else {
        None
    }
}

#[inline(always)]
fn fence(word: u32) -> Option<Instruction>
    ensures { result ≡ fence_of word }
{
    if funct3_in(word) == 0 {
        Some(Instruction::Fence)
    } else {
        None
    }
}

#[inline(always)]
fn system(word: u32) -> Option<Instruction>
    ensures { result ≡ system_of word }
{
    if word == 0x73 {
        Some(Instruction::Ecall)
    } else if word == 0x10_0073 {
        Some(Instruction::Ebreak)
    } else {
        None
    }
}

/// What a word says, if it is an instruction of RV32IM. FENCE is one whatever its reserved fields say; FENCE.I, CSR and
/// privileged instructions are none, and neither is a shift by an immediate of 32 or more.
#[tactic(auto, unfolding(crate::specs::Decoding::instruction_of))]
#[inline(always)]
pub fn decode(word: u32) -> Option<Instruction>
    ensures { result ≡ instruction_of word }
{
    match opcode_in(word) {
        0x33 => with_registers(word),
        0x13 => with_immediate(word),
        0x03 => load(word),
        0x23 => store(word),
        0x63 => branch(word),
        0x37 => Some(Instruction::Lui(rd_in(word), immediate_u_in(word))),
        0x17 => Some(Instruction::Auipc(rd_in(word), immediate_u_in(word))),
        0x6f => Some(Instruction::Jal(rd_in(word), immediate_j_in(word))),
        0x67 => jump(word),
        0x0f => fence(word),
        0x73 => system(word),
        _ => None,
    }
}
