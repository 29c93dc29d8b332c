//! Instructions, by the manual's mnemonics.

use crate::register::Register;

/// What a branch asks of two registers.
#[derive(Clone, Copy, Debug, PartialEq, Eq)]
pub enum Comparison {
    /// Whether they are equal.
    Beq,
    /// Whether they differ.
    Bne,
    /// Whether the first is less, as signed numbers.
    Blt,
    /// Whether the first is not less, as signed numbers.
    Bge,
    /// Whether the first is less, as unsigned numbers.
    Bltu,
    /// Whether the first is not less, as unsigned numbers.
    Bgeu,
}

/// What a load reads.
#[derive(Clone, Copy, Debug, PartialEq, Eq)]
pub enum Reading {
    /// A byte, extended by its sign.
    Lb,
    /// A half of 16 bits, extended by its sign.
    Lh,
    /// A word of 32 bits.
    Lw,
    /// A byte, extended by zeros.
    Lbu,
    /// A half of 16 bits, extended by zeros.
    Lhu,
}

/// What a store writes.
#[derive(Clone, Copy, Debug, PartialEq, Eq)]
pub enum Writing {
    /// The lowest byte.
    Sb,
    /// The lower half, of 16 bits.
    Sh,
    /// The word.
    Sw,
}

/// What is computed from two numbers of 32 bits. Sums, differences and products wrap; shifts go by the
/// lowest five bits of the second number.
#[derive(Clone, Copy, Debug, PartialEq, Eq)]
pub enum Operation {
    /// The sum.
    Add,
    /// The difference.
    Sub,
    /// The first, shifted to the left.
    Sll,
    /// 1 where the first is less, as signed numbers, else 0.
    Slt,
    /// 1 where the first is less, as unsigned numbers, else 0.
    Sltu,
    /// Exclusive or, bit by bit.
    Xor,
    /// The first, shifted to the right, with zeros from the left.
    Srl,
    /// The first, shifted to the right, with its sign from the left.
    Sra,
    /// Or, bit by bit.
    Or,
    /// And, bit by bit.
    And,
    /// The lower 32 bits of the product.
    Mul,
    /// The upper 32 bits of the product of two signed numbers.
    Mulh,
    /// The upper 32 bits of the product of a signed and an unsigned number.
    Mulhsu,
    /// The upper 32 bits of the product of two unsigned numbers.
    Mulhu,
    /// The signed quotient, toward zero. By 0 it is -1; the least number by -1 is itself.
    Div,
    /// The unsigned quotient. By 0 it is the greatest number.
    Divu,
    /// The remainder of `Div`, with the sign of the first. By 0 it is the first; of the least number by -1 it is 0.
    Rem,
    /// The remainder of `Divu`. By 0 it is the first.
    Remu,
}

/// One instruction. Registers stand in the manual's order, `rd`, `rs1`, `rs2`, and behind them the
/// immediate, extended to 32 bits as its format has it.
#[derive(Clone, Copy, Debug, PartialEq, Eq)]
pub enum Instruction {
    /// Puts the immediate into `rd`.
    Lui(Register, u32),
    /// Puts the sum of the program counter and the immediate into `rd`.
    Auipc(Register, u32),
    /// Jumps by the immediate, with the address of the next instruction in `rd`.
    Jal(Register, u32),
    /// Jumps to `rs1` and the immediate, with bit 0 cleared, and the address of the next instruction in `rd`.
    Jalr(Register, Register, u32),
    /// Jumps by the immediate where `rs1` and `rs2` compare so.
    Branch(Comparison, Register, Register, u32),
    /// Loads into `rd` from `rs1` and the immediate.
    Load(Reading, Register, Register, u32),
    /// Stores at `rs1` and the immediate (the first register) what is in `rs2` (the second).
    Store(Writing, Register, Register, u32),
    /// Puts into `rd` what is computed from `rs1` and the immediate.
    OpImm(Operation, Register, Register, u32),
    /// Puts into `rd` what is computed from `rs1` and `rs2`.
    Op(Operation, Register, Register, Register),
    /// FENCE, which does nothing here.
    Fence,
    /// ECALL, which raises `EnvironmentCall`.
    Ecall,
    /// EBREAK, which raises `Breakpoint`.
    Ebreak,
}
