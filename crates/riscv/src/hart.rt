//! What a hart does by its registers and reads of the memory.

ghost use Rattle.std.specs.Prelude.{◌≡◌, ◌≢◌, ◌<◌, ◌%◌, Err, OnOk};
ghost use Rattle.riscv.specs.Decoding.{instruction_of};
ghost use Rattle.riscv.specs.Memories.{word_at};
ghost use Rattle.riscv.specs.Machines.{decoded};
ghost use Rattle.riscv.specs.Predecoding.{meaning};
ghost use Rattle.riscv.specs.Harts.{machine_of, Does, Says, Pauses};

use crate::accesses::load;
use crate::apart::Apart;
use crate::computing::{
    auipc, branch, fence, finish, jal, jalr, op, op_apart, op_imm, op_imm_apart,
};
use crate::fault::Exception;
use crate::instruction::{Comparison, Operation, Reading, Writing};
use crate::memory::Memory;
use crate::predecoded::Predecoded;

/// Carries out an instruction, if the registers and reads of the memory are enough for it, and goes on to the
/// instruction that comes. Each line is one of the manual's: all of them stand here, so that one jump leads to each.
#[tactic(auto, unfolding(crate::specs::Machines::executed))]
#[inline(always)]
pub(crate) fn pass(
    registers: &mut [u32; 32],
    counter: &mut u32,
    memory: &Memory,
    instruction: &Predecoded,
) -> Result<(), Apart>
    requires { counter.old % 4 ≡ 0 }
    ensures does { instruction.now ≢ Predecoded.Unread
        → Does result (decoded (machine_of registers.old counter.old memory.now) (meaning instruction.now))
        (machine_of registers.old counter.old memory.now) registers.new counter.new }
    ensures unread { instruction.now ≡ Predecoded.Unread → result ≡ Err Apart.Unread }
    ensures kept { result ≡ Err Apart.Unread → (registers.new ≡ registers.old) × (counter.new ≡ counter.old) }
    ensures aligned { OnOk result (counter.new % 4 ≡ 0) }
{
    match *instruction {
        Predecoded::Lui(rd, n) => finish(registers, counter, rd, n),
        Predecoded::Auipc(rd, n) => auipc(registers, counter, rd, n),
        Predecoded::Jal(rd, n) => jal(registers, counter, rd, n),
        Predecoded::Jalr(rd, rs1, n) => jalr(registers, counter, rd, rs1, n),
        Predecoded::Beq(rs1, rs2, n) => branch(registers, counter, Comparison::Beq, rs1, rs2, n),
        Predecoded::Bne(rs1, rs2, n) => branch(registers, counter, Comparison::Bne, rs1, rs2, n),
        Predecoded::Blt(rs1, rs2, n) => branch(registers, counter, Comparison::Blt, rs1, rs2, n),
        Predecoded::Bge(rs1, rs2, n) => branch(registers, counter, Comparison::Bge, rs1, rs2, n),
        Predecoded::Bltu(rs1, rs2, n) => branch(registers, counter, Comparison::Bltu, rs1, rs2, n),
        Predecoded::Bgeu(rs1, rs2, n) => branch(registers, counter, Comparison::Bgeu, rs1, rs2, n),
        Predecoded::Lb(rd, rs1, n) => load(registers, counter, memory, Reading::Lb, rd, rs1, n),
        Predecoded::Lh(rd, rs1, n) => load(registers, counter, memory, Reading::Lh, rd, rs1, n),
        Predecoded::Lw(rd, rs1, n) => load(registers, counter, memory, Reading::Lw, rd, rs1, n),
        Predecoded::Lbu(rd, rs1, n) => load(registers, counter, memory, Reading::Lbu, rd, rs1, n),
        Predecoded::Lhu(rd, rs1, n) => load(registers, counter, memory, Reading::Lhu, rd, rs1, n),
        Predecoded::Sb(rs1, rs2, n) => Err(Apart::Store(Writing::Sb, rs1, rs2, n)),
        Predecoded::Sh(rs1, rs2, n) => Err(Apart::Store(Writing::Sh, rs1, rs2, n)),
        Predecoded::Sw(rs1, rs2, n) => Err(Apart::Store(Writing::Sw, rs1, rs2, n)),
        Predecoded::Addi(rd, rs1, n) => op_imm(registers, counter, Operation::Add, rd, rs1, n),
        Predecoded::Slli(rd, rs1, n) => op_imm(registers, counter, Operation::Sll, rd, rs1, n),
        Predecoded::Slti(rd, rs1, n) => op_imm(registers, counter, Operation::Slt, rd, rs1, n),
        Predecoded::Sltiu(rd, rs1, n) => op_imm(registers, counter, Operation::Sltu, rd, rs1, n),
        Predecoded::Xori(rd, rs1, n) => op_imm(registers, counter, Operation::Xor, rd, rs1, n),
        Predecoded::Srli(rd, rs1, n) => op_imm(registers, counter, Operation::Srl, rd, rs1, n),
        Predecoded::Srai(rd, rs1, n) => op_imm(registers, counter, Operation::Sra, rd, rs1, n),
        Predecoded::Ori(rd, rs1, n) => op_imm(registers, counter, Operation::Or, rd, rs1, n),
        Predecoded::Andi(rd, rs1, n) => op_imm(registers, counter, Operation::And, rd, rs1, n),
        Predecoded::Add(rd, rs1, rs2) => op(registers, counter, Operation::Add, rd, rs1, rs2),
        Predecoded::Sub(rd, rs1, rs2) => op(registers, counter, Operation::Sub, rd, rs1, rs2),
        Predecoded::Sll(rd, rs1, rs2) => op(registers, counter, Operation::Sll, rd, rs1, rs2),
        Predecoded::Slt(rd, rs1, rs2) => op(registers, counter, Operation::Slt, rd, rs1, rs2),
        Predecoded::Sltu(rd, rs1, rs2) => op(registers, counter, Operation::Sltu, rd, rs1, rs2),
        Predecoded::Xor(rd, rs1, rs2) => op(registers, counter, Operation::Xor, rd, rs1, rs2),
        Predecoded::Srl(rd, rs1, rs2) => op(registers, counter, Operation::Srl, rd, rs1, rs2),
        Predecoded::Sra(rd, rs1, rs2) => op(registers, counter, Operation::Sra, rd, rs1, rs2),
        Predecoded::Or(rd, rs1, rs2) => op(registers, counter, Operation::Or, rd, rs1, rs2),
        Predecoded::And(rd, rs1, rs2) => op(registers, counter, Operation::And, rd, rs1, rs2),
        Predecoded::Mul(rd, rs1, rs2) => op(registers, counter, Operation::Mul, rd, rs1, rs2),
        Predecoded::OpImm(o, rd, rs1, n) => op_imm_apart(registers, counter, o, rd, rs1, n),
        Predecoded::Op(o, rd, rs1, rs2) => op_apart(registers, counter, o, rd, rs1, rs2),
        Predecoded::Fence => fence(counter),
        Predecoded::Ecall => Err(Apart::Raised(Exception::EnvironmentCall)),
        Predecoded::Ebreak => Err(Apart::Raised(Exception::Breakpoint)),
        Predecoded::Illegal => Err(Apart::Raised(Exception::IllegalInstruction)),
        Predecoded::Unread => Err(Apart::Unread),
    }
}

/// How far a hart came within a page.
#[derive(Clone, Copy)]
pub(crate) struct Pause {
    /// How many of its steps are left.
    pub(crate) left: u32,
    /// The program counter.
    pub(crate) counter: u32,
    /// What is left to others of the instruction that comes, unless it is of another page or no step is left.
    pub(crate) apart: Option<Apart>,
}

/// Carries out instructions of one page, at most so many, the first of which is at hand: what its words say is kept,
/// so none is looked for.
#[inline(always)]
pub(crate) fn pass_within(
    registers: &mut [u32; 32],
    from: u32,
    first: &Predecoded,
    code: &[Predecoded],
    memory: &Memory,
    most: u32,
) -> Pause
    requires read { first.now ≢ Predecoded.Unread }
    requires first { meaning first.now ≡ instruction_of (word_at memory.now from) }
    requires aligned { from % 4 ≡ 0 }
    requires within { from < 262144 }
    requires says { 1 < most → Says code.now memory.now from }
    requires some { 0 < most }
    ensures { Pauses result.left most result.apart (machine_of registers.old from memory.now)
        (machine_of registers.new result.counter memory.now) }
{
    let page = from / 4096;
    let mut counter = from;
    let mut left = most;
    let mut instruction = first;
    loop {
        if let Err(apart) = pass(registers, &mut counter, memory, instruction) {
            return Pause {
                left,
                counter,
                apart: Some(apart),
            };
        }
        left -= 1;
        if left == 0 || counter / 4096 != page {
            return Pause {
                left,
                counter,
                apart: None,
            };
        }
        instruction = &code[(counter / 4 % 1024) as usize];
    }
}
