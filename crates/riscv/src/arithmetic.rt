//! What is computed from two numbers.

ghost use Rattle.std.specs.Prelude.{◌≡◌, ◌/◌, ◌*◌, ◌%◌, ◌<◌, ◌^◌, int_lt, int_div, pos};
ghost use Rattle.std.specs.Int.{int_shr};
ghost use Rattle.riscv.specs.Arithmetic.{signed, unsigned, flag, upper_product, quotient, remainder, quotient_unsigned};
ghost use Rattle.riscv.specs.Arithmetic.{remainder_unsigned, value_of, is_taken};

use crate::instruction::{Comparison, Operation};

#[inline(always)]
fn flag_of(test: bool) -> u32
    ensures { result ≡ flag test }
{
    if test { 1 } else { 0 }
}

#[inline(always)]
fn is_less(a: u32, b: u32) -> bool
    ensures { result ≡ int_lt (signed a) (signed b) }
{
    a.cast_signed() < b.cast_signed()
}

#[inline(always)]
fn shift_right(a: u32, b: u32) -> u32
    ensures { result ≡ unsigned (int_shr (signed a) (b % 32)) }
{
    a.cast_signed().wrapping_shr(b).cast_unsigned()
}

/// The upper half of the product of two signed numbers.
#[inline(always)]
fn upper_signed(a: u32, b: u32) -> u32
    ensures { result ≡ upper_product (signed a) (signed b) }
{
    let product = a.cast_signed() as i64 * b.cast_signed() as i64;
    (product.cast_unsigned() / 0x1_0000_0000) as u32
}

/// The upper half of the product of a signed and an unsigned number.
#[inline(always)]
fn upper_mixed(a: u32, b: u32) -> u32
    ensures { result ≡ upper_product (signed a) (pos b) }
{
    let product = a.cast_signed() as i64 * b as i64;
    (product.cast_unsigned() / 0x1_0000_0000) as u32
}

#[inline(always)]
fn upper_unsigned(a: u32, b: u32) -> u32
    ensures { result ≡ a * b / 2 ^ 32 }
{
    (a as u64 * b as u64 / 0x1_0000_0000) as u32
}

/// The signed quotient, whose bits wrap in the one case in which it is too large.
#[inline(always)]
fn wrapped_quotient(a: u32, b: u32) -> u32
    requires { 0 < b }
    ensures { result ≡ unsigned (int_div (signed a) (signed b)) }
{
    a.cast_signed()
        .wrapping_div(b.cast_signed())
        .cast_unsigned()
}

fn divide(a: u32, b: u32) -> u32
    ensures { result ≡ quotient a b }
{
    if b == 0 {
        0xffff_ffff
    } else if a == 0x8000_0000 && b == 0xffff_ffff {
        0x8000_0000
    } else {
        wrapped_quotient(a, b)
    }
}

fn rest(a: u32, b: u32) -> u32
    ensures { result ≡ remainder a b }
{
    if b == 0 {
        a
    } else if a == 0x8000_0000 && b == 0xffff_ffff {
        0
    } else {
        a.cast_signed()
            .wrapping_rem(b.cast_signed())
            .cast_unsigned()
    }
}

fn divide_unsigned(a: u32, b: u32) -> u32
    ensures { result ≡ quotient_unsigned a b }
{
    if b == 0 { 0xffff_ffff } else { a / b }
}

fn rest_unsigned(a: u32, b: u32) -> u32
    ensures { result ≡ remainder_unsigned a b }
{
    if b == 0 { a } else { a % b }
}

/// Whether two numbers compare so.
#[inline(always)]
pub(crate) fn compare(comparison: Comparison, a: u32, b: u32) -> bool
    ensures { result ≡ is_taken comparison a b }
{
    match comparison {
        Comparison::Beq => a == b,
        Comparison::Bne => a != b,
        Comparison::Blt => is_less(a, b),
        Comparison::Bge => !is_less(a, b),
        Comparison::Bltu => a < b,
        Comparison::Bgeu => !(a < b),
    }
}

/// What an operation gives.
#[inline(always)]
pub(crate) fn operate(operation: Operation, a: u32, b: u32) -> u32
    ensures { result ≡ value_of operation a b }
{
    match operation {
        Operation::Add => a.wrapping_add(b),
        Operation::Sub => a.wrapping_sub(b),
        Operation::Sll => a.wrapping_shl(b),
        Operation::Slt => flag_of(is_less(a, b)),
        Operation::Sltu => flag_of(a < b),
        Operation::Xor => a ^ b,
        Operation::Srl => a.wrapping_shr(b),
        Operation::Sra => shift_right(a, b),
        Operation::Or => a | b,
        Operation::And => a & b,
        Operation::Mul => a.wrapping_mul(b),
        Operation::Mulh => upper_signed(a, b),
        Operation::Mulhsu => upper_mixed(a, b),
        Operation::Mulhu => upper_unsigned(a, b),
        Operation::Div => divide(a, b),
        Operation::Divu => divide_unsigned(a, b),
        Operation::Rem => rest(a, b),
        Operation::Remu => rest_unsigned(a, b),
    }
}
