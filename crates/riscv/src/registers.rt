//! The registers, and the program counter that comes.

ghost use Rattle.std.specs.Prelude.{◌≡◌, ◌%◌, ◌==◌, Ok, Err, if◌then◌else◌, slice_index};
ghost use Rattle.riscv.specs.Machines.{plus, with_register};

use crate::apart::Apart;
use crate::fault::Exception;
use crate::register::Register;

/// The number in a register.
#[inline(always)]
pub(crate) fn read(registers: &[u32; 32], register: Register) -> u32
    ensures { result ≡ slice_index registers.now register }
{
    registers[register.index()]
}

/// Puts a number into a register. `x0` stays 0.
#[inline(always)]
pub(crate) fn put(registers: &mut [u32; 32], rd: Register, n: u32)
    ensures { registers.new ≡ with_register registers.old rd n }
{
    registers[rd.index()] = n;
    registers[0] = 0;
}

/// The address of the next instruction.
#[inline(always)]
pub(crate) fn next(counter: u32) -> u32
    ensures { result ≡ plus counter 4 }
{
    counter.wrapping_add(4)
}

/// Jumps.
#[inline(always)]
pub(crate) fn jump(counter: &mut u32, to: u32) -> Result<(), Apart>
    ensures result { result
        ≡ (if to % 4 == 0 then Ok tt else Err (Apart.Raised Exception.InstructionAddressMisaligned)) }
    ensures counter { counter.new ≡ (if to % 4 == 0 then to else counter.old) }
{
    if to % 4 == 0 {
        *counter = to;
        Ok(())
    } else {
        Err(Apart::Raised(Exception::InstructionAddressMisaligned))
    }
}
