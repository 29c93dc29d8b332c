//! Numbers, and whether something is so.

ghost use Rattle.std.specs.Prelude.{◌≡◌, ◌<◌, ◌^◌, IfErr, IfOk};
ghost use Rattle.codec.specs.Codes.{bool_code, byte_code, number_code, Decodes, Encodes, Unless};
ghost use Rattle.codec.specs.declared.fault.DecodeFault.{DecodeFault as FaultOf};

use crate::coded::Coded;
use crate::fault::DecodeFault;
use crate::input::Input;
use model::NoMemory;
use std::alloc::Global;

/// What tells that a number's eight bytes follow.
const LONG: u8 = 255;

/// Appends a number's bytes.
#[tactic(auto, unfolding(crate::specs::Codes::number_code))]
fn encode_number(number: u64, out: &mut Vec<u8>) -> Result<(), NoMemory>
    ensures { IfOk result (λ _. Encodes number_code number out.old.items out.new.items) }
{
    if number < u64::from(LONG) {
        out.push(number as u8)?;
        return Ok(());
    }
    out.push(LONG)?;
    out.extend_from_slice(&number.to_le_bytes())?;
    Ok(())
}

/// Takes a number's bytes off the input.
#[tactic(auto, unfolding(crate::specs::Codes::number_code))]
fn decode_number(input: &mut Input) -> Result<u64, DecodeFault>
    ensures ok { IfOk result (λ x. Decodes number_code (λ n. n < 2 ^ 64) input.old x input.new) }
    ensures err { IfErr result (λ e. Unless number_code (λ n. n < 2 ^ 64) input.old (e ≡ FaultOf.NoMemory)) }
{
    let first = input.byte()?;
    if first < LONG {
        return Ok(u64::from(first));
    }
    let bytes = input.eight()?;
    Ok(u64::from_le_bytes(bytes))
}

impl Coded for u64 {
    ghost code = { number_code };

    ghost fits = { λ n. n < 2 ^ 64 };

    fn encode(&self, out: &mut Vec<u8>) -> Result<(), NoMemory> {
        encode_number(*self, out)
    }

    fn decode(_alloc: Global, input: &mut Input) -> Result<u64, DecodeFault> {
        decode_number(input)
    }
}

impl Coded for usize {
    ghost code = { number_code };

    ghost fits = { λ n. n < 2 ^ 64 };

    fn encode(&self, out: &mut Vec<u8>) -> Result<(), NoMemory> {
        encode_number(*self as u64, out)
    }

    fn decode(_alloc: Global, input: &mut Input) -> Result<usize, DecodeFault> {
        let number = decode_number(input)?;
        Ok(number as usize)
    }
}

impl Coded for u32 {
    ghost code = { number_code };

    ghost fits = { λ n. n < 2 ^ 32 };

    fn encode(&self, out: &mut Vec<u8>) -> Result<(), NoMemory> {
        encode_number(u64::from(*self), out)
    }

    fn decode(_alloc: Global, input: &mut Input) -> Result<u32, DecodeFault> {
        let number = decode_number(input)?;
        match u32::try_from(number) {
            Ok(number) => Ok(number),
            Err(_) => Err(DecodeFault::Damaged),
        }
    }
}

impl Coded for u8 {
    ghost code = { byte_code };

    ghost fits = { λ n. n < 256 };

    fn encode(&self, out: &mut Vec<u8>) -> Result<(), NoMemory> {
        out.push(*self)?;
        Ok(())
    }

    fn decode(_alloc: Global, input: &mut Input) -> Result<u8, DecodeFault> {
        input.byte()
    }
}

impl Coded for bool {
    ghost code = { bool_code };

    ghost fits = { λ _. Unit {0} };

    fn encode(&self, out: &mut Vec<u8>) -> Result<(), NoMemory> {
        u8::from(*self).encode(out)
    }

    fn decode(alloc: Global, input: &mut Input) -> Result<bool, DecodeFault> {
        match u8::decode(alloc, input)? {
            0 => Ok(false),
            1 => Ok(true),
            _ => Err(DecodeFault::Damaged),
        }
    }
}
