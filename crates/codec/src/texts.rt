//! Texts and lists that have a type of their own.

ghost use Rattle.std.specs.Prelude.{◌≡◌, ◌<◌, ◌^◌, IfErr, IfOk, length};
ghost use Rattle.std.specs.Str.{IsUtf8};
ghost use Rattle.codec.specs.Codes.{bytes_code, Decodes, Encodes, FitsName, FitsText, Unless};
ghost use Rattle.codec.specs.declared.fault.DecodeFault.{DecodeFault as FaultOf};

use crate::coded::Coded;
use crate::fault::DecodeFault;
use crate::input::Input;
use model::{NoMemory, TenantName, Text};
use std::alloc::Global;

/// Appends the length of the bytes, and the bytes.
pub fn encode_bytes(bytes: &[u8], out: &mut Vec<u8>) -> Result<(), NoMemory>
    ensures code { IfOk result (λ _. Encodes bytes_code bytes.now out.old.items out.new.items) }
    ensures len { IfOk result (λ _. length bytes.now < 2 ^ 64) }
{
    bytes.len().encode(out)?;
    out.extend_from_slice(bytes)?;
    Ok(())
}

/// Takes bytes off the input, and how many there are.
pub fn decode_bytes<'a>(alloc: Global, input: &mut Input<'a>) -> Result<&'a [u8], DecodeFault>
    ensures ok { IfOk result (λ x. Decodes bytes_code (λ bytes. length bytes < 2 ^ 64) input.old x.now input.new) }
    ensures err { IfErr result (λ e.
        Unless bytes_code (λ bytes. length bytes < 2 ^ 64) input.old (e ≡ FaultOf.NoMemory)) }
{
    let len = usize::decode(alloc, input)?;
    input.bytes(len)
}

/// Takes a text off the input.
fn decode_str<'a>(alloc: Global, input: &mut Input<'a>) -> Result<&'a str, DecodeFault>
    ensures ok { IfOk result (λ x. Decodes bytes_code FitsText input.old x.now input.new) }
    ensures err { IfErr result (λ e. Unless bytes_code FitsText input.old (e ≡ FaultOf.NoMemory)) }
{
    let len = usize::decode(alloc, input)?;
    let bytes = input.bytes(len)?;
    match str::from_utf8(bytes) {
        Ok(text) => Ok(text),
        Err(_) => Err(DecodeFault::Damaged),
    }
}

impl Coded for Text {
    ghost code = { bytes_code };

    ghost fits = { FitsText };

    fn encode(&self, out: &mut Vec<u8>) -> Result<(), NoMemory> {
        encode_bytes(self.as_str().as_bytes(), out)
    }

    fn decode(alloc: Global, input: &mut Input) -> Result<Text, DecodeFault> {
        let text = decode_str(alloc, input)?;
        let text = Text::of(alloc, text)?;
        Ok(text)
    }
}

impl Coded for TenantName {
    ghost code = { bytes_code };

    ghost fits = { FitsName };

    fn encode(&self, out: &mut Vec<u8>) -> Result<(), NoMemory> {
        encode_bytes(self.as_str().as_bytes(), out)
    }

    fn decode(alloc: Global, input: &mut Input) -> Result<TenantName, DecodeFault> {
        let text = decode_str(alloc, input)?;
        match TenantName::new(text) {
            Some(name) => Ok(name),
            None => Err(DecodeFault::Damaged),
        }
    }
}
