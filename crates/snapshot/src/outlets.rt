//! What the units of a tenant released.

ghost use Rattle.std.specs.Prelude.{◌≡◌, IfErr, IfOk, length};
ghost use Rattle.codec.specs.Codes.{each_code, list_code, AllFit, Decodes, DecodesEach, DecodesOnto, Encodes};
ghost use Rattle.codec.specs.Codes.{FitEach, Unless, UnlessEach};
ghost use Rattle.snapshot.specs.Parts.{line_code, pairs_of, FitsLine};
ghost use Rattle.codec.specs.declared.fault.DecodeFault.{DecodeFault as FaultOf};

use codec::{Coded, DecodeFault, Input, decode_list, encode_list};
use model::{NoMemory, Text};
use output_commit::{Outlet, Released};
use std::alloc::Global;

/// Appends the bytes of what one unit released. Its texts are counted by 64 bits, as those of each outlet are.
fn encode_line(line: &Released, out: &mut Vec<u8>) -> Result<(), NoMemory>
    ensures code { IfOk result (λ _.
        Encodes line_code (line.now.gone, line.now.texts) out.old.items out.new.items) }
    ensures fits { IfOk result (λ _. FitsLine (line.now.gone, line.now.texts)) }
{
    let gone = line.gone();
    gone.encode(out)?;
    encode_list(line.as_slice(), out)
}

/// Appends the bytes of what each unit released.
fn encode_each_line(lines: &[Released], out: &mut Vec<u8>) -> Result<(), NoMemory>
    ensures code { IfOk result (λ _.
        Encodes (each_code line_code) (pairs_of lines.now) out.old.items out.new.items) }
    ensures fits { IfOk result (λ _. AllFit FitsLine (pairs_of lines.now)) }
{
    for line in lines {
        encode_line(line, out)?;
    }
    Ok(())
}

/// Appends the bytes of an outlet: how many units there are, and what each released.
pub(crate) fn encode_outlet(outlet: &Outlet, out: &mut Vec<u8>) -> Result<(), NoMemory>
    ensures code { IfOk result (λ _.
        Encodes (list_code line_code) (pairs_of outlet.now) out.old.items out.new.items) }
    ensures fits { IfOk result (λ _. FitEach FitsLine (pairs_of outlet.now)) }
{
    let lines = outlet.lines();
    lines.len().encode(out)?;
    encode_each_line(lines, out)
}

/// Takes the bytes of what one unit released off the input, and adds it to the outlet.
fn decode_onto(alloc: Global, input: &mut Input, outlet: &mut Outlet) -> Result<(), DecodeFault>
    ensures ok { IfOk result (λ _.
        DecodesOnto line_code FitsLine input.old (pairs_of outlet.old) (pairs_of outlet.new) input.new) }
    ensures err { IfErr result (λ e. Unless line_code FitsLine input.old (e ≡ FaultOf.NoMemory)) }
{
    let gone = u64::decode(alloc, input)?;
    let texts = decode_list::<Text>(alloc, input)?;
    if texts.len() as u64 > u64::MAX - gone {
        return Err(DecodeFault::Damaged);
    }
    outlet.add(gone, texts)?;
    Ok(())
}

/// Takes the bytes of what so many units released off the input, and adds it to an outlet that has no unit yet.
fn decode_all_onto(
    alloc: Global,
    input: &mut Input,
    count: usize,
    outlet: &mut Outlet,
) -> Result<(), DecodeFault>
    requires { length outlet.old ≡ 0 }
    ensures ok { IfOk result (λ _.
        DecodesEach line_code FitsLine count input.old (pairs_of outlet.new) input.new) }
    ensures err { IfErr result (λ e. UnlessEach line_code FitsLine count input.old (e ≡ FaultOf.NoMemory)) }
{
    for _ in 0..count {
        decode_onto(alloc, input, outlet)?;
    }
    Ok(())
}

/// Takes the bytes of an outlet off the input.
pub(crate) fn decode_outlet(alloc: Global, input: &mut Input) -> Result<Outlet, DecodeFault>
    ensures ok { IfOk result (λ o.
        Decodes (list_code line_code) (FitEach FitsLine) input.old (pairs_of o) input.new) }
    ensures err { IfErr result (λ e.
        Unless (list_code line_code) (FitEach FitsLine) input.old (e ≡ FaultOf.NoMemory)) }
{
    let count = usize::decode(alloc, input)?;
    let mut outlet = Outlet::new(alloc, 0)?;
    decode_all_onto(alloc, input, count, &mut outlet)?;
    Ok(outlet)
}
