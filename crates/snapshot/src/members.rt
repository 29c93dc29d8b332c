//! Units with what they hold.

ghost use Rattle.std.specs.Prelude.{◌≡◌, [], IfErr, IfOk};
ghost use Rattle.codec.specs.Codes.{each_code, list_code, AllFit, Decodes, DecodesEach, DecodesOnto, Encodes};
ghost use Rattle.codec.specs.Codes.{FitEach, Unless, UnlessEach};
ghost use Rattle.snapshot.specs.Tenants.{member_code, FitsMember};
ghost use Rattle.codec.specs.declared.fault.DecodeFault.{DecodeFault as FaultOf};

use crate::holds::{decode_hold, encode_hold};
use crate::unit::{decode_unit, encode_unit};
use codec::{Coded, DecodeFault, Input, Portable, put};
use model::NoMemory;
use std::alloc::Global;
use tenant::Member;

/// Appends the bytes of a member.
fn encode_member<H: Portable>(
    handler: &H,
    member: &Member<H>,
    out: &mut Vec<u8>,
) -> Result<(), NoMemory>
    ensures code { IfOk result (λ _. Encodes (member_code H.state_code) member.now out.old.items out.new.items) }
    ensures fits { IfOk result (λ _. FitsMember H.state_fits member.now) }
{
    encode_unit(handler, member.unit_state(), out)?;
    encode_hold(member.hold(), out)?;
    member.known().encode(out)?;
    member.first_put().encode(out)
}

/// Appends the bytes of each member.
fn encode_each_member<H: Portable>(
    handler: &H,
    members: &[Member<H>],
    out: &mut Vec<u8>,
) -> Result<(), NoMemory>
    ensures code { IfOk result (λ _.
        Encodes (each_code (member_code H.state_code)) members.now out.old.items out.new.items) }
    ensures fits { IfOk result (λ _. AllFit (FitsMember H.state_fits) members.now) }
{
    for member in members {
        encode_member(handler, member, out)?;
    }
    Ok(())
}

/// Appends the bytes of a list of members.
pub(crate) fn encode_members<H: Portable>(
    handler: &H,
    members: &Vec<Member<H>>,
    out: &mut Vec<u8>,
) -> Result<(), NoMemory>
    ensures code { IfOk result (λ _.
        Encodes (list_code (member_code H.state_code)) members.now.items out.old.items out.new.items) }
    ensures fits { IfOk result (λ _. FitEach (FitsMember H.state_fits) members.now.items) }
{
    let members = members.as_slice();
    members.len().encode(out)?;
    encode_each_member(handler, members, out)
}

/// Takes the bytes of a member off the input.
fn decode_member<H: Portable>(
    handler: &H,
    alloc: Global,
    input: &mut Input,
) -> Result<Member<H>, DecodeFault>
    ensures ok { IfOk result (λ m. Decodes (member_code H.state_code) (FitsMember H.state_fits) input.old m input.new) }
    ensures err { IfErr result (λ e.
        Unless (member_code H.state_code) (FitsMember H.state_fits) input.old (e ≡ FaultOf.NoMemory)) }
{
    let unit_state = decode_unit(handler, alloc, input)?;
    let hold = decode_hold(alloc, input)?;
    let known = usize::decode(alloc, input)?;
    let first_put = bool::decode(alloc, input)?;
    Ok(Member::of(unit_state, hold, known, first_put))
}

/// Takes the bytes of a member off the input, and adds it at the end.
fn decode_onto<H: Portable>(
    handler: &H,
    alloc: Global,
    input: &mut Input,
    members: &mut Vec<Member<H>>,
) -> Result<(), DecodeFault>
    ensures ok { IfOk result (λ _. DecodesOnto (member_code H.state_code) (FitsMember H.state_fits)
        input.old members.old.items members.new.items input.new) }
    ensures err { IfErr result (λ e.
        Unless (member_code H.state_code) (FitsMember H.state_fits) input.old (e ≡ FaultOf.NoMemory)) }
{
    let member = decode_member(handler, alloc, input)?;
    put(members, member)?;
    Ok(())
}

/// Takes the bytes of so many members off the input, and adds them at the end.
fn decode_all_onto<H: Portable>(
    handler: &H,
    alloc: Global,
    input: &mut Input,
    count: usize,
    members: &mut Vec<Member<H>>,
) -> Result<(), DecodeFault>
    requires { members.old.items ≡ [] }
    ensures ok { IfOk result (λ _. DecodesEach (member_code H.state_code) (FitsMember H.state_fits) count
        input.old members.new.items input.new) }
    ensures err { IfErr result (λ e. UnlessEach (member_code H.state_code) (FitsMember H.state_fits) count
        input.old (e ≡ FaultOf.NoMemory)) }
{
    for _ in 0..count {
        decode_onto(handler, alloc, input, members)?;
    }
    Ok(())
}

/// Takes the bytes of a list of members off the input.
pub(crate) fn decode_members<H: Portable>(
    handler: &H,
    alloc: Global,
    input: &mut Input,
) -> Result<Vec<Member<H>>, DecodeFault>
    ensures ok { IfOk result (λ xs. Decodes (list_code (member_code H.state_code)) (FitEach (FitsMember H.state_fits))
        input.old xs.items input.new) }
    ensures err { IfErr result (λ e. Unless (list_code (member_code H.state_code)) (FitEach (FitsMember H.state_fits))
        input.old (e ≡ FaultOf.NoMemory)) }
{
    let count = usize::decode(alloc, input)?;
    let mut members = Vec::new(alloc);
    decode_all_onto(handler, alloc, input, count, &mut members)?;
    Ok(members)
}
