//! Outputs that a unit holds.

ghost use Rattle.std.specs.Prelude.{◌≡◌, ◌++◌, ◌∷◌, [], IfErr, IfOk, Some, length, slice_get};
ghost use Rattle.output_commit.specs.declared.held.Held.{Held as HeldOf};
ghost use Rattle.codec.specs.Codes.{each_code, list_code, AllFit, Decodes, Encodes, FitEach, Unless};
ghost use Rattle.codec.specs.Layers.{held_code, FitsHeld};
ghost use Rattle.snapshot.specs.Parts.{hold_code, FitsHold};
ghost use Rattle.codec.specs.declared.fault.DecodeFault.{DecodeFault as FaultOf};

use codec::{Coded, DecodeFault, Input, decode_list};
use model::{NoMemory, Unit};
use output_commit::{Held, Hold};
use std::alloc::Global;

/// Appends the bytes of the output at this place, if there is one.
fn encode_held(hold: &Hold, place: usize, out: &mut Vec<u8>) -> Result<(), NoMemory>
    ensures code { IfOk result (λ _. (held : HeldOf) → slice_get hold.now.outputs place ≡ Some held
        → Encodes held_code held out.old.items out.new.items) }
    ensures fits { IfOk result (λ _. (held : HeldOf) → slice_get hold.now.outputs place ≡ Some held
        → FitsHeld held) }
{
    match hold.at(place) {
        Some(held) => held.encode(out),
        None => Ok(()),
    }
}

/// Appends the bytes of each output.
fn encode_each_held(hold: &Hold, count: usize, out: &mut Vec<u8>) -> Result<(), NoMemory>
    requires { count ≡ length hold.now.outputs }
    ensures code { IfOk result (λ _. Encodes (each_code held_code) hold.now.outputs out.old.items out.new.items) }
    ensures fits { IfOk result (λ _. AllFit FitsHeld hold.now.outputs) }
{
    for place in 0..count {
        encode_held(hold, place, out)?;
    }
    Ok(())
}

/// Appends the bytes of a hold: which unit's it is, and its outputs.
pub(crate) fn encode_hold(hold: &Hold, out: &mut Vec<u8>) -> Result<(), NoMemory>
    ensures code { IfOk result (λ _.
        Encodes hold_code (hold.now.unit, hold.now.outputs) out.old.items out.new.items) }
    ensures fits { IfOk result (λ _. FitsHold (hold.now.unit, hold.now.outputs)) }
{
    let count = hold.len();
    hold.unit().encode(out)?;
    count.encode(out)?;
    encode_each_held(hold, count, out)
}

/// The hold of a unit with these outputs.
fn hold_of(alloc: Global, unit: Unit, outputs: Vec<Held>) -> Result<Hold, NoMemory>
    ensures unit { IfOk result (λ h. h.unit ≡ unit) }
    ensures outputs { IfOk result (λ h. h.outputs ≡ outputs.items) }
{
    let mut hold = Hold::new(alloc, unit);
    for held in outputs {
        hold.push(held)?;
    }
    Ok(hold)
}

/// Takes the bytes of a hold off the input.
pub(crate) fn decode_hold(alloc: Global, input: &mut Input) -> Result<Hold, DecodeFault>
    ensures ok { IfOk result (λ h. Decodes hold_code FitsHold input.old (h.unit, h.outputs) input.new) }
    ensures err { IfErr result (λ e. Unless hold_code FitsHold input.old (e ≡ FaultOf.NoMemory)) }
{
    let unit = Unit::decode(alloc, input)?;
    let outputs = decode_list::<Held>(alloc, input)?;
    let hold = hold_of(alloc, unit, outputs)?;
    Ok(hold)
}
