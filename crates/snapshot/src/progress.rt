//! How far a unit has come, and its snapshots.

ghost use Rattle.std.specs.Prelude.{◌≡◌, ◌<◌, ◌^◌, [], IfErr, IfOk, length};
ghost use Rattle.codec.specs.Codes.{list_code, option_code, Decodes, DecodesEach, DecodesOnto, Encodes, FitEach};
ghost use Rattle.codec.specs.Codes.{FitsSome, Unless};
ghost use Rattle.std.specs.Option.{option_copied};
ghost use Rattle.codec.specs.Codes.{each_code, AllFit, UnlessEach};
ghost use Rattle.snapshot.specs.Parts.{progress_code, shelf_code, snapshot_code, FitsProgress, FitsShelf, FitsSnapshot};
ghost use Rattle.codec.specs.declared.fault.DecodeFault.{DecodeFault as FaultOf};

use checkpoint::{Shelf, Snapshot};
use codec::{Coded, DecodeFault, Input, Portable, put};
use model::NoMemory;
use rollback::Progress;
use session::Sessions;
use std::alloc::Global;

/// Appends the bytes of a progress.
fn encode_progress<H: Portable>(
    handler: &H,
    progress: &Progress<H::State>,
    out: &mut Vec<u8>,
) -> Result<(), NoMemory>
    ensures code { IfOk result (λ _. Encodes (progress_code H.state_code) progress.now out.old.items out.new.items) }
    ensures fits { IfOk result (λ _. FitsProgress H.state_fits progress.now) }
{
    handler.write_state(&progress.state, out)?;
    progress.sessions.encode(out)
}

/// Takes the bytes of a progress off the input.
fn decode_progress<H: Portable>(
    handler: &H,
    alloc: Global,
    input: &mut Input,
) -> Result<Progress<H::State>, DecodeFault>
    ensures ok { IfOk result (λ p.
        Decodes (progress_code H.state_code) (FitsProgress H.state_fits) input.old p input.new) }
    ensures err { IfErr result (λ e.
        Unless (progress_code H.state_code) (FitsProgress H.state_fits) input.old (e ≡ FaultOf.NoMemory)) }
{
    let state = handler.read_state(alloc, input)?;
    let sessions = Sessions::decode(alloc, input)?;
    Ok(Progress { state, sessions })
}

/// Appends the bytes of the progress of a unit that may be down.
pub(crate) fn encode_some<H: Portable>(
    handler: &H,
    progress: Option<&Progress<H::State>>,
    out: &mut Vec<u8>,
) -> Result<(), NoMemory>
    ensures code { IfOk result (λ _. Encodes (option_code (progress_code H.state_code)) (option_copied progress.entry)
        out.old.items out.new.items) }
    ensures fits { IfOk result (λ _. FitsSome (FitsProgress H.state_fits) (option_copied progress.entry)) }
{
    match progress {
        None => 0u8.encode(out),
        Some(progress) => {
            1u8.encode(out)?;
            encode_progress(handler, progress, out)
        }
    }
}

/// Takes the bytes of the progress of a unit that may be down off the input.
pub(crate) fn decode_some<H: Portable>(
    handler: &H,
    alloc: Global,
    input: &mut Input,
) -> Result<Option<Progress<H::State>>, DecodeFault>
    ensures ok { IfOk result (λ p. Decodes (option_code (progress_code H.state_code))
        (FitsSome (FitsProgress H.state_fits)) input.old p input.new) }
    ensures err { IfErr result (λ e. Unless (option_code (progress_code H.state_code))
        (FitsSome (FitsProgress H.state_fits)) input.old (e ≡ FaultOf.NoMemory)) }
{
    match u8::decode(alloc, input)? {
        0 => Ok(None),
        1 => {
            let progress = decode_progress(handler, alloc, input)?;
            Ok(Some(progress))
        }
        _ => Err(DecodeFault::Damaged),
    }
}

/// Appends the bytes of a snapshot.
fn encode_snapshot<H: Portable>(
    handler: &H,
    snapshot: &Snapshot<Progress<H::State>>,
    out: &mut Vec<u8>,
) -> Result<(), NoMemory>
    ensures code { IfOk result (λ _. Encodes (snapshot_code H.state_code) snapshot.now out.old.items out.new.items) }
    ensures fits { IfOk result (λ _. FitsSnapshot H.state_fits snapshot.now) }
{
    snapshot.index.encode(out)?;
    encode_progress(handler, &snapshot.state, out)
}

/// Takes the bytes of a snapshot off the input.
fn decode_snapshot<H: Portable>(
    handler: &H,
    alloc: Global,
    input: &mut Input,
) -> Result<Snapshot<Progress<H::State>>, DecodeFault>
    ensures ok { IfOk result (λ s.
        Decodes (snapshot_code H.state_code) (FitsSnapshot H.state_fits) input.old s input.new) }
    ensures err { IfErr result (λ e.
        Unless (snapshot_code H.state_code) (FitsSnapshot H.state_fits) input.old (e ≡ FaultOf.NoMemory)) }
{
    let index = u32::decode(alloc, input)?;
    let state = decode_progress(handler, alloc, input)?;
    Ok(Snapshot { index, state })
}

/// Appends the bytes of each snapshot.
fn encode_each_snapshot<H: Portable>(
    handler: &H,
    snapshots: &[Snapshot<Progress<H::State>>],
    out: &mut Vec<u8>,
) -> Result<(), NoMemory>
    ensures code { IfOk result (λ _.
        Encodes (each_code (snapshot_code H.state_code)) snapshots.now out.old.items out.new.items) }
    ensures fits { IfOk result (λ _. AllFit (FitsSnapshot H.state_fits) snapshots.now) }
{
    for snapshot in snapshots {
        encode_snapshot(handler, snapshot, out)?;
    }
    Ok(())
}

/// Takes the bytes of a snapshot off the input, and adds it at the end.
fn decode_onto<H: Portable>(
    handler: &H,
    alloc: Global,
    input: &mut Input,
    snapshots: &mut Vec<Snapshot<Progress<H::State>>>,
) -> Result<(), DecodeFault>
    ensures ok { IfOk result (λ _. DecodesOnto (snapshot_code H.state_code) (FitsSnapshot H.state_fits)
        input.old snapshots.old.items snapshots.new.items input.new) }
    ensures err { IfErr result (λ e.
        Unless (snapshot_code H.state_code) (FitsSnapshot H.state_fits) input.old (e ≡ FaultOf.NoMemory)) }
{
    let snapshot = decode_snapshot(handler, alloc, input)?;
    put(snapshots, snapshot)?;
    Ok(())
}

/// Takes the bytes of so many snapshots off the input, and adds them at the end.
fn decode_all_onto<H: Portable>(
    handler: &H,
    alloc: Global,
    input: &mut Input,
    count: usize,
    snapshots: &mut Vec<Snapshot<Progress<H::State>>>,
) -> Result<(), DecodeFault>
    requires { snapshots.old.items ≡ [] }
    ensures ok { IfOk result (λ _. DecodesEach (snapshot_code H.state_code) (FitsSnapshot H.state_fits) count
        input.old snapshots.new.items input.new) }
    ensures err { IfErr result (λ e. UnlessEach (snapshot_code H.state_code) (FitsSnapshot H.state_fits) count
        input.old (e ≡ FaultOf.NoMemory)) }
{
    for _ in 0..count {
        decode_onto(handler, alloc, input, snapshots)?;
    }
    Ok(())
}

/// Takes the bytes of so many snapshots off the input.
fn decode_each_snapshot<H: Portable>(
    handler: &H,
    alloc: Global,
    input: &mut Input,
    count: usize,
) -> Result<Vec<Snapshot<Progress<H::State>>>, DecodeFault>
    ensures ok { IfOk result (λ xs. DecodesEach (snapshot_code H.state_code) (FitsSnapshot H.state_fits) count
        input.old xs.items input.new) }
    ensures err { IfErr result (λ e. UnlessEach (snapshot_code H.state_code) (FitsSnapshot H.state_fits) count
        input.old (e ≡ FaultOf.NoMemory)) }
{
    let mut snapshots = Vec::new(alloc);
    decode_all_onto(handler, alloc, input, count, &mut snapshots)?;
    Ok(snapshots)
}

/// Appends the bytes of the base of a shelf.
fn encode_base<H: Portable>(
    handler: &H,
    base: Option<&Snapshot<Progress<H::State>>>,
    out: &mut Vec<u8>,
) -> Result<(), NoMemory>
    ensures code { IfOk result (λ _. Encodes (option_code (snapshot_code H.state_code)) (option_copied base.entry)
        out.old.items out.new.items) }
    ensures fits { IfOk result (λ _. FitsSome (FitsSnapshot H.state_fits) (option_copied base.entry)) }
{
    match base {
        None => 0u8.encode(out),
        Some(snapshot) => {
            1u8.encode(out)?;
            encode_snapshot(handler, snapshot, out)
        }
    }
}

/// Takes the bytes of the base of a shelf off the input.
fn decode_base<H: Portable>(
    handler: &H,
    alloc: Global,
    input: &mut Input,
) -> Result<Option<Snapshot<Progress<H::State>>>, DecodeFault>
    ensures ok { IfOk result (λ s. Decodes (option_code (snapshot_code H.state_code))
        (FitsSome (FitsSnapshot H.state_fits)) input.old s input.new) }
    ensures err { IfErr result (λ e. Unless (option_code (snapshot_code H.state_code))
        (FitsSome (FitsSnapshot H.state_fits)) input.old (e ≡ FaultOf.NoMemory)) }
{
    match u8::decode(alloc, input)? {
        0 => Ok(None),
        1 => {
            let snapshot = decode_snapshot(handler, alloc, input)?;
            Ok(Some(snapshot))
        }
        _ => Err(DecodeFault::Damaged),
    }
}

/// Appends the bytes of a shelf.
pub(crate) fn encode_shelf<H: Portable>(
    handler: &H,
    shelf: &Shelf<Progress<H::State>>,
    out: &mut Vec<u8>,
) -> Result<(), NoMemory>
    ensures code { IfOk result (λ _. Encodes (shelf_code H.state_code) shelf.now out.old.items out.new.items) }
    ensures fits { IfOk result (λ _. FitsShelf H.state_fits shelf.now) }
{
    encode_base(handler, shelf.base(), out)?;
    let others = shelf.others();
    others.len().encode(out)?;
    encode_each_snapshot(handler, others, out)
}

/// Takes the bytes of a shelf off the input.
pub(crate) fn decode_shelf<H: Portable>(
    handler: &H,
    alloc: Global,
    input: &mut Input,
) -> Result<Shelf<Progress<H::State>>, DecodeFault>
    ensures ok { IfOk result (λ s. Decodes (shelf_code H.state_code) (FitsShelf H.state_fits) input.old s input.new) }
    ensures err { IfErr result (λ e.
        Unless (shelf_code H.state_code) (FitsShelf H.state_fits) input.old (e ≡ FaultOf.NoMemory)) }
{
    let base = decode_base(handler, alloc, input)?;
    let count = usize::decode(alloc, input)?;
    let others = decode_each_snapshot(handler, alloc, input, count)?;
    match Shelf::of(base, others) {
        Some(shelf) => Ok(shelf),
        None => Err(DecodeFault::Damaged),
    }
}
