//! The answers of all shards, written in the order of the lines.

ghost use Rattle.std.specs.Prelude.{◌≡◌, ◌≢◌, ◌<◌, ◌≤◌, ◌∷◌, ℕ, List, All, OnOk, OnErr, Err, IfErr, IfOk, flat_map};
ghost use Rattle.std.specs.Prelude.{length, replicate, slice_index_or};
ghost use Rattle.std.specs.Io.KnownBytes.{Appends};
ghost use Rattle.model.specs.Failures.{HasRisen};
ghost use Rattle.written.specs.Beginnings.{AppendsBeginning};
ghost use Rattle.shards.specs.Blocks.{IsBelow, Told, WroteFirst, WroteOne, first_of, merged, whole};

use crate::faults::FaultLines;
use crate::place::Place;
use crate::shard::Shard;
use handler::Handler;
use lines::{Counted, ServeFault, put_bytes};
use memchr::memchr;
use shared_log::Store;
use std::alloc::Global;
use std::io::Write;

/// How far the answers of a shard are written: the place in its bytes, and in its lengths.
#[derive(Clone, Copy, Drop)]
pub(crate) struct Cursor {
    pub at: usize,
    pub next: usize,
}

/// Writes the answers of a block, each from the shard that its place names, in turn.
///
/// `Write` comes only where the writer failed, and `NoMemory` where there was none for an answer.
pub(crate) fn write_all<W: Write, H: Handler, S: Store>(
    alloc: Global,
    writer: &mut Counted<W>,
    shards: &[Shard<H, S>],
    places: &[Place],
    faults: &FaultLines,
) -> Result<(), ServeFault>
    requires told { (answers : ℕ → List (List ℕ)) × ((i : ℕ) (d : _) → i < length shards.now
        → Told (answers i) (slice_index_or shards.now i d).bytes.items (slice_index_or shards.now i d).lens.items 0 0) }
    requires below { All (IsBelow (length shards.now)) places.now }
    ensures ok { OnOk result ((answers : ℕ → List (List ℕ)) → ((i : ℕ) (d : _) → i < length shards.now
        → Told (answers i) (slice_index_or shards.now i d).bytes.items (slice_index_or shards.now i d).lens.items 0 0)
        → Appends (W.contents writer.old.inner) (W.contents writer.new.inner)
        (flat_map whole (merged places.now answers))) }
    ensures err { OnErr result ((answers : ℕ → List (List ℕ)) → ((i : ℕ) (d : _) → i < length shards.now
        → Told (answers i) (slice_index_or shards.now i d).bytes.items (slice_index_or shards.now i d).lens.items 0 0)
        → AppendsBeginning (W.contents writer.old.inner) (W.contents writer.new.inner)
        (flat_map whole (merged places.now answers))) }
    ensures write { result ≡ Err ServeFault.Write → HasRisen writer.old.failed writer.new.failed }
    ensures read { result ≢ Err ServeFault.Read }
    ensures same { result ≢ Err ServeFault.Write → writer.new.failed ≡ writer.old.failed }
{
    let Ok(mut made) = beginnings(alloc, shards.len()) else {
        return Err(ServeFault::NoMemory);
    };
    let cursors = made.as_mut_slice();
    for place in places {
        match write_one(writer, shards, *place, cursors, faults) {
            Ok(()) => {}
            Err(fault) => return Err(fault),
        }
    }
    Ok(())
}

/// Writes the answer of one place.
fn write_one<W: Write, H: Handler, S: Store>(
    writer: &mut Counted<W>,
    shards: &[Shard<H, S>],
    place: Place,
    cursors: &mut [Cursor],
    faults: &FaultLines,
) -> Result<(), ServeFault>
    requires told { (left : ℕ → List (List ℕ)) × ((i : ℕ) (d : _) (e : _) → i < length shards.now
        → Told (left i) (slice_index_or shards.now i d).bytes.items (slice_index_or shards.now i d).lens.items
        (slice_index_or cursors.old i e).at (slice_index_or cursors.old i e).next) }
    requires below { IsBelow (length shards.now) place }
    requires cursors { length cursors.old ≡ length shards.now }
    ensures ok { OnOk result ((left : ℕ → List (List ℕ)) → ((i : ℕ) (d : _) (e : _) → i < length shards.now
        → Told (left i) (slice_index_or shards.now i d).bytes.items (slice_index_or shards.now i d).lens.items
        (slice_index_or cursors.old i e).at (slice_index_or cursors.old i e).next)
        → WroteOne (W.contents writer.old.inner)
        (W.contents writer.new.inner) place left (λ left. (i : ℕ) (d : _) (e : _) → i < length shards.now
        → Told (left i) (slice_index_or shards.now i d).bytes.items (slice_index_or shards.now i d).lens.items
        (slice_index_or cursors.new i e).at (slice_index_or cursors.new i e).next)) }
    ensures err { OnErr result ((left : ℕ → List (List ℕ)) (places : List _) → ((i : ℕ) (d : _) (e : _)
        → i < length shards.now
        → Told (left i) (slice_index_or shards.now i d).bytes.items (slice_index_or shards.now i d).lens.items
        (slice_index_or cursors.old i e).at (slice_index_or cursors.old i e).next)
        → AppendsBeginning (W.contents writer.old.inner) (W.contents writer.new.inner)
        (flat_map whole (merged (place ∷ places) left))) }
    ensures write { result ≡ Err ServeFault.Write → HasRisen writer.old.failed writer.new.failed }
    ensures read { result ≢ Err ServeFault.Read }
    ensures same { result ≢ Err ServeFault.Write → writer.new.failed ≡ writer.old.failed }
{
    match place {
        Place::Here(fault) => put_bytes(writer, faults.of(fault)),
        Place::Dealt(shard) => {
            let from = &shards[shard];
            put_next(
                writer,
                from.bytes.as_slice(),
                from.lens.as_slice(),
                &mut cursors[shard],
            )
        }
    }
}

/// So many cursors, each at the beginning.
fn beginnings(alloc: Global, count: usize) -> Result<Vec<Cursor>, ServeFault>
    ensures { IfOk result (λ cursors. cursors.items ≡ replicate count (record { at = 0; next = 0 })) }
{
    match vec![in alloc; Cursor { at: 0, next: 0 }; count] {
        Ok(cursors) => Ok(cursors),
        Err(_) => Err(ServeFault::NoMemory),
    }
}

/// Writes the next answer of a shard. `NoMemory` comes where there is none, since there was no memory for it.
fn put_next<W: Write>(
    writer: &mut Counted<W>,
    bytes: &[u8],
    lens: &[usize],
    cursor: &mut Cursor,
) -> Result<(), ServeFault>
    requires { (answers : List (List ℕ)) × Told answers bytes.now lens.now cursor.old.at cursor.old.next }
    ensures ok { OnOk result ((answers : List (List ℕ)) → Told answers bytes.now lens.now cursor.old.at cursor.old.next
        → WroteFirst (W.contents writer.old.inner)
        (W.contents writer.new.inner) answers bytes.now lens.now cursor.new.at cursor.new.next) }
    ensures err { OnErr result ((answers : List (List ℕ))
        → Told answers bytes.now lens.now cursor.old.at cursor.old.next
        → AppendsBeginning (W.contents writer.old.inner)
        (W.contents writer.new.inner) (first_of answers)) }
    ensures write { result ≡ Err ServeFault.Write → HasRisen writer.old.failed writer.new.failed }
    ensures read { result ≢ Err ServeFault.Read }
    ensures same { result ≢ Err ServeFault.Write → writer.new.failed ≡ writer.old.failed }
{
    let at = cursor.at;
    let next = cursor.next;
    if next >= lens.len() {
        return Err(ServeFault::NoMemory);
    }
    let end = at + lens[next];
    cursor.at = end;
    cursor.next = next + 1;
    put_lines(writer, &bytes[at..end])
}

/// Where the line that begins at a place ends, behind its line feed.
fn line_end(bytes: &[u8], at: usize) -> usize
    requires { at < length bytes.now }
    ensures above { at < result }
    ensures within { result ≤ length bytes.now }
{
    match memchr(b'\n', &bytes[at..]) {
        Some(place) => at + place + 1,
        None => bytes.len(),
    }
}

/// Writes these bytes, each line in one piece: whoever counts lines, or lets some of them not through, is behind the
/// writer. `Write` comes only where the writer failed; a beginning of them may be written then.
fn put_lines<W: Write>(writer: &mut Counted<W>, bytes: &[u8]) -> Result<(), ServeFault>
    ensures ok { OnOk result (Appends (W.contents writer.old.inner) (W.contents writer.new.inner) bytes.now) }
    ensures err { OnErr result
        (AppendsBeginning (W.contents writer.old.inner) (W.contents writer.new.inner) bytes.now) }
    ensures fault { IfErr result (λ e. (e ≡ ServeFault.Write) × HasRisen writer.old.failed writer.new.failed) }
    ensures same { OnOk result (writer.new.failed ≡ writer.old.failed) }
{
    let mut at = 0;
    while at < bytes.len() {
        let end = line_end(bytes, at);
        match put_bytes(writer, &bytes[at..end]) {
            Ok(()) => {}
            Err(fault) => return Err(fault),
        }
        at = end;
    }
    Ok(())
}
