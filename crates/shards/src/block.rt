//! The block of lines that waits to be answered.

ghost use Rattle.std.specs.Prelude.{◌≡◌, ◌<◌, ◌≤◌, ◌+◌, ◌^◌, ◌⊎◌, ◌++◌, ◌∷◌, [], ℕ, List, Bool, Option, Result, IfOk};
ghost use Rattle.std.specs.Prelude.{IfErr, OnOk, OnErr, Ok, Err, length, true, false, vec_capacity};
ghost use Rattle.std.specs.Io.KnownBytes.{IsAtEnd, Keeps};
ghost use Rattle.model.specs.Failures.{HasRisen};
ghost use Rattle.forms.specs.declared.fault.LineFault.{LineFault as FaultOf};
ghost use Rattle.shards.specs.Kept.{IsKept};
ghost use Rattle.shards.specs.Underway.{ReadSoFar, TakesOn};

use crate::kept::{Lines, MOST_LINES};
use lines::{Counted, LineRead, Part, ServeFault, fill, heard_at_end};
use model::{MAX_LINE_BYTES, NoMemory};
use std::alloc::Global;
use std::io::BufRead;

/// What is held of the line that is being read, and the lines before it that weren't answered yet.
#[derive(Drop)]
pub(crate) struct Block {
    pub held: Vec<u8>,
    pub is_long: bool,
    pub lines: Lines,
    pub count: u64,
    pub ahead: bool,
}

impl Block {
    /// A block without lines. `NoMemory` comes where there is none for its buffers.
    pub(crate) fn new(alloc: Global) -> Result<Block, NoMemory>
        ensures held { IfOk result (λ b. b.held.items ≡ []) }
        ensures room { IfOk result (λ b. MAX_LINE_BYTES ≤ vec_capacity b.held) }
        ensures short { IfOk result (λ b. b.is_long ≡ false) }
        ensures lines { IfOk result (λ b. b.lines ≡ []) }
        ensures count { IfOk result (λ b. b.count ≡ 0) }
    {
        let held = Vec::with_capacity(alloc, MAX_LINE_BYTES)?;
        Ok(Block {
            held,
            is_long: false,
            lines: Lines::new(alloc)?,
            count: 0,
            ahead: false,
        })
    }
}

/// Adds the line that is held.
fn add_line(block: &mut Block)
    requires room { length block.old.lines < MOST_LINES }
    requires few { block.old.count + 1 < 2 ^ 64 }
    ensures added { (kept : Result (List ℕ) FaultOf) × IsKept block.old.is_long block.old.held.items kept
        × (block.new.lines ≡ block.old.lines ++ kept ∷ []) }
    ensures held { block.new.held.items ≡ [] }
    ensures capacity { vec_capacity block.new.held ≡ vec_capacity block.old.held }
    ensures short { block.new.is_long ≡ false }
    ensures count { block.new.count ≡ block.old.count + 1 }
{
    block.lines.add(block.held.as_slice(), block.is_long);
    block.held.clear();
    block.is_long = false;
    block.count += 1;
}

/// Takes a part that was read of a line, and tells whether there was an end in place of it. A line that has ended is
/// added.
fn take_read(part: Part, block: &mut Block) -> bool
    requires room { length block.old.lines < MOST_LINES }
    requires few { block.old.count + 1 < 2 ^ 64 }
    ensures takes { TakesOn part
        (record {
          held = block.old.held.items;
          is_long = block.old.is_long;
          lines = block.old.lines;
          count = block.old.count;
        })
        (record {
          held = block.new.held.items;
          is_long = block.new.is_long;
          lines = block.new.lines;
          count = block.new.count;
        }) }
    ensures end { result ≡ true → (part ≡ Part.AtEnd) × (block.new.held.items ≡ []) × (block.new.is_long ≡ false) }
    ensures capacity { vec_capacity block.new.held ≡ vec_capacity block.old.held }
    ensures count { block.new.count ≤ block.old.count + 1 }
{
    match part {
        Part::More => {
            block.ahead = false;
            false
        }
        Part::Ended(more) => {
            block.ahead = more;
            add_line(block);
            false
        }
        Part::AtEnd => {
            match heard_at_end(block.held.as_slice(), block.is_long) {
                LineRead::End => {}
                _ => add_line(block),
            }
            true
        }
    }
}

/// Takes what the reader shows of the next line, and tells whether there was an end in place of it. A line that has
/// ended is added.
///
/// `Read` comes only where the reader failed.
pub(crate) fn take_part<R: BufRead>(
    reader: &mut Counted<R>,
    block: &mut Block,
) -> Result<bool, ServeFault>
    requires room { length block.old.lines < MOST_LINES }
    requires held { MAX_LINE_BYTES ≤ vec_capacity block.old.held }
    requires within { block.old.count + reader.old.left < 2 ^ 64 }
    ensures ok { OnOk result ((begin : Option (List ℕ)) (answered : List (List ℕ))
        → ReadSoFar begin (R.remaining reader.old.inner) answered
        (record {
          held = block.old.held.items;
          is_long = block.old.is_long;
          lines = block.old.lines;
          count = block.old.count;
        })
        → ReadSoFar begin (R.remaining reader.new.inner) answered
        (record {
          held = block.new.held.items;
          is_long = block.new.is_long;
          lines = block.new.lines;
          count = block.new.count;
        })) }
    ensures kept { OnErr result (Keeps (R.remaining reader.old.inner) (R.remaining reader.new.inner)) }
    ensures err { OnErr result (block.new.lines ≡ block.old.lines) }
    ensures end { result ≡ Ok true → IsAtEnd (R.remaining reader.old.inner)
        × Keeps (R.remaining reader.old.inner) (R.remaining reader.new.inner)
        × (block.new.held.items ≡ []) × (block.new.is_long ≡ false) }
    ensures held { MAX_LINE_BYTES ≤ vec_capacity block.new.held }
    ensures within { OnOk result (block.new.count + reader.new.left < 2 ^ 64) }
    ensures fewer { OnOk result (reader.new.left < reader.old.left) }
    ensures fault { IfErr result (λ e. (e ≡ ServeFault.Read) × HasRisen reader.old.failed reader.new.failed) }
    ensures same { OnOk result (reader.new.failed ≡ reader.old.failed) }
{
    match fill(reader, &mut block.held, &mut block.is_long) {
        Ok(part) => Ok(take_read(part, block)),
        Err(fault) => Err(fault),
    }
}
