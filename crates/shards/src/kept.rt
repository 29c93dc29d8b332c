//! The lines that wait to be answered.

ghost use Rattle.std.specs.Prelude.{◌≡◌, ◌<◌, ◌≤◌, ◌⊎◌, ◌++◌, ◌∷◌, [], ℕ, List, Result, IfOk, Err, false, length};
ghost use Rattle.forms.specs.declared.fault.LineFault.{LineFault as FaultOf};
ghost use Rattle.shards.specs.Kept.{IsKept, IsReadAt, StandsIn, kept_in};

use crate::span::Span;
use json::Scratch;
use lines::{LineFault, LineRead, read_heard};
use model::{AddressedStep, NoMemory};
use std::alloc::Global;
use std::marker::Model;

/// At most how many lines a block has.
pub(crate) const MOST_LINES: usize = 16_384;

/// From how many bytes on a block takes no more lines.
const MANY_BYTES: usize = 1_048_576;

/// Lines in order, at most `MOST_LINES`: their texts one behind the other, and where each stands. Contracts see the
/// text of each, or why it gives no step.
#[derive(Drop)]
pub(crate) struct Lines {
    bytes: Vec<u8>,
    spans: Vec<Span>,
}

impl Model for Lines {
    ghost use Rattle.std.specs.Prelude.{◌≤◌, ℕ, List, Result, All, length, map, vec_capacity};
    ghost use Rattle.forms.specs.declared.fault.LineFault.{LineFault};
    ghost use Rattle.shards.specs.Kept.{StandsIn, kept_in};
    ghost use Rattle.shards.specs.declared.kept.TheConstants.{MOST_LINES};

    ghost Value = { List (Result (List ℕ) LineFault) };

    ghost view = { λ l. map (kept_in l.bytes.items) l.spans.items };

    ghost invariant = { λ l. All (StandsIn (length l.bytes.items)) l.spans.items
        × (MOST_LINES ≤ vec_capacity l.spans) × (length l.spans.items ≤ MOST_LINES) };
}

impl Lines {
    /// No lines. `NoMemory` comes where there is none for the list.
    pub(crate) fn new(alloc: Global) -> Result<Lines, NoMemory>
        ensures { IfOk result (λ l. l ≡ []) }
    {
        let spans = Vec::with_capacity(alloc, MOST_LINES)?;
        Ok(Lines {
            bytes: Vec::new(alloc),
            spans,
        })
    }

    /// How many there are.
    pub(crate) fn len(&self) -> usize
        ensures count { result ≡ length self.now }
        ensures most { result ≤ MOST_LINES }
    {
        self.spans.len()
    }

    /// Whether there are so many lines or bytes that no more are to be taken.
    pub(crate) fn is_full(&self) -> bool
        ensures { result ≡ false → length self.now < MOST_LINES }
    {
        self.spans.len() >= MOST_LINES || self.bytes.len() >= MANY_BYTES
    }

    /// Adds a line, of which this is held. Where there is no memory for its text, that is told of the line.
    pub(crate) fn add(&mut self, held: &[u8], is_long: bool)
        requires { length self.old < MOST_LINES }
        ensures { (kept : Result (List ℕ) FaultOf) × IsKept is_long held.now kept × (self.new ≡ self.old ++ kept ∷ []) }
    {
        let span = keep(&mut self.bytes, held, is_long);
        self.spans.push_reserved(span);
    }

    /// What is read of the line at a place.
    pub(crate) fn read(
        &self,
        alloc: Global,
        scratch: &mut Scratch,
        at: usize,
    ) -> Result<AddressedStep, LineFault>
        requires { at < length self.now }
        ensures { IsReadAt self.now at result }
    {
        match self.spans[at] {
            Span::Text(from, to) => read_heard(
                alloc,
                scratch,
                LineRead::Line,
                &self.bytes[from..to],
            ),
            Span::Not(fault) => Err(fault),
        }
    }

    /// What is told of the line at a place where there is no memory for what is read of it.
    pub(crate) fn unread(&self, at: usize) -> LineFault
        requires { at < length self.now }
        ensures { IsReadAt self.now at (Err result) }
    {
        match self.spans[at] {
            Span::Text(_, _) => LineFault::NoMemory,
            Span::Not(fault) => fault,
        }
    }

    /// Lets all lines go.
    pub(crate) fn clear(&mut self)
        ensures { self.new ≡ [] }
    {
        self.spans.clear();
        self.bytes.clear();
    }
}

/// Adds a line's text to the bytes, and tells where it stands.
fn keep(bytes: &mut Vec<u8>, held: &[u8], is_long: bool) -> Span
    ensures grown { (more : List ℕ) × (bytes.new.items ≡ bytes.old.items ++ more) }
    ensures within { StandsIn (length bytes.new.items) result }
    ensures kept { IsKept is_long held.now (kept_in bytes.new.items result) }
{
    if is_long {
        return Span::Not(LineFault::Bad);
    }
    let from = bytes.len();
    match bytes.extend_from_slice(held) {
        Ok(()) => Span::Text(from, bytes.len()),
        Err(_) => Span::Not(LineFault::NoMemory),
    }
}
