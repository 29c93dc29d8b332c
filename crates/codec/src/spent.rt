//! Letters whose contents are forgotten.

ghost use Rattle.std.specs.Prelude.{◌≡◌, ◌++◌, [], ℕ, IfErr, IfOk, List, length, reverse, true};
ghost use Rattle.codec.specs.Codes.{AllFit, Decodes, Encodes, FitEach, Unless, each_code, list_code};
ghost use Rattle.codec.specs.Layers.{packed_code, spent_code, stretch_code, FitParts, FitsPacked, FitsSpent};
ghost use Rattle.codec.specs.Layers.{FitsStretch};
ghost use Rattle.codec.specs.declared.fault.DecodeFault.{DecodeFault as FaultOf};
ghost use Rattle.spent_letters.specs.Stretches.{follows, grown, letters_in, packed, AreWhole, Stretch as StretchOf};

use crate::coded::Coded;
use crate::containers::{decode_list, encode_list};
use crate::fault::DecodeFault;
use crate::input::Input;
use model::{NoMemory, Unit};
use spent_letters::{SpentLetter, SpentLetters, Stretch};
use std::alloc::Global;

impl Coded for SpentLetter {
    ghost code = { spent_code };

    ghost fits = { FitsSpent };

    fn encode(&self, out: &mut Vec<u8>) -> Result<(), NoMemory> {
        self.source.encode(out)?;
        self.receiver.encode(out)
    }

    fn decode(alloc: Global, input: &mut Input) -> Result<SpentLetter, DecodeFault> {
        let source = Unit::decode(alloc, input)?;
        let receiver = Unit::decode(alloc, input)?;
        Ok(SpentLetter { source, receiver })
    }
}

/// Appends the bytes of a stretch.
fn encode_stretch(stretch: &Stretch, out: &mut Vec<u8>) -> Result<(), NoMemory>
    ensures code { IfOk result (λ _. Encodes stretch_code stretch.now out.old.items out.new.items) }
    ensures fits { IfOk result (λ _. FitsStretch stretch.now) }
{
    encode_list(stretch.head(), out)?;
    stretch.more().encode(out)
}

/// Appends the bytes of each stretch.
fn encode_each(stretches: &[Stretch], out: &mut Vec<u8>) -> Result<(), NoMemory>
    ensures code { IfOk result (λ _. Encodes (each_code stretch_code) stretches.now out.old.items out.new.items) }
    ensures fits { IfOk result (λ _. AllFit FitsStretch stretches.now) }
{
    for number in 0..stretches.len() {
        encode_stretch(&stretches[number], out)?;
    }
    Ok(())
}

/// Appends the bytes of stretches: how many there are, and each.
fn encode_stretches(stretches: &[Stretch], out: &mut Vec<u8>) -> Result<(), NoMemory>
    ensures code { IfOk result (λ _. Encodes (list_code stretch_code) stretches.now out.old.items out.new.items) }
    ensures fits { IfOk result (λ _. FitEach FitsStretch stretches.now) }
{
    stretches.len().encode(out)?;
    encode_each(stretches, out)
}

/// Appends the bytes of letters whose contents are forgotten: their stretches, and the letters behind these.
pub(crate) fn encode_spent(letters: &SpentLetters, out: &mut Vec<u8>) -> Result<(), NoMemory>
    ensures code { IfOk result (λ _. Encodes packed_code (packed letters.now) out.old.items out.new.items) }
    ensures fits { IfOk result (λ _. FitParts (packed letters.now)) }
{
    encode_stretches(letters.stretches(), out)?;
    encode_list(letters.tail(), out)
}

/// Takes the bytes of a stretch off the input, and adds it.
fn decode_stretch(
    alloc: Global,
    input: &mut Input,
    letters: &mut SpentLetters,
) -> Result<(), DecodeFault>
    ensures ok { IfOk result (λ _. (s : StretchOf) (rest : List ℕ) → FitsStretch s
        → follows (packed letters.old) s.head ≡ true → input.old ≡ stretch_code s rest
        → (letters.new ≡ letters.old ++ grown s.head s.more) × (rest ≡ input.new)) }
    ensures err { IfErr result (λ e. (s : StretchOf) (rest : List ℕ) → FitsStretch s
        → follows (packed letters.old) s.head ≡ true → input.old ≡ stretch_code s rest → e ≡ FaultOf.NoMemory) }
{
    let head = decode_list::<SpentLetter>(alloc, input)?;
    let more = usize::decode(alloc, input)?;
    if !letters.push_stretch(head, more)? {
        return Err(DecodeFault::Damaged);
    }
    Ok(())
}

/// Takes the bytes of so many stretches off the input, and adds them.
fn decode_each(
    alloc: Global,
    input: &mut Input,
    count: usize,
    letters: &mut SpentLetters,
) -> Result<(), DecodeFault>
    requires { letters.old ≡ [] }
    ensures ok { IfOk result (λ _. (vs : List StretchOf) (rest : List ℕ) → length vs ≡ count → AreWhole (reverse vs)
        → AllFit FitsStretch vs → input.old ≡ each_code stretch_code vs rest
        → (letters.new ≡ letters_in (reverse vs)) × (rest ≡ input.new)) }
    ensures err { IfErr result (λ e. (vs : List StretchOf) (rest : List ℕ) → length vs ≡ count → AreWhole (reverse vs)
        → AllFit FitsStretch vs → input.old ≡ each_code stretch_code vs rest → e ≡ FaultOf.NoMemory) }
{
    for _ in 0..count {
        decode_stretch(alloc, input, letters)?;
    }
    Ok(())
}

/// Adds each of these letters.
fn push_each(letters: &mut SpentLetters, more: &[SpentLetter]) -> Result<(), NoMemory>
    ensures { IfOk result (λ _. letters.new ≡ letters.old ++ more.now) }
{
    for letter in more {
        letters.push(*letter)?;
    }
    Ok(())
}

/// Takes the bytes of letters whose contents are forgotten off the input: their stretches, and the letters behind
/// these.
pub(crate) fn decode_spent(alloc: Global, input: &mut Input) -> Result<SpentLetters, DecodeFault>
    ensures ok { IfOk result (λ s. Decodes packed_code FitsPacked input.old (packed s) input.new) }
    ensures err { IfErr result (λ e. Unless packed_code FitsPacked input.old (e ≡ FaultOf.NoMemory)) }
{
    let mut letters = SpentLetters::new(alloc);
    let count = usize::decode(alloc, input)?;
    decode_each(alloc, input, count, &mut letters)?;
    let tail = decode_list::<SpentLetter>(alloc, input)?;
    push_each(&mut letters, tail.as_slice())?;
    Ok(letters)
}
