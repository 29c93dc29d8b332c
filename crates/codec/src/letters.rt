//! The letters of a tenant.

ghost use Rattle.std.specs.Prelude.{◌≡◌, ◌≤◌, ◌++◌, ℕ, IfErr, IfOk, List, drop, length};
ghost use Rattle.codec.specs.Codes.{AllFit, Decodes, Encodes, FitEach, Unless, UnlessEach, each_code};
ghost use Rattle.codec.specs.Layers.{content_code, letter_code, letters_code, FitsContent, FitsLetter};
ghost use Rattle.compact.specs.Compact.{CompactLetter as LetterOf};
ghost use Rattle.unit_steps.specs.SentLetters.{front as front_of};
ghost use Rattle.codec.specs.declared.fault.DecodeFault.{DecodeFault as FaultOf};

use crate::coded::Coded;
use crate::fault::DecodeFault;
use crate::input::Input;
use crate::spent::{decode_spent, encode_spent};
use depvector::SharedVector;
use model::{NoMemory, Text, Unit};
use spent_letters::SpentLetters;
use std::alloc::Global;
use unit_steps::{Content, LetterRef, SentLetter, SentLetters};

impl Coded for Content {
    ghost code = { content_code };

    ghost fits = { FitsContent };

    fn encode(&self, out: &mut Vec<u8>) -> Result<(), NoMemory> {
        self.number().encode(out)?;
        self.text().encode(out)?;
        self.vector().encode(out)
    }

    fn decode(alloc: Global, input: &mut Input) -> Result<Content, DecodeFault> {
        let number = u64::decode(alloc, input)?;
        let text = Text::decode(alloc, input)?;
        let vector = SharedVector::decode(alloc, input)?;
        let content = Content::new(alloc, number, text, vector)?;
        Ok(content)
    }
}

/// Appends the bytes of a letter.
fn encode_letter(letter: &LetterRef<'_>, out: &mut Vec<u8>) -> Result<(), NoMemory>
    ensures code { IfOk result (λ _. Encodes letter_code letter.now out.old.items out.new.items) }
    ensures fits { IfOk result (λ _. FitsLetter letter.now) }
{
    letter.source.encode(out)?;
    letter.receiver.encode(out)?;
    match letter.content {
        None => {
            out.push(0)?;
            Ok(())
        }
        Some(content) => {
            out.push(1)?;
            content.encode(out)
        }
    }
}

/// Takes the bytes of a letter off the input.
fn decode_letter(alloc: Global, input: &mut Input) -> Result<SentLetter, DecodeFault>
    ensures ok { IfOk result (λ l. Decodes letter_code FitsLetter input.old l input.new) }
    ensures err { IfErr result (λ e. Unless letter_code FitsLetter input.old (e ≡ FaultOf.NoMemory)) }
{
    let source = Unit::decode(alloc, input)?;
    let receiver = Unit::decode(alloc, input)?;
    let content = Option::<Content>::decode(alloc, input)?;
    Ok(SentLetter {
        source,
        receiver,
        content,
    })
}

/// Appends the bytes of each letter from this number on.
fn encode_each(letters: &SentLetters, from: usize, out: &mut Vec<u8>) -> Result<(), NoMemory>
    requires { from ≤ length letters.now.items }
    ensures code { IfOk result (λ _.
        Encodes (each_code letter_code) (drop from letters.now.items) out.old.items out.new.items) }
    ensures fits { IfOk result (λ _. AllFit FitsLetter (drop from letters.now.items)) }
{
    for number in from..letters.len() {
        let letter = letters.at(number);
        encode_letter(&letter, out)?;
    }
    Ok(())
}

/// Appends the bytes of letters, of which these are at the front and have no content.
#[tactic(auto, using(crate::proofs::Fronts::all_fit))]
fn encode_parts(
    front: &SpentLetters,
    letters: &SentLetters,
    out: &mut Vec<u8>,
) -> Result<(), NoMemory>
    requires { front.now ≡ front_of letters.now.items }
    ensures code { IfOk result (λ _. Encodes letters_code letters.now.items out.old.items out.new.items) }
    ensures fits { IfOk result (λ _. FitEach FitsLetter letters.now.items) }
{
    encode_spent(front, out)?;
    (letters.len() - front.len()).encode(out)?;
    encode_each(letters, front.len(), out)
}

/// Appends the bytes of letters: those at the front whose contents are forgotten, packed, how many others there are,
/// and each of these. One of these whose content is forgotten takes three bytes.
pub fn encode_letters(letters: &SentLetters, out: &mut Vec<u8>) -> Result<(), NoMemory>
    ensures code { IfOk result (λ _. Encodes letters_code letters.now.items out.old.items out.new.items) }
    ensures fits { IfOk result (λ _. FitEach FitsLetter letters.now.items) }
{
    match letters.packed_front() {
        Some(front) => encode_parts(front, letters, out),
        None => encode_packed(letters, out),
    }
}

/// The same of letters of which some at the front had no memory to be packed.
fn encode_packed(letters: &SentLetters, out: &mut Vec<u8>) -> Result<(), NoMemory>
    ensures code { IfOk result (λ _. Encodes letters_code letters.now.items out.old.items out.new.items) }
    ensures fits { IfOk result (λ _. FitEach FitsLetter letters.now.items) }
{
    let front = letters.pack_front(*out.allocator())?;
    encode_parts(&front, letters, out)
}

/// Takes the bytes of so many letters off the input, and adds them.
fn decode_each(
    alloc: Global,
    input: &mut Input,
    count: usize,
    letters: &mut SentLetters,
) -> Result<(), DecodeFault>
    ensures ok { IfOk result (λ _. (vs : List LetterOf) (rest : List ℕ) → length vs ≡ count → AllFit FitsLetter vs
        → input.old ≡ each_code letter_code vs rest
        → (letters.new.items ≡ letters.old.items ++ vs) × (rest ≡ input.new)) }
    ensures err { IfErr result (λ e. UnlessEach letter_code FitsLetter count input.old (e ≡ FaultOf.NoMemory)) }
{
    for _ in 0..count {
        let letter = decode_letter(alloc, input)?;
        letters.push(letter)?;
    }
    Ok(())
}

/// Takes the bytes of letters off the input: those at the front whose contents are forgotten, how many others there
/// are, and each of these.
pub fn decode_letters(alloc: Global, input: &mut Input) -> Result<SentLetters, DecodeFault>
    ensures ok { IfOk result (λ s. Decodes letters_code (FitEach FitsLetter) input.old s.items input.new) }
    ensures err { IfErr result (λ e. Unless letters_code (FitEach FitsLetter) input.old (e ≡ FaultOf.NoMemory)) }
{
    let front = decode_spent(alloc, input)?;
    let count = usize::decode(alloc, input)?;
    let mut letters = SentLetters::of(alloc, front);
    decode_each(alloc, input, count, &mut letters)?;
    Ok(letters)
}
