//! Memories as bytes.

ghost use Rattle.std.specs.Prelude.{◌≡◌, ◌<◌, IfErr, IfOk, [], length, slice_index_or, slice_set};
ghost use Rattle.codec.specs.Codes.{AllFit, Decodes, DecodesEach, Encodes, Unless, UnlessEach, each_code};
ghost use Rattle.codec.specs.declared.fault.DecodeFault.{DecodeFault as FaultOf};
ghost use Rattle.riscv.specs.Memories.{zeros};
ghost use Rattle.programs.specs.Coding.{memory_code, page_code, word_code, DecodesPage};
ghost use Rattle.programs.specs.Coding.{FitsMemory, FitsPage, FitsWord};

use codec::{DecodeFault, Input, put};
use model::NoMemory;
use riscv::Memory;
use std::alloc::Global;

/// Pages of a memory.
const PAGES: usize = 64;

/// Words of a page.
const PAGE_WORDS: usize = 1024;

/// Appends the bytes of a word.
fn encode_word(word: u32, out: &mut Vec<u8>) -> Result<(), NoMemory>
    ensures code { IfOk result (λ _. Encodes word_code word out.old.items out.new.items) }
    ensures fits { IfOk result (λ _. FitsWord word) }
{
    out.extend_from_slice(&word.to_le_bytes())?;
    Ok(())
}

/// Appends the bytes of each word.
fn encode_words(words: &[u32], out: &mut Vec<u8>) -> Result<(), NoMemory>
    ensures code { IfOk result (λ _. Encodes (each_code word_code) words.now out.old.items out.new.items) }
    ensures fits { IfOk result (λ _. AllFit FitsWord words.now) }
{
    for word in words {
        encode_word(*word, out)?;
    }
    Ok(())
}

/// Appends the bytes of a page.
#[tactic(auto, using(crate::proofs::Coded::zeros_fit))]
fn encode_page(memory: &Memory, index: usize, out: &mut Vec<u8>) -> Result<(), NoMemory>
    requires { index < 64 }
    ensures code { IfOk result (λ _.
        Encodes page_code (slice_index_or memory.now index []) out.old.items out.new.items) }
    ensures fits { IfOk result (λ _. FitsPage (slice_index_or memory.now index [])) }
    ensures count { length memory.now ≡ 64 }
{
    match memory.page(index) {
        None => {
            out.push(0)?;
            Ok(())
        }
        Some(words) => {
            out.push(1)?;
            encode_words(words, out)
        }
    }
}

/// Appends the bytes of each page of a memory.
pub(crate) fn encode_memory(memory: &Memory, out: &mut Vec<u8>) -> Result<(), NoMemory>
    ensures code { IfOk result (λ _. Encodes memory_code memory.now out.old.items out.new.items) }
    ensures fits { IfOk result (λ _. FitsMemory memory.now) }
{
    for index in 0..PAGES {
        encode_page(memory, index, out)?;
    }
    Ok(())
}

/// Takes the bytes of a word off the input.
fn decode_word(input: &mut Input) -> Result<u32, DecodeFault>
    ensures ok { IfOk result (λ w. Decodes word_code FitsWord input.old w input.new) }
    ensures err { IfErr result (λ e. Unless word_code FitsWord input.old (e ≡ FaultOf.NoMemory)) }
{
    let bytes = input.bytes(4)?;
    match bytes.first_chunk::<4>() {
        Some(bytes) => Ok(u32::from_le_bytes(*bytes)),
        None => Err(DecodeFault::Cut),
    }
}

/// Takes the bytes of the words of a page off the input.
fn decode_words(alloc: Global, input: &mut Input) -> Result<Vec<u32>, DecodeFault>
    ensures ok { IfOk result (λ ws. DecodesEach word_code FitsWord 1024 input.old ws.items input.new) }
    ensures err { IfErr result (λ e. UnlessEach word_code FitsWord 1024 input.old (e ≡ FaultOf.NoMemory)) }
    ensures size { IfOk result (λ ws. length ws.items ≡ 1024) }
{
    let mut words = Vec::new(alloc);
    for _ in 0..PAGE_WORDS {
        let word = decode_word(input)?;
        put(&mut words, word)?;
    }
    Ok(words)
}

/// A memory of zeros.
fn empty(alloc: Global) -> Result<Memory, NoMemory>
    ensures { IfOk result (λ m. m ≡ zeros) }
{
    Ok(Memory::new(alloc)?)
}

/// The same memory, whose copies share its pages.
fn shared(alloc: Global, mut memory: Memory) -> Result<Memory, NoMemory>
    ensures { IfOk result (λ m. m ≡ memory) }
{
    memory.share(alloc)?;
    Ok(memory)
}

/// Puts words in the place of those of a page.
fn put_page(
    alloc: Global,
    memory: &mut Memory,
    index: usize,
    words: Vec<u32>,
) -> Result<(), NoMemory>
    requires within { index < 64 }
    requires size { length words.items ≡ 1024 }
    ensures { IfOk result (λ _. memory.new ≡ slice_set memory.old index words.items) }
{
    memory.set_page(alloc, index, words)?;
    Ok(())
}

/// Takes the bytes of a page off the input, and puts it where there were zeros.
fn decode_page(
    alloc: Global,
    input: &mut Input,
    memory: &mut Memory,
    index: usize,
) -> Result<(), DecodeFault>
    requires { index < 64 }
    ensures ok { IfOk result (λ _. DecodesPage index input.old memory.old memory.new input.new) }
    ensures err { IfErr result (λ e. Unless page_code FitsPage input.old (e ≡ FaultOf.NoMemory)) }
{
    match input.byte()? {
        0 => Ok(()),
        1 => {
            let words = decode_words(alloc, input)?;
            put_page(alloc, memory, index, words)?;
            Ok(())
        }
        _ => Err(DecodeFault::Damaged),
    }
}

/// Takes the bytes of each page off the input.
fn decode_pages(alloc: Global, input: &mut Input) -> Result<Memory, DecodeFault>
    ensures ok { IfOk result (λ m. Decodes memory_code FitsMemory input.old m input.new) }
    ensures err { IfErr result (λ e. Unless memory_code FitsMemory input.old (e ≡ FaultOf.NoMemory)) }
{
    let mut memory = empty(alloc)?;
    for index in 0..PAGES {
        decode_page(alloc, input, &mut memory, index)?;
    }
    Ok(memory)
}

/// Takes the bytes of a memory off the input. Copies share its pages.
pub(crate) fn decode_memory(alloc: Global, input: &mut Input) -> Result<Memory, DecodeFault>
    ensures ok { IfOk result (λ m. Decodes memory_code FitsMemory input.old m input.new) }
    ensures err { IfErr result (λ e. Unless memory_code FitsMemory input.old (e ≡ FaultOf.NoMemory)) }
{
    let memory = decode_pages(alloc, input)?;
    let memory = shared(alloc, memory)?;
    Ok(memory)
}
