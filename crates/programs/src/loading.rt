//! Texts that bring an image.

ghost use Rattle.std.specs.Prelude.{◌≡◌, ◌≤◌, IfOk, true, false, [], ◌∷◌, codes};
ghost use Rattle.programs.specs.Loading.{saying, is_mark, begins_image, is_part, collected, installed, with_bytes};
ghost use Rattle.programs.specs.Loading.{with_part, loading};
ghost use Rattle.model.specs.declared.names.Source.TheVariants.{Outside};
ghost use Rattle.base64.specs.Engines.{standard};
ghost use Rattle.base64.specs.GeneralPurpose.{decode_of};

use crate::layout::{HEADER, TEXT_AT};
use crate::process::Process;
use base64::DecodeAllocError;
use base64::engine::general_purpose::STANDARD;
use handler::Turn;
use model::{NoMemory, Text};
use std::alloc::Global;

/// What an image's header is in base64.
const HEADER_TEXT: &[u8] = b"UlYxA";

/// One text is put out, and the state becomes this one.
pub(crate) fn say(alloc: Global, process: Process, text: &str) -> Result<Turn<Process>, NoMemory>
    ensures { IfOk result (λ t. t ≡ saying process text.now) }
{
    let mut outputs = Vec::new(alloc);
    outputs.push(Text::of(alloc, text)?)?;
    Ok(Turn {
        state: process,
        sends: Vec::new(alloc),
        outputs,
    })
}

/// The state becomes this one, and nothing is put out.
fn become_this(alloc: Global, process: Process) -> Turn<Process>
    ensures { result ≡ record { state = process; sends = []; outputs = [] } }
{
    Turn {
        state: process,
        sends: Vec::new(alloc),
        outputs: Vec::new(alloc),
    }
}

/// Whether the first byte of a text says that a part of an image follows.
fn is_mark(first: u8) -> bool
    ensures { result ≡ is_mark first }
{
    first == 43 || first == 61
}

/// Whether a text from outside is a part of an image: one that is marked as such, where there is no program, where an
/// image has begun, or where one begins with it.
pub(crate) fn is_part(process: &Process, text: &str) -> bool
    ensures { result ≡ is_part process.now Outside text.now }
{
    match text.as_bytes() {
        [first, rest @ ..] => {
            is_mark(*first)
                && (!process.has_program || process.loaded > 0 || rest.starts_with(HEADER_TEXT))
        }
        [] => false,
    }
}

/// The image with more bytes, where it holds them.
fn collect(alloc: Global, process: &Process, bytes: &[u8]) -> Result<Option<Process>, NoMemory>
    ensures { IfOk result (λ p. p ≡ collected process.now bytes.now) }
{
    let loaded = u64::from(process.loaded);
    let count = bytes.len() as u64;
    if count > u64::from(TEXT_AT) || loaded + count > u64::from(TEXT_AT) {
        return Ok(None);
    }
    let mut image = process.image.copy(alloc)?;
    image.set_bytes(alloc, process.loaded, bytes)?;
    image.share(alloc)?;
    Ok(Some(Process {
        memory: process.memory.copy(alloc)?,
        has_program: process.has_program,
        image,
        loaded: (loaded + count) as u32,
    }))
}

/// The turn upon the last part of an image: it is put over the memory from address 0 on, if it begins with the header.
fn install(alloc: Global, process: &Process) -> Result<Turn<Process>, NoMemory>
    requires { process.now.loaded ≤ 258048 }
    ensures { IfOk result (λ t. t ≡ installed process.now) }
{
    if process.image.word(0) != HEADER {
        return say(alloc, process.without_image(alloc)?, "bad image");
    }
    let bytes = process.image.bytes(alloc, 0, process.loaded)?;
    let mut memory = process.memory.copy(alloc)?;
    memory.set_bytes(alloc, 0, bytes.as_slice())?;
    memory.share(alloc)?;
    let process = Process {
        memory,
        has_program: true,
        image: riscv::Memory::new(alloc)?,
        loaded: 0,
    };
    Ok(become_this(alloc, process))
}

/// The turn upon more bytes of an image.
fn load_bytes(
    alloc: Global,
    process: &Process,
    is_last: bool,
    bytes: &[u8],
) -> Result<Turn<Process>, NoMemory>
    ensures { IfOk result (λ t. t ≡ with_bytes process.now is_last bytes.now) }
{
    match collect(alloc, process, bytes)? {
        Some(collected) => {
            if is_last {
                install(alloc, &collected)
            } else {
                Ok(become_this(alloc, collected))
            }
        }
        None => say(alloc, process.without_image(alloc)?, "image too large"),
    }
}

/// The turn upon more of an image, in base64.
fn load_part(
    alloc: Global,
    process: &Process,
    is_last: bool,
    part: &[u8],
) -> Result<Turn<Process>, NoMemory>
    ensures { IfOk result (λ t. t ≡ with_part process.now is_last (decode_of standard part.now)) }
{
    match STANDARD.decode(alloc, part) {
        Ok(bytes) => load_bytes(alloc, process, is_last, bytes.as_slice()),
        Err(DecodeAllocError::OutOfMemory) => Err(NoMemory),
        Err(DecodeAllocError::DecodeError(_)) => {
            say(alloc, process.without_image(alloc)?, "bad base64")
        }
    }
}

/// The turn upon a text that is a part of an image.
#[tactic(auto, unfolding(crate::specs::Loading::loading))]
pub(crate) fn load(alloc: Global, process: &Process, text: &str) -> Result<Turn<Process>, NoMemory>
    ensures { IfOk result (λ t. t ≡ loading process.now text.now) }
{
    match text.as_bytes() {
        [first, rest @ ..] => load_part(alloc, process, *first == 61, rest),
        [] => Ok(become_this(alloc, process.copy(alloc)?)),
    }
}
