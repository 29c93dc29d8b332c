//! The answer to one step.

ghost use Rattle.std.specs.Prelude.{◌≡◌, ◌++◌, List, ℕ, OnOk, OnErr, false};
ghost use Rattle.driver.specs.Driving.{IsStepRound, Round, round_text};
ghost use Rattle.lines.specs.Serving.{HostDoes, reply_line};
ghost use Rattle.shards.specs.Blocks.{Tells};

use book::Host;
use driver::{Driver, drive_host_step};
use handler::Handler;
use lines::Counted;
use model::{AddressedStep, NoMemory, Reply};
use quick_forms::write_reply;
use shared_log::Store;
use std::alloc::Global;
use std::mem;

/// Adds the line of a reply, with its line feed. Where there is no memory for it, the bytes are as they were. The text
/// is a buffer that can be kept for the next.
fn add_line(text: &mut Vec<u8>, bytes: &mut Vec<u8>, reply: &Reply) -> Result<(), NoMemory>
    ensures ok { OnOk result (bytes.new.items ≡ bytes.old.items ++ reply_line reply.now) }
    ensures err { OnErr result (bytes.new.items ≡ bytes.old.items) }
{
    text.clear();
    write_reply(text, reply)?;
    text.push(b'\n')?;
    bytes.extend_from_slice(text.as_slice())?;
    Ok(())
}

/// Does a step by a driven host, and adds all that is written behind its line.
fn drive_step<H: Handler, S: Store>(
    alloc: Global,
    host: &mut Host<H, S>,
    driver: &mut Driver,
    text: &mut Vec<u8>,
    bytes: &mut Vec<u8>,
    step: AddressedStep,
) -> Result<(), NoMemory>
    ensures ok { OnOk result ((round : Round) × IsStepRound (HostDoes H.meaning) step host.old round host.new
        × (bytes.new.items ≡ bytes.old.items ++ round_text round)) }
    ensures err { OnErr result ((round : Round) × IsStepRound (HostDoes H.meaning) step host.old round host.new
        × (bytes.new.items ≡ bytes.old.items)) }
{
    let before = bytes.as_slice().len();
    let empty = Vec::new(alloc);
    let mut writer = Counted::new(mem::replace(bytes, empty));
    let driven = drive_host_step(alloc, &mut writer, host, driver, text, step);
    *bytes = writer.inner;
    match driven {
        Ok(()) => Ok(()),
        Err(_) => {
            bytes.truncate(before);
            Err(NoMemory)
        }
    }
}

/// Does a step, and adds its answer, whole or not at all: where there is no memory for it the step is done all the
/// same, and the bytes are as they were.
pub(crate) fn answer_step<H: Handler, S: Store>(
    alloc: Global,
    host: &mut Host<H, S>,
    driver: &mut Driver,
    text: &mut Vec<u8>,
    bytes: &mut Vec<u8>,
    step: AddressedStep,
    drives: bool,
) -> Result<(), NoMemory>
    ensures ok { OnOk result ((answer : List ℕ) × Tells H.meaning drives host.old step answer host.new
        × (bytes.new.items ≡ bytes.old.items ++ answer)) }
    ensures err { OnErr result ((answer : List ℕ) × Tells H.meaning drives host.old step answer host.new
        × (bytes.new.items ≡ bytes.old.items)) }
{
    if drives {
        return drive_step(alloc, host, driver, text, bytes, step);
    }
    let reply = host.step(step);
    add_line(text, bytes, &reply)
}

/// Does a step of which nothing is written, behind one whose answer found no memory. No driver carries on behind it.
pub(crate) fn pass_step<H: Handler, S: Store>(host: &mut Host<H, S>, step: AddressedStep)
    ensures { (drives : _) → (answer : List ℕ) × Tells H.meaning drives host.old step answer host.new }
{
    host.step(step);
}
