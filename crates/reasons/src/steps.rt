//! Why a step was refused.

use crate::bad_lines::fault_of;
use forms::{LineFault, read_step};
use handler::Handler;
use model::{
    MAX_INCARNATION, MAX_INDEX, MAX_LETTERS_QUOTA, MAX_OPTIMISM, MAX_TEXT_BYTES, MAX_TURN_EFFECTS,
    MAX_UNITS, MAX_VOLATILE_QUOTA, NoMemory, Step, Text, Texts, Unit,
};
use std::alloc::Global;

/// What would help where there was no memory.
const MEMORY: &str = "there was no memory: give it again";

/// Why a line was refused, and what would help, in one sentence: `post: unit 3 is down: restart it first`. The line
/// has no line feed at its end. Of a line that is too long its first 65,537 bytes are enough. `kinds` are those that
/// the handler knows: of an unknown one they are told.
///
/// # Errors
///
/// `NoMemory` where there is none for the sentence.
pub fn reason<H: Handler>(
    alloc: Global,
    handler: &H,
    kinds: &[&str],
    line: &[u8],
    refusal: &str,
) -> Result<String, NoMemory> {
    if refusal == "bad-line" {
        let fault = fault_of(alloc, line)?;
        return Ok(format!(in alloc; "bad-line: {fault}")?);
    }
    match read_step(alloc, line) {
        Ok(step) => reason_of_step(alloc, handler, kinds, &step, refusal),
        Err(LineFault::Bad) => Ok(format!(in alloc; "{refusal}")?),
        Err(LineFault::NoMemory) => Ok(MEMORY.to_string(alloc)?),
    }
}

/// Why a letter has to wait, and what would help, where it rests on a restart or a rollback of `unit` that its receiver
/// isn't told of.
///
/// # Errors
///
/// `NoMemory` where there is none for the sentence.
pub fn wait_reason(alloc: Global, receiver: Unit, unit: Unit) -> Result<String, NoMemory> {
    let (receiver, unit) = (receiver.number(), unit.number());
    Ok(format!(in alloc;
        "deliver: the letter rests on a restart or rollback of unit {unit} that unit {receiver} isn't told of: give unit {receiver} a notice"
    )?)
}

fn reason_of_step<H: Handler>(
    alloc: Global,
    handler: &H,
    kinds: &[&str],
    step: &Step,
    refusal: &str,
) -> Result<String, NoMemory> {
    let why = why(alloc, handler, kinds, step, refusal)?;
    Ok(format!(in alloc; "{}: {why}", name_of(step))?)
}

/// The word that `do` has.
fn name_of(step: &Step) -> &'static str {
    match step {
        Step::Open { .. } => "open",
        Step::Join { .. } => "join",
        Step::Post { .. } => "post",
        Step::Deliver { .. } => "deliver",
        Step::Flush { .. } => "flush",
        Step::Checkpoint { .. } => "checkpoint",
        Step::Kill { .. } => "kill",
        Step::Restart { .. } => "restart",
        Step::Notice { .. } => "notice",
        Step::Release { .. } => "release",
        Step::Status { .. } => "status",
    }
}

/// The number of the unit that the step names, if it names one.
fn unit_of(step: &Step) -> Option<u8> {
    match step {
        Step::Open { .. } | Step::Join { .. } | Step::Deliver { .. } => None,
        Step::Post { unit, .. }
        | Step::Flush { unit, .. }
        | Step::Checkpoint { unit, .. }
        | Step::Kill { unit, .. }
        | Step::Restart { unit, .. }
        | Step::Notice { unit, .. }
        | Step::Release { unit, .. }
        | Step::Status { unit, .. } => Some(unit.number()),
    }
}

fn why<H: Handler>(
    alloc: Global,
    handler: &H,
    kinds: &[&str],
    step: &Step,
    refusal: &str,
) -> Result<String, NoMemory> {
    match refusal {
        "no-tenant" | "already-open" => why_of_tenant(alloc, step, refusal),
        "bad-open" => why_bad_open(alloc, handler, kinds, step),
        "no-unit" | "down" | "up" | "unlogged" => why_of_unit(alloc, step, refusal),
        "repeat" | "gap" => why_of_number(alloc, step, refusal),
        "too-much" => why_too_much(alloc, step),
        "limit" => limit(alloc, step),
        other => Ok(plain(other).to_string(alloc)?),
    }
}

fn why_of_tenant(alloc: Global, step: &Step, refusal: &str) -> Result<String, NoMemory> {
    let name = step.tenant().as_str();
    Ok(if refusal == "no-tenant" {
        format!(in alloc; "tenant {name} is not open: open it first")?
    } else {
        format!(in alloc; "tenant {name} is open already: go on with it, or take another name")?
    })
}

fn why_bad_open<H: Handler>(
    alloc: Global,
    handler: &H,
    kinds: &[&str],
    step: &Step,
) -> Result<String, NoMemory> {
    Ok(match unknown_kind(handler, step) {
        Some(kind) => why_unknown(alloc, kind, kinds)?,
        None => {
            format!(in alloc;
                "1 to {MAX_UNITS} units are wanted, quotas of 1 to {MAX_VOLATILE_QUOTA} (letters: to {MAX_LETTERS_QUOTA}), and optimism of 0 to {MAX_OPTIMISM}"
            )?
        }
    })
}

/// That there is no such kind, and which there are.
fn why_unknown(alloc: Global, kind: &Text, kinds: &[&str]) -> Result<String, NoMemory> {
    let mut why = format!(in alloc; "there is no kind {:?}: take one of", kind.as_str())?;
    let mut before = " ";
    for known in kinds {
        why.push_str(before)?;
        why.push_str(known)?;
        before = ", ";
    }
    Ok(why)
}

/// The first kind that the handler doesn't know.
fn unknown_kind<'a, H: Handler>(handler: &H, step: &'a Step) -> Option<&'a Text> {
    match step {
        Step::Open { kinds, .. } => first_unknown(handler, kinds),
        Step::Join { kind, .. } => Some(kind),
        _ => None,
    }
}

fn first_unknown<'a, H: Handler>(handler: &H, kinds: &'a Texts) -> Option<&'a Text> {
    for kind in kinds.as_slice() {
        if handler.kind(kind.as_str()).is_none() {
            return Some(kind);
        }
    }
    None
}

fn why_of_unit(alloc: Global, step: &Step, refusal: &str) -> Result<String, NoMemory> {
    let Some(unit) = unit_of(step) else {
        return Ok("the letter's receiver is down: restart it first".to_string(alloc)?);
    };
    Ok(match refusal {
        "no-unit" => format!(in alloc; "the tenant has no unit {unit}: the first is unit 0")?,
        "down" => format!(in alloc; "unit {unit} is down: restart it first")?,
        "up" => format!(in alloc; "unit {unit} is up: only one that is down is restarted")?,
        _ => format!(in alloc; "unit {unit} has intervals that are not logged: flush it first")?,
    })
}

fn why_of_number(alloc: Global, step: &Step, refusal: &str) -> Result<String, NoMemory> {
    Ok(match step {
        Step::Post { number, .. } => {
            if refusal == "repeat" {
                format!(in alloc; "number {number} was taken before: go on with the next one")?
            } else {
                format!(in alloc;
                    "number {number} is ahead: a status tells the next one, as \"outside\""
                )?
            }
        }
        _ => {
            if refusal == "repeat" {
                "the letter was taken before".to_string(alloc)?
            } else {
                "letters of this sender before it were not taken yet: deliver those first".to_string(
                    alloc,
                )?
            }
        }
    })
}

fn why_too_much(alloc: Global, step: &Step) -> Result<String, NoMemory> {
    if let Step::Post { text, .. } = step {
        let length = text.as_str().len();
        if length > MAX_TEXT_BYTES {
            return Ok(format!(in alloc; "the text has {length} bytes: {MAX_TEXT_BYTES} at most")?);
        }
    }
    Ok(format!(in alloc;
        "what the unit makes of the text is too much: {MAX_TURN_EFFECTS} sends and outputs at most, each of {MAX_TEXT_BYTES} bytes at most"
    )?)
}

fn limit(alloc: Global, step: &Step) -> Result<String, NoMemory> {
    Ok(match step {
        Step::Join { .. } => {
            format!(in alloc; "the tenant has {MAX_UNITS} units, and no room for one more")?
        }
        Step::Post { .. } | Step::Deliver { .. } => {
            format!(in alloc; "the unit's path has its last index, {MAX_INDEX}")?
        }
        _ => format!(in alloc; "the unit has its last incarnation, {MAX_INCARNATION}")?,
    })
}

/// What is said of a refusal whatever the step.
fn plain(refusal: &str) -> &'static str {
    match refusal {
        "no-letter" => "no letter of this number was sent yet",
        "wait" =>
            "the letter rests on a restart that its receiver doesn't know: give the receiver a notice",
        "orphan" =>
            "the letter rests on what was lost, and is never taken: what its sender sends anew will be",
        "pending" => {
            "the letter rests on more units with unlogged intervals than the tenant's optimism allows: flush those first"
        }
        "quota" => {
            "a quota is used up: flush (records that are not logged) or release (held outputs) first; letters have no remedy"
        }
        "store" => {
            "the store failed: a restart or notice can be given again; a log file that failed once is written no more"
        }
        _ => MEMORY,
    }
}
