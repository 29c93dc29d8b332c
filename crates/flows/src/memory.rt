//! What a driver remembers, as bytes, and back.
//!
//! No clause says that what is read is what was written: what a driver remembers tells which steps it gives, and its
//! theorems hold whichever it gives. That the same lines give the same bytes behind a snapshot is tested.

use crate::driver::{Done, Driver};
use crate::flow::{Flow, UnitFlow, Waiting};
use codec::{Coded, DecodeFault, Input};
use model::{Letter, NoMemory, Refusal, TenantName, Unit};
use std::alloc::Global;

/// The reasons for which letters wait, in the order of their numbers.
const REFUSALS: [Refusal; 19] = [
    Refusal::BadLine,
    Refusal::NoTenant,
    Refusal::AlreadyOpen,
    Refusal::BadOpen,
    Refusal::NoUnit,
    Refusal::Down,
    Refusal::Up,
    Refusal::NoLetter,
    Refusal::Wait,
    Refusal::Orphan,
    Refusal::Repeat,
    Refusal::Gap,
    Refusal::Quota,
    Refusal::TooMuch,
    Refusal::Unlogged,
    Refusal::Limit,
    Refusal::Store,
    Refusal::Memory,
    Refusal::Pending,
];

/// Appends why a letter was refused: the refusal's number, or 0.
fn encode_why(why: Option<Refusal>, out: &mut Vec<u8>) -> Result<(), NoMemory> {
    let number = match why {
        Some(refusal) => refusal.number(),
        None => 0,
    };
    number.encode(out)
}

/// Takes off why a letter was refused.
fn decode_why(alloc: Global, input: &mut Input) -> Result<Option<Refusal>, DecodeFault> {
    let number = u8::decode(alloc, input)?;
    if number == 0 {
        return Ok(None);
    }
    match REFUSALS.get(usize::from(number) - 1) {
        Some(refusal) => Ok(Some(*refusal)),
        None => Err(DecodeFault::Damaged),
    }
}

/// Appends letters that wait, of which none is gone between two lines.
fn encode_letters(letters: &[Waiting], out: &mut Vec<u8>) -> Result<(), NoMemory> {
    letters.len().encode(out)?;
    for waiting in letters {
        waiting.letter.encode(out)?;
        waiting.unit.encode(out)?;
        encode_why(waiting.why, out)?;
        waiting.is_told.encode(out)?;
    }
    Ok(())
}

/// Takes a letter that waits off the input.
fn decode_letter(alloc: Global, input: &mut Input) -> Result<Waiting, DecodeFault> {
    let letter = Letter::decode(alloc, input)?;
    let unit = Unit::decode(alloc, input)?;
    let why = decode_why(alloc, input)?;
    let is_told = bool::decode(alloc, input)?;
    Ok(Waiting {
        letter,
        unit,
        why,
        is_told,
        is_gone: false,
    })
}

/// Takes letters that wait off the input.
fn decode_letters(
    alloc: Global,
    input: &mut Input,
    letters: &mut Vec<Waiting>,
) -> Result<(), DecodeFault> {
    let count = usize::decode(alloc, input)?;
    for _ in 0..count {
        let waiting = decode_letter(alloc, input)?;
        codec::put(letters, waiting)?;
    }
    Ok(())
}

/// Appends what is remembered of units.
fn encode_units(units: &[UnitFlow], out: &mut Vec<u8>) -> Result<(), NoMemory> {
    units.len().encode(out)?;
    for unit in units {
        unit.is_up.encode(out)?;
        unit.has_taken.encode(out)?;
        unit.held.encode(out)?;
    }
    Ok(())
}

/// Takes what is remembered of a unit off the input.
fn decode_unit(alloc: Global, input: &mut Input) -> Result<UnitFlow, DecodeFault> {
    let is_up = bool::decode(alloc, input)?;
    let has_taken = bool::decode(alloc, input)?;
    let held = u64::decode(alloc, input)?;
    Ok(UnitFlow {
        is_up,
        has_taken,
        held,
    })
}

/// Takes what is remembered of units off the input.
fn decode_units(alloc: Global, input: &mut Input, flow: &mut Flow) -> Result<(), DecodeFault> {
    let count = usize::decode(alloc, input)?;
    for _ in 0..count {
        let unit = decode_unit(alloc, input)?;
        if flow.units.try_push(unit).is_err() {
            return Err(DecodeFault::Damaged);
        }
    }
    Ok(())
}

/// Takes what is remembered of a tenant off the input.
fn decode_flow(alloc: Global, input: &mut Input, flow: &mut Flow) -> Result<(), DecodeFault> {
    decode_units(alloc, input, flow)?;
    decode_letters(alloc, input, &mut flow.letters)?;
    decode_letters(alloc, input, &mut flow.parked)
}

/// Takes what is remembered of a tenant off the input, and adds it.
fn decode_onto(alloc: Global, input: &mut Input, driver: &mut Driver) -> Result<(), DecodeFault> {
    let tenant = TenantName::decode(alloc, input)?;
    let mut flow = Flow::new(alloc, 0);
    decode_flow(alloc, input, &mut flow)?;
    match driver.flows.insert(tenant, flow) {
        Ok(None) => Ok(()),
        Ok(Some(_)) => Err(DecodeFault::Damaged),
        Err(_) => Err(DecodeFault::NoMemory),
    }
}

impl Done {
    fn encode(&self, out: &mut Vec<u8>) -> Result<(), NoMemory> {
        self.deliveries.encode(out)?;
        self.flushes.encode(out)?;
        self.notices.encode(out)?;
        self.releases.encode(out)?;
        self.outputs.encode(out)
    }

    fn decode(alloc: Global, input: &mut Input) -> Result<Done, DecodeFault> {
        let deliveries = u64::decode(alloc, input)?;
        let flushes = u64::decode(alloc, input)?;
        let notices = u64::decode(alloc, input)?;
        let releases = u64::decode(alloc, input)?;
        let outputs = u64::decode(alloc, input)?;
        Ok(Done {
            deliveries,
            flushes,
            notices,
            releases,
            outputs,
        })
    }
}

impl Driver {
    /// Appends what it remembers, as bytes: what it did, and of each tenant in the order of opening its name, its units
    /// and its letters that wait.
    ///
    /// # Errors
    ///
    /// `NoMemory` where the bytes find none.
    pub fn encode(&self, out: &mut Vec<u8>) -> Result<(), NoMemory> {
        self.done.encode(out)?;
        self.flows.len().encode(out)?;
        for (tenant, flow) in &self.flows {
            tenant.encode(out)?;
            encode_units(flow.units.as_slice(), out)?;
            encode_letters(flow.letters.as_slice(), out)?;
            encode_letters(flow.parked.as_slice(), out)?;
        }
        Ok(())
    }

    /// The driver that remembers what these bytes say.
    ///
    /// # Errors
    ///
    /// `Cut` where the input ends within them, `Damaged` where they are those of no driver, `NoMemory` where it finds
    /// none, of which it takes no more than the input's length allows.
    pub fn decode(alloc: Global, input: &mut Input) -> Result<Driver, DecodeFault> {
        let mut driver = Driver::new(alloc);
        driver.done = Done::decode(alloc, input)?;
        let count = usize::decode(alloc, input)?;
        for _ in 0..count {
            decode_onto(alloc, input, &mut driver)?;
        }
        Ok(driver)
    }
}
