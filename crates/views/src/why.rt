//! `why`: what the outputs wait for that a unit holds.

ghost use Rattle.std.specs.Prelude.{◌≡◌, []};

use crate::replaying::replay_of;
use crate::values::{awaited_value, mark_value, steps_value, units_value};
use diagram::{Held, Situation, find_tenant};
use handler::Handler;
use log::{Log, error};
use model::{Entry, NoMemory, TenantName, Unit};
use reasons::{Remedy, Shown, Waits, add_remedies, is_lost, remedies};
use serde_json::json;
use shared_log::Store;
use std::alloc::Global;
use std::fs::{File, Files};
use std::io::{self, Input, Write};
use std::time::Clock;
use terminal::{Patient, Plural};
use words::WhyWords;

/// `why`: tells of each output that the unit holds what it waits for, and what would help, where the lines are stepped
/// over a store that acknowledged nothing yet. Tells the status to end with: 0 where that is told, 1 where the lines
/// can't be read, the tenant has no such unit, there is no memory, or the output fails.
pub fn why_on<
    R: Files<File = File> + Clock + Print + Input + AllocGlobal,
    L: Log,
    H: Handler + Clone,
    S: Store,
>(rt: &R, told: &L, handler: H, store: S, asked: &WhyWords<'_>) -> u8
    requires { S.log store ≡ [] }
{
    let Some(found) = replay_of(rt, told, &handler, store, &asked.view) else {
        return 1;
    };
    let text = told_of(told, rt.alloc(), &handler, found.book.history(), asked);
    found.forget();
    let Some(text) = text else {
        return 1;
    };
    put(told, &mut Patient::new(rt, io::writer(rt)), text.as_str())
}

/// Writes a text, and tells the status to end with.
pub(crate) fn put<L: Log, W: Write>(told: &L, output: &mut W, text: &str) -> u8 {
    if output.write_all(text.as_bytes()).is_err() || output.flush().is_err() {
        error!(told; "the output can't be written");
        return 1;
    }
    0
}

/// What is told of the unit; nothing where it isn't there, which is told.
fn told_of<L: Log, H: Handler>(
    told: &L,
    alloc: Global,
    handler: &H,
    history: &[Entry],
    asked: &WhyWords<'_>,
) -> Option<String> {
    let name = asked.tenant;
    let Some(tenant) = find_tenant(history, Some(name)) else {
        error!(told; "the tenant {name:?} is not open");
        return None;
    };
    match told_of_tenant(alloc, handler, history, tenant, asked) {
        Ok(Some(text)) => Some(text),
        Ok(None) => {
            let unit = asked.unit;
            error!(told; "the tenant {name:?} has no unit {unit}: the first is unit 0");
            None
        }
        Err(NoMemory) => {
            error!(told; "there is no memory to tell what is held");
            None
        }
    }
}

/// What is told of a unit of the tenant, if there is one of this number.
fn told_of_tenant<H: Handler>(
    alloc: Global,
    handler: &H,
    history: &[Entry],
    tenant: &TenantName,
    asked: &WhyWords<'_>,
) -> Result<Option<String>, NoMemory> {
    let situation = Situation::of(alloc, handler, history, tenant)?;
    let Ok(number) = u8::try_from(asked.unit) else {
        return Ok(None);
    };
    if usize::from(number) >= situation.units() {
        return Ok(None);
    }
    let unit = Unit::new(number);
    let text = told_of_unit(alloc, &situation, tenant.as_str(), unit, asked.json)?;
    Ok(Some(text))
}

/// What is told of a unit.
fn told_of_unit(
    alloc: Global,
    situation: &Situation<'_>,
    tenant: &str,
    unit: Unit,
    json: bool,
) -> Result<String, NoMemory> {
    let mut text = String::new(alloc);
    let held = situation.held(alloc, unit, usize::MAX)?;
    if !json {
        add_head(&mut text, tenant, unit, held.len())?;
    }
    for (at, output) in held.iter().enumerate() {
        let steps = remedies(alloc, situation, unit, output)?;
        if json {
            add_object(alloc, &mut text, tenant, unit, output, steps.as_slice())?;
        } else {
            add_output(&mut text, at.saturating_add(1), output, steps.as_slice())?;
        }
    }
    Ok(text)
}

/// Adds how many outputs the unit holds.
fn add_head(text: &mut String, tenant: &str, unit: Unit, count: usize) -> Result<(), NoMemory> {
    let unit = unit.number();
    let outputs = Plural(count as u64, "output");
    write!(text, "unit {unit} of tenant {tenant} holds {outputs}\n")?;
    Ok(())
}

/// Adds what is told of an output to people.
fn add_output(
    text: &mut String,
    number: usize,
    held: &Held,
    steps: &[Remedy],
) -> Result<(), NoMemory> {
    let (mark, waits) = (Shown(held.mark), Waits(held));
    write!(
        text,
        "{number}. {:?}, put out by {mark}\n",
        held.text.as_str()
    )?;
    if is_lost(held) {
        write!(text, "   never leaves: {waits}\n   is undone by: ")?;
    } else {
        write!(text, "   waits for: {waits}\n   would leave by: ")?;
    }
    add_remedies(text, steps)?;
    text.push('\n')?;
    if !is_lost(held) {
        add_danger(text, held)?;
    }
    Ok(())
}

/// Adds what would lose the output.
fn add_danger(text: &mut String, held: &Held) -> Result<(), NoMemory> {
    if held.awaited.is_empty() {
        text.push_str("   can't be lost\n")?;
        return Ok(());
    }
    text.push_str("   would be lost by: ")?;
    let mut before = "";
    for awaited in &held.awaited {
        write!(text, "{before}kill {}", awaited.unit.number())?;
        before = " or ";
    }
    text.push('\n')?;
    Ok(())
}

/// Adds the object that says of an output what is told of it.
fn add_object(
    alloc: Global,
    text: &mut String,
    tenant: &str,
    unit: Unit,
    held: &Held,
    steps: &[Remedy],
) -> Result<(), NoMemory> {
    let mut endangered = Vec::new(alloc);
    if !is_lost(held) {
        for awaited in &held.awaited {
            endangered.push(awaited.unit)?;
        }
    }
    let at = mark_value(alloc, held.mark)?;
    let awaits = awaited_value(alloc, held)?;
    let lost_by = units_value(alloc, endangered.as_slice())?;
    let steps = steps_value(alloc, tenant, steps)?;
    let value = json!(in alloc; {
        "at": at,
        "awaits": awaits,
        "leaves": !is_lost(held),
        "lost_by": lost_by,
        "output": held.text.as_str(),
        "steps": steps,
        "tenant": tenant,
        "unit": unit.number(),
    })?;
    text.push_str(value.to_string(alloc)?.as_str())?;
    text.push('\n')?;
    Ok(())
}
