//! `status`: how each unit stands.

ghost use Rattle.std.specs.Prelude.{◌≡◌, []};

use crate::replaying::replay_of;
use crate::rows::{Row, rows_of};
use crate::values::{awaited_value, mark_value};
use crate::why::put;
use diagram::Standing;
use files::Told;
use handler::Handler;
use log::{Log, error};
use model::{Entry, NoMemory};
use reasons::{Shown, Waits};
use serde_json::{Value, json};
use shared_log::Store;
use std::alloc::Global;
use std::fs::{File, Files};
use std::io::{self, Input};
use std::time::Clock;
use terminal::{Patient, Plural};
use words::StatusWords;

/// `status`: tells what the journal has, and how each unit stands, what is stuck longest first, where the lines are
/// stepped over a store that acknowledged nothing yet. Tells the status to end with: 0 where that is told, 1 where the
/// lines can't be read, there is no memory, or the output fails.
pub fn status_on<
    R: Files<File = File> + Clock + Print + Input + AllocGlobal,
    L: Log,
    H: Handler + Clone,
    S: Store,
>(rt: &R, told: &L, handler: H, store: S, asked: &StatusWords<'_>) -> u8
    requires { S.log store ≡ [] }
{
    let Some(found) = replay_of(rt, told, &handler, store, &asked.view) else {
        return 1;
    };
    let text = text_of(
        rt.alloc(),
        &handler,
        found.book.history(),
        found.journal.as_ref(),
        asked,
    );
    found.forget();
    match text {
        Ok(text) => put(told, &mut Patient::new(rt, io::writer(rt)), text.as_str()),
        Err(NoMemory) => {
            error!(told; "there is no memory to tell how the units stand");
            1
        }
    }
}

/// What is told.
fn text_of<H: Handler>(
    alloc: Global,
    handler: &H,
    history: &[Entry],
    journal: Option<&Told>,
    asked: &StatusWords<'_>,
) -> Result<String, NoMemory> {
    let rows = rows_of(alloc, handler, history)?;
    let mut text = String::new(alloc);
    if let Some(journal) = journal {
        add_journal(alloc, &mut text, journal, asked)?;
    }
    if !asked.json {
        add_head(&mut text)?;
    }
    for row in &rows {
        if asked.json {
            add_object(alloc, &mut text, row, history.len())?;
        } else {
            add_row(alloc, &mut text, row, history.len())?;
        }
    }
    Ok(text)
}

/// Adds what the journal has.
fn add_journal(
    alloc: Global,
    text: &mut String,
    journal: &Told,
    asked: &StatusWords<'_>,
) -> Result<(), NoMemory> {
    if asked.json {
        text.push_str(journal.to_json(alloc)?.as_str())?;
    } else {
        write!(text, "{:?}: {journal}", asked.view.journal.unwrap_or(""))?;
    }
    text.push('\n')?;
    Ok(())
}

/// Adds what stands above the rows.
fn add_head(text: &mut String) -> Result<(), NoMemory> {
    write!(
        text,
        "{:<16} {:>4} {:<8} {:<5} {:<10} {:<14} {:<14} {:>7} {:>9}  {}\n",
        "tenant",
        "unit",
        "kind",
        "state",
        "at",
        "volatile",
        "held",
        "letters",
        "stuck for",
        "held longest"
    )?;
    Ok(())
}

/// Adds a row for people.
fn add_row(
    alloc: Global,
    text: &mut String,
    row: &Row<'_>,
    entries: usize,
) -> Result<(), NoMemory> {
    let standing = &row.standing;
    let mark = format!(in alloc; "{}", Shown(standing.mark))?;
    let volatile = format!(in alloc; "{} of {}", standing.volatile, row.quota.volatile)?;
    let held = format!(in alloc; "{} of {}", standing.held, row.quota.held)?;
    let stuck = match row.stuck_since() {
        Some(since) => format!(in alloc; "{}", entries.saturating_sub(since))?,
        None => String::from_str(alloc, "-")?,
    };
    write!(
        text,
        "{:<16} {:>4} {:<8} {:<5} {:<10} {:<14} {:<14} {:>7} {:>9}",
        row.tenant,
        standing.unit.number(),
        standing.kind,
        state_of(standing),
        mark.as_str(),
        volatile.as_str(),
        held.as_str(),
        standing.undelivered,
        stuck.as_str()
    )?;
    if let Some(oldest) = &row.oldest {
        write!(text, "  {:?}: {}", oldest.text.as_str(), Waits(oldest))?;
    }
    text.push('\n')?;
    Ok(())
}

fn state_of(standing: &Standing<'_>) -> &'static str {
    if standing.is_up { "up" } else { "down" }
}

/// Adds the object that says the same.
fn add_object(
    alloc: Global,
    text: &mut String,
    row: &Row<'_>,
    entries: usize,
) -> Result<(), NoMemory> {
    let standing = &row.standing;
    let at = mark_value(alloc, standing.mark)?;
    let oldest = oldest_value(alloc, row)?;
    let stuck_for = match row.stuck_since() {
        Some(since) => json!(in alloc; entries.saturating_sub(since) as u64)?,
        None => Value::Null,
    };
    let value = json!(in alloc; {
        "at": at,
        "held": standing.held as u64,
        "held_quota": row.quota.held,
        "kind": standing.kind,
        "letters": standing.undelivered as u64,
        "letters_quota": row.quota.letters,
        "letters_sent": row.letters as u64,
        "oldest": oldest,
        "stuck_for": stuck_for,
        "tenant": row.tenant,
        "unit": standing.unit.number(),
        "up": standing.is_up,
        "volatile": standing.volatile as u64,
        "volatile_quota": row.quota.volatile,
    })?;
    text.push_str(value.to_string(alloc)?.as_str())?;
    text.push('\n')?;
    Ok(())
}

/// The output that the unit has held longest, or null.
fn oldest_value(alloc: Global, row: &Row<'_>) -> Result<Value, NoMemory> {
    let Some(oldest) = &row.oldest else {
        return Ok(Value::Null);
    };
    let at = mark_value(alloc, oldest.mark)?;
    let awaits = awaited_value(alloc, oldest)?;
    let value = json!(in alloc; {
        "at": at,
        "awaits": awaits,
        "output": oldest.text.as_str(),
    })?;
    Ok(value)
}
