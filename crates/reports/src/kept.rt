//! What a run keeps, which `--verbose` tells.

use book::{Footprint, Host};
use handler::Handler;
use log::{Log, info};
use model::{Kept, MAX_UNITS, NoMemory, TenantName, Unit};
use shared_log::Store;
use terminal::Plural;
use words::Verbosity;

/// What is kept of some units: of their past, and in lists beside it.
#[derive(Clone, Copy)]
pub struct Amount {
    past: Kept,
    lists: Footprint,
}

/// What is kept of no unit.
pub const NOTHING: Amount = Amount {
    past: Kept {
        records: 0,
        shelved: 0,
        letters: 0,
    },
    lists: Footprint {
        intervals: 0,
        volatile: 0,
        held: 0,
        rows: 0,
        spent: 0,
        released: 0,
        texts: 0,
    },
};

/// Tells the sums over all units of all tenants of a host, where so much is told.
pub fn tell_kept<L: Log, H: Handler, S: Store>(told: &L, host: &Host<H, S>, verbosity: Verbosity) {
    if verbosity == Verbosity::Verbose {
        tell_amount(told, kept_by(host));
    }
}

/// Tells what is kept, or that there was no memory to tell it.
pub fn tell_amount<L: Log>(told: &L, kept: Result<Amount, NoMemory>) {
    match kept {
        Ok(Amount { past, lists }) => {
            info!(told; "kept of the past: {}, {}, the texts of {}", Plural(past.records, "live record"), Plural(past.shelved, "checkpoint"), Plural(past.letters, "letter"));
            info!(told; "kept beside them: {}, {}, {}, {}, {} without text", Plural(lists.intervals, "interval"), Plural(lists.volatile, "volatile record"), Plural(lists.held, "held output"), Plural(lists.rows, "row"), Plural(lists.spent, "letter"));
            info!(told; "released: {}, the texts of {} kept", Plural(lists.released, "output"), lists.texts);
        }
        Err(NoMemory) => {
            info!(told; "there is no memory for the names of the tenants: what is kept isn't told");
        }
    }
}

/// The sums over all units of all tenants of a host. `NoMemory` comes where there is none for their names.
pub fn kept_by<H: Handler, S: Store>(host: &Host<H, S>) -> Result<Amount, NoMemory> {
    let mut all = NOTHING;
    for name in names_of(host)? {
        for number in 0..MAX_UNITS as u8 {
            match kept_of(host, &name, Unit::new(number)) {
                Some(kept) => all = sum(all, kept),
                None => break,
            }
        }
    }
    Ok(all)
}

fn names_of<H: Handler, S: Store>(host: &Host<H, S>) -> Result<Vec<TenantName>, NoMemory> {
    host.tenants()
}

/// What is kept of one unit.
fn kept_of<H: Handler, S: Store>(
    host: &Host<H, S>,
    name: &TenantName,
    unit: Unit,
) -> Option<Amount> {
    let past = host.kept(name, unit)?;
    let lists = host.footprint(name, unit)?;
    Some(Amount { past, lists })
}

/// What is kept of both.
pub fn sum(one: Amount, other: Amount) -> Amount {
    Amount {
        past: sum_of_past(one.past, other.past),
        lists: sum_of_lists(one.lists, other.lists),
    }
}

fn sum_of_past(one: Kept, other: Kept) -> Kept {
    Kept {
        records: one.records.saturating_add(other.records),
        shelved: one.shelved.saturating_add(other.shelved),
        letters: one.letters.saturating_add(other.letters),
    }
}

fn sum_of_lists(one: Footprint, other: Footprint) -> Footprint {
    Footprint {
        intervals: one.intervals.saturating_add(other.intervals),
        volatile: one.volatile.saturating_add(other.volatile),
        held: one.held.saturating_add(other.held),
        rows: one.rows.saturating_add(other.rows),
        spent: one.spent.saturating_add(other.spent),
        released: one.released.saturating_add(other.released),
        texts: one.texts.saturating_add(other.texts),
    }
}
