//! What a driver did, and the letters that wait, for people.

use driver::{Done, Driver, Flow, Waiting};
use forms::read_step;
use log::{Log, info, warn};
use model::{Refusal, TenantName};
use std::alloc::Global;
use std::fmt;
use std::fmt::{Display, Formatter};
use terminal::Plural;

/// How many letters are told of behind one line at most.
const MOST_TOLD: usize = 10;

/// Why a letter waits, and what would help.
#[derive(Drop)]
struct Why(Waiting);

impl Display for Why {
    fn fmt<W: fmt::Write>(&self, out: &mut Formatter<W>) -> fmt::Result {
        let Waiting {
            letter,
            unit,
            why,
            ..
        } = self.0;
        let (letter, unit) = (letter.number(), unit.number());
        write!(out, "letter {letter} to unit {unit} waits: ")?;
        match why {
            None => out.write_str(
                "a line's deliveries are used up: the tenant's next line goes on",
            ),
            Some(Refusal::Down) => write!(out, "unit {unit} is down: restart it"),
            Some(Refusal::Gap) => out.write_str("an earlier letter of its sender was not received"),
            Some(Refusal::Wait) => write!(
                out,
                "it rests on a restart that unit {unit} isn't told of"
            ),
            Some(Refusal::Pending) => out.write_str("too much of what it rests on isn't logged"),
            Some(Refusal::Quota) => out.write_str("a quota of the tenant is used up"),
            Some(Refusal::TooMuch) => out.write_str("its turn makes too much, or too large a text"),
            Some(Refusal::Limit) => write!(out, "unit {unit} can have no more intervals"),
            Some(other) => out.write_str(other.name()),
        }
    }
}

/// Tells which letters of the line's tenant came to wait behind it, or wait for another reason.
pub(crate) fn tell_news<L: Log>(told: &L, alloc: Global, driver: &mut Driver, line: &[u8]) {
    let Ok(step) = read_step(alloc, line) else {
        return;
    };
    let tenant = step.tenant();
    let Ok(news) = driver.news(tenant, MOST_TOLD) else {
        return;
    };
    for waiting in news.as_slice() {
        warn!(told; "tenant {}: {}", tenant.as_str(), Why(*waiting));
    }
}

/// Tells what the driver did, and which letters still wait.
pub fn tell_driven<L: Log>(told: &L, driver: &Driver) {
    tell_done(told, driver.done());
    tell_waiting(told, driver);
}

/// What two drivers did together.
pub fn total(one: Done, other: Done) -> Done {
    Done {
        deliveries: one.deliveries.saturating_add(other.deliveries),
        flushes: one.flushes.saturating_add(other.flushes),
        notices: one.notices.saturating_add(other.notices),
        releases: one.releases.saturating_add(other.releases),
        outputs: one.outputs.saturating_add(other.outputs),
    }
}

/// Tells what was driven.
pub fn tell_done<L: Log>(told: &L, done: Done) {
    let Done {
        deliveries,
        flushes,
        notices,
        releases,
        outputs,
    } = done;
    let outputs = Plural(outputs, "output");
    info!(told; "the driver gave: deliver {deliveries}, flush {flushes}, notice {notices}, release {releases}; {outputs} left");
}

/// Tells which letters of a driver's tenants still wait.
pub fn tell_waiting<L: Log>(told: &L, driver: &Driver) {
    for (tenant, flow) in driver.flows() {
        tell_waiting_of(told, tenant, flow);
    }
}

/// Tells how many letters of a tenant wait, and the first of them.
fn tell_waiting_of<L: Log>(told: &L, tenant: &TenantName, flow: &Flow) {
    let count = flow.waiting_count() as u64;
    if let Some(first) = flow.first_waiting() {
        warn!(told; "tenant {}: {} not delivered; {}", tenant.as_str(), Plural(count, "letter"), Why(first));
    }
}
