//! On how many cores tenants are stepped.

use crate::program_run::Terminals;
use log::{Log, warn};
use std::thread::{Threads, available_parallelism};
use words::RunWords;

/// How many cores a run takes: as many as it is asked for; else as many as the machine lets it have, and one where
/// lines come from a terminal. What needs one history or one log takes one, and says so where more are asked for.
pub(crate) fn cores_for<R: Threads, L: Log>(
    rt: &R,
    told: &L,
    terminals: Terminals,
    run: &RunWords<'_>,
    has_snapshots: bool,
) -> usize {
    match (run.cores, word_for_one(run, has_snapshots)) {
        (None | Some(1), Some(_)) => 1,
        (Some(_), Some(word)) => {
            warn!(told; "one core is used: {word} takes the steps of all tenants in one order");
            1
        }
        (Some(asked), None) => usize::try_from(asked).unwrap_or(1),
        (None, None) => { if terminals.input { 1 } else { cores_there(rt) } }
    }
}

/// The word beside which one core is used, where there is one.
fn word_for_one(run: &RunWords<'_>, has_snapshots: bool) -> Option<&'static str> {
    if run.log.is_some() {
        Some("--log")
    } else if run.audit {
        Some("--audit")
    } else if run.explain {
        Some("--explain")
    } else if has_snapshots {
        Some("a snapshot")
    } else {
        None
    }
}

/// How many cores the machine lets the program have; one where that isn't known.
fn cores_there<R: Threads>(rt: &R) -> usize {
    match available_parallelism(rt) {
        Ok(count) => count.get(),
        Err(_) => 1,
    }
}
