//! The verdict of an audit.

ghost use Rattle.std.specs.Prelude.{◌≡◌, ◌+◌, length};
ghost use Rattle.audit.specs.Audits.{AreNumbered, joins, Audits};

use crate::moves::{make_all, workers_at};
use crate::network::Network;
use crate::outputs::first_differing;
use handler::Handler;
use model::{Flaw, Move, Seat, Texts};
use std::alloc::Global;

/// The moves are a run without failures, and what each unit puts out in it begins with what was
/// released of it.
#[derive(Clone, Copy, Debug, PartialEq, Eq)]
pub struct Verdict {
    /// How many moves the run has.
    pub moves: u64,
}

/// Audits what was released of a tenant that was opened with these seats.
///
/// The moves are to be a run without failures of units at these seats. There is a list for each
/// seat, and then one for each unit that joins, in order: what was released of the unit. A flaw is
/// the first there is. `NoMemory` says nothing of the moves and the lists.
pub fn check<H: Handler>(
    alloc: Global,
    handler: &H,
    seats: &[Seat],
    moves: &[Move],
    released: &[Texts],
) -> Result<Verdict, Flaw>
    requires seats { AreNumbered seats.now }
    requires lists { length released.now ≡ length seats.now + joins moves.now }
    ensures { Audits H.meaning seats.now moves.now released.now result }
{
    let Ok(workers) = workers_at(alloc, handler, seats) else {
        return Err(Flaw::NoMemory);
    };
    let packets = Vec::new(alloc);
    let net = make_all(handler, Network { workers, packets }, moves)?;
    match first_differing(net.workers.as_slice(), released) {
        Some(unit) => Err(Flaw::OutputsDiffer(unit)),
        None => Ok(Verdict {
            moves: moves.len() as u64,
        }),
    }
}
