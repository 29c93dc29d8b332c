//! What a run of driven hosts is.

ghost use Rattle.shards.specs.Driven.{DrivenRun};

use handler::Handler;

/// A run, as a whole. Of new hosts, one at least, that were driven together there is a book that began with an empty
/// history, was driven by the lines with these rounds, and for which they stand then: its history is legal, what the
/// stores said in it is honest, and for each unit the outputs that were told are in order exactly those that it
/// released. So the headline holds of them, whatever the number of hosts.
pub fn driven_run<H: Handler>()
    ensures { DrivenRun H.meaning }
{}
