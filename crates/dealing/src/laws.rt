//! What a run by several hosts is.

ghost use Rattle.dealing.specs.Dealing.{DealtLinesServe, ShardsRun};

use handler::Handler;

/// Where the step of each line is done by the host that its tenant is dealt to, and the other hosts stay, the hosts
/// serve the lines together: whichever book they stood for, it gives these replies, and they stand for it then.
pub fn dealt_lines_serve<H: Handler>()
    ensures { DealtLinesServe H.meaning }
{}

/// A run, as a whole. Of new hosts, one at least, that were served lines together there is a book that began with an
/// empty history, was served the lines with these replies, and for which they stand then: its history is legal, and
/// what the stores said in it is honest. So `book::headline`, `journal::repeats` and `journal::goes_on` hold of it,
/// whatever the number of hosts.
pub fn shards_run<H: Handler>()
    ensures { ShardsRun H.meaning }
{}
