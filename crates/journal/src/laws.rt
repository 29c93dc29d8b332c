//! What a run that steps the lines of an earlier one answers.

ghost use Rattle.journal.specs.GoingOn.{GoesOn, HostRuns, HostsGoOn, HostsRepeat, Repeats};
ghost use Rattle.journal.specs.Promises.{MemoryIsTold};

use handler::Handler;

/// Two new books that are served the same lines, and whose replies tell of no memory that was missing
/// and of no device that failed, give the same replies. So what a run that was ended had answered is
/// what a later run on its lines answers, and no output leaves that hadn't.
pub fn repeats<H: Handler>()
    ensures { Repeats H.meaning }
{}

/// Of any lines that are cut anywhere in two: the replies to the second part by a book that has
/// stepped the first are the replies to the whole without those to the first. So nothing is answered
/// twice or lost, and no output leaves twice for whoever counts replies.
pub fn goes_on<H: Handler>()
    ensures { GoesOn H.meaning }
{}

/// A run, as a whole. Of each new host that was served lines there is a book that began with an empty history, was
/// served them with these replies, and for which the host stands then: its history is legal, and what the store said
/// in it is honest. So what is said of books holds of the replies of hosts, which store no history.
pub fn host_runs<H: Handler>()
    ensures { HostRuns H.meaning }
{}

/// `repeats`, of two new hosts.
pub fn hosts_repeat<H: Handler>()
    ensures { HostsRepeat H.meaning }
{}

/// `goes_on`, of hosts.
pub fn hosts_go_on<H: Handler>()
    ensures { HostsGoOn H.meaning }
{}

/// Each reply that tells of missing memory has a line that `DurableReplies` refuses.
pub fn memory_is_told()
    ensures { MemoryIsTold }
{}
