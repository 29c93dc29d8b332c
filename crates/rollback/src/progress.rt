//! How far a unit has come.

ghost use Rattle.std.specs.Prelude.{◌≡◌, ◌<◌, ℕ, IfOk, OnErr, Some, nat_lt};
ghost use Rattle.std.specs.Prelude.{option_map};
ghost use Rattle.std.specs.List.{filter};
ghost use Rattle.session.specs.Counts.{advanced, widened_counts};
ghost use Rattle.layer_laws.specs.Laws.{sent_all};
ghost use Rattle.compact.specs.Compact.{Progress as ProgressOf, fitted};
ghost use Rattle.compact.specs.Steps.{first_progress};

use handler::Handler;
use model::{NoMemory, Seat, Source, Text, Unit};
use session::Sessions;
use std::alloc::Global;
use std::marker::Model;

/// The state of a unit after an interval, and what it took and sent up to there.
#[derive(Drop)]
pub struct Progress<S> {
    pub state: S,
    pub sessions: Sessions,
}

impl<S> Model for Progress<S> {
    ghost use Rattle.compact.specs.Compact.{Progress as ProgressOf};

    ghost Value = { ProgressOf S };

    ghost view = { λ p. record { state = p.state; sessions = p.sessions } };
}

/// The progress of a unit at its beginning, in a tenant of so many units.
pub(crate) fn begin<H: Handler>(
    alloc: Global,
    handler: &H,
    seat: Seat,
    width: usize,
) -> Result<Progress<H::State>, NoMemory>
    ensures { IfOk result (λ p. p ≡ first_progress H.meaning width seat) }
{
    let state = handler.begin(alloc, seat)?;
    let sessions = Sessions::new(alloc, width)?;
    Ok(Progress { state, sessions })
}

/// An equal progress.
pub(crate) fn copy<H: Handler>(
    alloc: Global,
    handler: &H,
    progress: &Progress<H::State>,
) -> Result<Progress<H::State>, NoMemory>
    ensures { IfOk result (λ p. p ≡ progress.now) }
{
    let state = handler.copy(alloc, &progress.state)?;
    let sessions = progress.sessions.copy()?;
    Ok(Progress { state, sessions })
}

/// Counts one receipt from the source, and those sends of its turn that are to units within the width.
///
/// # Errors
///
/// `NoMemory` where they can't be counted; the counts stay as they were.
#[tactic(auto, using(crate::proofs::Sends::room_after_receipt, crate::proofs::Sends::room_left, compact::proofs::Received::length_advanced))]
pub(crate) fn count_receipt(
    sessions: &mut Sessions,
    source: &Source,
    sends: &[(Unit, Text)],
    width: usize,
) -> Result<(), NoMemory>
    ensures ok { IfOk result (λ _.
        sessions.new ≡ sent_all (advanced sessions.old source.now) (filter (λ s. nat_lt s.0 width) sends.now)) }
    ensures err { OnErr result (sessions.new ≡ sessions.old) }
{
    if width > sessions.len() || !sessions.has_room(*source, sends.len()) {
        return Err(NoMemory);
    }
    sessions.advance(*source);
    for send in sends {
        if usize::from(send.0.number()) < width {
            sessions.sent(send.0);
        }
    }
    Ok(())
}

/// Adds entries to the progress, where there is one. Where that finds no memory, it stays.
pub(crate) fn widen<S: Drop>(progress: &mut Option<Progress<S>>, n: usize) -> Result<(), NoMemory>
    ensures ok { IfOk result (λ _. progress.new ≡ option_map (fitted n) progress.old) }
    ensures err { OnErr result (progress.new ≡ progress.old) }
{
    match progress {
        Some(progress) => progress.sessions.widen(n),
        None => Ok(()),
    }
}

/// What was taken and sent with entries for `n` units, where there is a progress.
pub(crate) fn widened_sessions<S>(
    progress: &Option<Progress<S>>,
    n: usize,
) -> Result<Option<Sessions>, NoMemory>
    ensures { IfOk result (λ sessions. sessions ≡ option_map (λ p. widened_counts p.sessions n) progress.now) }
{
    match progress {
        Some(progress) => {
            let mut sessions = progress.sessions.copy()?;
            sessions.widen(n)?;
            Ok(Some(sessions))
        }
        None => Ok(None),
    }
}

/// Puts these sessions in the place of the progress's own. Takes no memory.
pub(crate) fn fit<S: Drop>(progress: &mut Option<Progress<S>>, sessions: Option<Sessions>)
    ensures { (n : ℕ) → sessions ≡ option_map (λ p. widened_counts p.sessions n) progress.old
        → progress.new ≡ option_map (fitted n) progress.old }
{
    match progress {
        Some(progress) => match sessions {
            Some(sessions) => progress.sessions = sessions,
            None => {}
        },
        None => {}
    }
}
