//! What one thread does: the steps of a feed, or the flushes of the logger.

use crate::gate::Gate;
use book::{Book, Committed};
use crossbeam_channel::{Receiver, Sender};
use handler::Handler;
use model::{NoMemory, Refusal, Reply, Step, TenantName, Unit, Who};
use shared_log::Store;
use std::alloc::Global;
use std::sync::{Mutex, Wait};

/// How often a step is tried by a turn that was worked outside the lock.
const TRIES: u32 = 3;

/// A unit that has something to log.
#[derive(Drop)]
pub(crate) struct Nudge {
    tenant: TenantName,
    unit: Unit,
}

/// Flushes each unit that is named, until nobody is left who could name one.
pub(crate) fn log_named<R: Wait, H: Handler, S: Store>(
    rt: &R,
    shared: &Mutex<Book<H, S>>,
    nudges: Receiver<Nudge>,
) {
    for _ in rt.forever() {
        let Ok(nudge) = nudges.recv(rt) else {
            break;
        };
        let Nudge { tenant, unit } = nudge;
        let _reply = shared
            .lock(rt)
            .step_as(Who::Logger, Step::Flush { tenant, unit });
    }
}

/// What the thread of a feed works with.
#[derive(Drop)]
pub(crate) struct Job<'a, H: Handler, S: Store, G> {
    pub alloc: Global,
    pub handler: H,
    pub shared: &'a Mutex<Book<H, S>>,
    pub gate: &'a G,
    pub nudges: Sender<Nudge>,
    pub feed: u32,
    pub steps: &'a [Step],
}

/// Whether there was no memory for a feed's step.
fn is_forgone(reply: &Reply) -> bool {
    matches!(
        reply,
        Reply::Refused {
            refusal: Refusal::Memory
        } | Reply::Stopped {
            refusal: Refusal::Memory,
            ..
        }
    )
}

/// The unit that takes the step's receipt: the one that a post names, or else the one whose turn was
/// asked for.
fn receiver_of(step: &Step, asked: Option<Unit>) -> Option<Unit> {
    match step {
        Step::Post { unit, .. } => Some(*unit),
        _ => asked,
    }
}

impl<'a, H: Handler, S: Store, G: Gate> Job<'a, H, S, G> {
    /// Does the steps of the feed in order, and gives the reply to each as its receipt.
    pub(crate) fn run<R: Wait>(self, rt: &R) -> Result<Vec<Reply>, NoMemory> {
        let mut receipts = Vec::new(self.alloc);
        let mut at = 0u32;
        for step in self.steps {
            let (reply, asked) = self.do_step(rt, at, step)?;
            self.gate.after(self.feed, at);
            if is_forgone(&reply) {
                return Err(NoMemory);
            }
            self.nudge(rt, step, &reply, asked);
            receipts.push(reply)?;
            at = at.wrapping_add(1);
        }
        Ok(receipts)
    }

    /// Does one step, and tells whose turn was asked for last, if one was. Each lock ends with its
    /// statement, so that the turn is worked outside it.
    fn do_step<R: Wait>(
        &self,
        rt: &R,
        at: u32,
        step: &Step,
    ) -> Result<(Reply, Option<Unit>), NoMemory> {
        let who = Who::Feed {
            feed: self.feed,
            at,
        };
        let mut own = step.copy()?;
        let mut asked = None;
        for _ in 0..TRIES {
            let prepared = self.shared.lock(rt).prepare(&own)?;
            let Some(ask) = prepared else {
                break;
            };
            asked = Some(ask.seat().unit);
            self.gate.before(self.feed, at);
            let worked = ask.work(self.alloc, &self.handler)?;
            let committed = self.shared.lock(rt).step_with(who, own, worked);
            match committed {
                Committed::Stale(back) => own = back,
                Committed::Reply(reply) => return Ok((reply, asked)),
            }
        }
        let reply = self.shared.lock(rt).step_as(who, own);
        Ok((reply, asked))
    }

    /// Tells the logger of an accepted receipt, where it is known whose it is. A nudge that can't be
    /// sent is dropped.
    fn nudge<R: Wait>(&self, rt: &R, step: &Step, reply: &Reply, asked: Option<Unit>) {
        let Some(unit) = receiver_of(step, asked) else {
            return;
        };
        if let Reply::Accepted { .. } = reply {
            let tenant = step.tenant().copy();
            let _ = self.nudges.send(rt, Nudge { tenant, unit });
        }
    }
}
