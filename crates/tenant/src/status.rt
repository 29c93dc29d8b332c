//! The step `status`.

ghost use Rattle.std.specs.Prelude.{◌≡◌, ℕ, List, Option};
ghost use Rattle.model.specs.Steps.{status as status_of};
ghost use Rattle.model.specs.World.{World};
ghost use Rattle.model.specs.declared.records.Record.{Record};
ghost use Rattle.model.specs.declared.replies.Reply.TheVariants.{Status};
ghost use Rattle.tenant.specs.Outcomes.{IsPlain};
ghost use Rattle.tenant.specs.Represents.{Does};
ghost use Rattle.tenant.specs.Stands.{Stands};

use crate::answer::Answer;
use crate::tenant::Tenant;
use handler::Handler;
use model::{Mark, Refusal, Reply, Unit};

/// What a unit is at.
#[derive(Clone, Copy)]
struct Standing {
    at: Mark,
    held: u64,
    known: u64,
    outside: u64,
    released: u64,
    rows: u64,
    stable: u64,
    up: bool,
    volatile: u64,
}

impl Standing {
    fn reply(&self) -> Reply
        ensures { result ≡ Status self.now.up self.now.at self.now.held self.now.known self.now.outside
            self.now.released self.now.rows self.now.stable self.now.volatile }
    {
        Reply::Status {
            at: self.at,
            held: self.held,
            known: self.known,
            outside: self.outside,
            released: self.released,
            rows: self.rows,
            stable: self.stable,
            up: self.up,
            volatile: self.volatile,
        }
    }
}

impl<H: Handler> Tenant<H> {
    /// What a unit is at, as the step `status` tells it. Takes no memory. For writers of another host: a book gives
    /// the step.
    pub fn status(&self, unit: Unit) -> Reply
        ensures { (name : List ℕ) (w : World) (records : List (Option Record))
            → Stands H.meaning name self.now w records → result ≡ (status_of H.meaning w unit).reply }
    {
        self.answer_status(unit).into_reply()
    }

    /// The same, as an answer.
    pub(crate) fn answer_status(&self, unit: Unit) -> Answer
        ensures done { Does H.meaning (λ w. status_of H.meaning w unit) self.now result.reply self.now }
        ensures plain { IsPlain result }
    {
        let member = match self.member(unit) {
            Some(member) => member,
            None => return Answer::refused(Refusal::NoUnit),
        };
        let standing = Standing {
            at: member.last_mark(unit),
            held: member.held_count() as u64,
            known: member.known() as u64,
            outside: member.outside(),
            released: self.released_count(unit),
            rows: self.rows() as u64,
            stable: member.stable_count().saturating_sub(1),
            up: member.is_up(),
            volatile: member.volatile_count() as u64,
        };
        Answer::quiet(standing.reply())
    }
}
