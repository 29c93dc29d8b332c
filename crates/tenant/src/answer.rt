//! What a step is answered.

ghost use Rattle.std.specs.Prelude.{◌≡◌, IfOk};
ghost use Rattle.model.specs.Records.{quiet as quiet_said};
ghost use Rattle.tenant.specs.Answers.{Answer as AnswerOf, IsSpareOf, spare_none};
ghost use Rattle.tenant.specs.Outcomes.{IsPlain, failing};
ghost use Rattle.model.specs.declared.refusals.Refusal.TheVariants.{Store};
ghost use Rattle.model.specs.declared.replies.Reply.TheVariants.{Accepted, Refused};

use model::{End, Letters, Mark, NoMemory, Refusal, Reply, Said, Texts};
use std::alloc::Global;
use std::marker::Model;

/// What an equal reply needs that a copy may not find: a second hold of a list that lies in memory. Every other part of
/// a reply is copied without memory.
#[derive(Drop)]
pub(crate) enum Spare {
    Nothing,
    Letters(Letters),
    Outputs(Texts),
}

impl Spare {
    /// What a reply equal to this one needs.
    ///
    /// # Errors
    ///
    /// `NoMemory` where there are 2^63 - 1 holds of its list already.
    fn of(alloc: Global, reply: &Reply) -> Result<Spare, NoMemory>
        ensures { IfOk result (λ spare. IsSpareOf spare reply.now) }
    {
        match reply {
            Reply::Accepted { letters, .. } => Ok(Spare::Letters(letters.copy(alloc)?)),
            Reply::Released { outputs } => Ok(Spare::Outputs(outputs.copy()?)),
            _ => Ok(Spare::Nothing),
        }
    }

    /// The equal reply. Takes no memory.
    fn into_equal(self, reply: &Reply) -> Reply
        requires { IsSpareOf self reply.now }
        ensures { result ≡ reply.now }
    {
        match reply {
            Reply::Opened { units } => Reply::Opened { units: *units },
            Reply::Joined { unit } => Reply::Joined { unit: *unit },
            Reply::Accepted { at, held, .. } => match self {
                Spare::Letters(letters) => Reply::Accepted {
                    at: *at,
                    held: *held,
                    letters,
                },
                _ => unreachable!(),
            },
            Reply::Flushed { count } => Reply::Flushed { count: *count },
            Reply::Checkpointed { at } => Reply::Checkpointed { at: *at },
            Reply::Killed { lost } => Reply::Killed { lost: *lost },
            Reply::Restarted { row } => Reply::Restarted { row: *row },
            Reply::Noticed { row } => Reply::Noticed { row: *row },
            Reply::Released { .. } => match self {
                Spare::Outputs(outputs) => Reply::Released { outputs },
                _ => unreachable!(),
            },
            Reply::Status {
                at,
                held,
                known,
                outside,
                released,
                rows,
                stable,
                up,
                volatile,
            } => Reply::Status {
                at: *at,
                held: *held,
                known: *known,
                outside: *outside,
                released: *released,
                rows: *rows,
                stable: *stable,
                up: *up,
                volatile: *volatile,
            },
            Reply::Stopped { count, refusal } => Reply::Stopped {
                count: *count,
                refusal: *refusal,
            },
            Reply::Refused { refusal } => Reply::Refused { refusal: *refusal },
        }
    }
}

/// What the store said during a step, and the reply. It is made before the step changes anything, with what an equal
/// reply needs, which whoever keeps a history asks for once the step is done.
#[derive(Drop)]
pub struct Answer {
    pub(crate) said: Said,
    pub(crate) reply: Reply,
    pub(crate) spare: Spare,
}

impl Model for Answer {
    ghost use Rattle.tenant.specs.Answers.{Answer as AnswerOf, IsSpareOf};

    ghost Value = { AnswerOf };

    ghost view = { λ a. record { said = a.said; reply = a.reply } };

    ghost invariant = { λ a. IsSpareOf a.spare a.reply };
}

/// The store was not asked.
pub(crate) fn quiet() -> Said
    ensures { result ≡ quiet_said }
{
    Said {
        appended: 0,
        end: End::Whole,
    }
}

impl Answer {
    /// The answer of a step that does not touch the store.
    ///
    /// # Errors
    ///
    /// `NoMemory` where an equal reply could find none.
    pub(crate) fn plain(alloc: Global, reply: Reply) -> Result<Answer, NoMemory>
        ensures { IfOk result (λ a. (a.reply ≡ reply) × IsPlain a) }
    {
        let spare = Spare::of(alloc, &reply)?;
        Ok(Answer {
            said: quiet(),
            reply,
            spare,
        })
    }

    /// The answer of this reply, which holds no list, after what the store said.
    pub(crate) fn small(said: Said, reply: Reply) -> Answer
        requires { IsSpareOf spare_none reply }
        ensures { result ≡ record { said = said; reply = reply } }
    {
        Answer {
            said,
            reply,
            spare: Spare::Nothing,
        }
    }

    /// The same of a step that does not touch the store.
    pub(crate) fn quiet(reply: Reply) -> Answer
        requires { IsSpareOf spare_none reply }
        ensures reply { result.reply ≡ reply }
        ensures plain { IsPlain result }
    {
        Answer::small(quiet(), reply)
    }

    /// The step is refused.
    pub fn refused(refusal: Refusal) -> Answer
        ensures reply { result.reply ≡ Refused refusal }
        ensures plain { IsPlain result }
    {
        Answer::quiet(Reply::Refused { refusal })
    }

    /// The step is refused, since the store was asked for a record and its device failed.
    pub(crate) fn device_failed() -> Answer
        ensures reply { result.reply ≡ Refused Store }
        ensures said { result.said ≡ failing }
    {
        let said = Said {
            appended: 0,
            end: End::Device,
        };
        Answer::small(
            said,
            Reply::Refused {
                refusal: Refusal::Store,
            },
        )
    }

    /// What the store said.
    pub fn said(&self) -> Said
        ensures { result ≡ self.now.said }
    {
        self.said
    }

    /// The reply.
    pub fn into_reply(self) -> Reply
        ensures { result ≡ self.reply }
    {
        let Answer { reply, .. } = self;
        reply
    }

    /// The reply, and one equal to it. Takes no memory.
    pub fn into_both(self) -> (Reply, Reply)
        ensures { (result.0 ≡ self.reply) × (result.1 ≡ self.reply) }
    {
        let Answer { reply, spare, .. } = self;
        let equal = spare.into_equal(&reply);
        (reply, equal)
    }
}

/// The answer to a receipt, in few bytes until it is given: the mark of the new interval, the outputs then held, and
/// the letters that it made, with a second hold of them.
#[derive(Drop)]
pub(crate) struct PendingAccept {
    pub(crate) at: Mark,
    pub(crate) held: u64,
    pub(crate) letters: Letters,
    pub(crate) spare: Letters,
}

impl Model for PendingAccept {
    ghost use Rattle.std.specs.Prelude.{◌≡◌};
    ghost use Rattle.model.specs.Records.{quiet};
    ghost use Rattle.model.specs.declared.replies.Reply.TheVariants.{Accepted};
    ghost use Rattle.tenant.specs.Answers.{Answer as AnswerOf};

    ghost Value = { AnswerOf };

    ghost view = { λ a. record { said = quiet; reply = Accepted a.at a.held a.letters } };

    ghost invariant = { λ a. a.spare ≡ a.letters };
}
