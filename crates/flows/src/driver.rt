//! What the driver remembers between two lines.

ghost use Rattle.std.specs.Prelude.{◌≡◌};

use crate::chore::Chore;
use crate::flow::{Flow, Waiting};
use indexmap::IndexMap;
use model::{Letter, NoMemory, Refusal, Reply, TenantName, TenantStep, Unit};
use std::alloc::Global;
use std::mem;

/// How much the driver did.
#[derive(Clone, Copy, Debug, PartialEq, Eq)]
pub struct Done {
    /// Deliveries, those that were refused among them.
    pub deliveries: u64,
    pub flushes: u64,
    pub notices: u64,
    pub releases: u64,
    /// Texts that left by its releases.
    pub outputs: u64,
}

/// What the driver remembers between two lines. After a fault it isn't to be used again: a new one is driven over the
/// same lines.
#[derive(Drop)]
pub struct Driver {
    alloc: Global,
    pub(crate) flows: IndexMap<TenantName, Flow>,
    pub(crate) done: Done,
}

/// The tenant and the unit that a line's step is about.
#[derive(Drop)]
pub struct Subject {
    pub tenant: TenantName,
    pub unit: Option<Unit>,
}

/// What a step of the tenant of this name is about. A delivery is about the letter's receiver.
pub fn subject_of<B, G: Fn(&B, &TenantName, Letter) -> Option<Unit>>(
    book: &B,
    receiver: &G,
    tenant: &TenantName,
    step: &TenantStep,
) -> Subject
    requires { G.IsAlwaysCallable receiver.now }
    ensures { result.tenant ≡ tenant.now }
{
    let unit = match step {
        TenantStep::Open { .. } | TenantStep::Join { .. } => None,
        TenantStep::Post { unit, .. }
        | TenantStep::Flush { unit }
        | TenantStep::Checkpoint { unit }
        | TenantStep::Kill { unit }
        | TenantStep::Restart { unit }
        | TenantStep::Notice { unit }
        | TenantStep::Release { unit }
        | TenantStep::Status { unit } => Some(*unit),
        TenantStep::Deliver { letter } => receiver(book, tenant, *letter),
    };
    Subject {
        tenant: tenant.copy(),
        unit,
    }
}

/// Why the step was refused, if it was.
pub fn refusal_of(reply: &Reply) -> Option<Refusal> {
    match reply {
        Reply::Refused { refusal } | Reply::Stopped { refusal, .. } => Some(*refusal),
        _ => None,
    }
}

/// Takes in what a step about this unit was answered.
///
/// # Errors
///
/// `NoMemory` where a letter finds none.
pub fn hear<B, G: Fn(&B, &TenantName, Letter) -> Option<Unit>>(
    flow: &mut Flow,
    book: &B,
    receiver: &G,
    tenant: &TenantName,
    unit: Unit,
    reply: &Reply,
) -> Result<(), NoMemory>
    requires { G.IsAlwaysCallable receiver.now }
{
    match reply {
        Reply::Accepted { held, letters, .. } => {
            flow.take(unit, *held);
            for letter in letters.as_slice() {
                if let Some(to) = receiver(book, tenant, *letter) {
                    flow.send(*letter, to)?;
                }
            }
            Ok(())
        }
        Reply::Flushed { .. } => {
            flow.log(unit);
            Ok(())
        }
        Reply::Released { outputs } => {
            flow.release(unit, outputs.as_slice().len() as u64);
            Ok(())
        }
        Reply::Killed { .. } => {
            flow.kill(unit);
            Ok(())
        }
        Reply::Restarted { .. } => flow.restart(unit),
        _ => Ok(()),
    }
}

impl Done {
    /// Nothing yet.
    pub fn none() -> Done {
        Done {
            deliveries: 0,
            flushes: 0,
            notices: 0,
            releases: 0,
            outputs: 0,
        }
    }

    /// One step more.
    pub fn count(&mut self, chore: &Chore, outputs: usize) {
        let count = match chore {
            Chore::Deliver { .. } => &mut self.deliveries,
            Chore::Flush { .. } => &mut self.flushes,
            Chore::Notice { .. } => &mut self.notices,
            Chore::Release { .. } => &mut self.releases,
        };
        *count = count.saturating_add(1);
        self.outputs = self.outputs.saturating_add(outputs as u64);
    }
}

impl Driver {
    /// A driver for a host without tenants.
    pub fn new(alloc: Global) -> Driver {
        Driver {
            alloc,
            flows: IndexMap::new(alloc),
            done: Done::none(),
        }
    }

    /// Leaves it as it is, where the process ends with it: to let go of all that it keeps takes a while.
    pub fn forget(self) {
        mem::forget(self);
    }

    /// How much it did.
    pub fn done(&self) -> Done {
        self.done
    }

    /// The tenants that are open, and what it remembers of each, in the order of opening.
    pub fn flows(&self) -> &IndexMap<TenantName, Flow> {
        &self.flows
    }

    /// The letters of a tenant that wait, or wait for another reason, since it was asked last; so many at most.
    ///
    /// # Errors
    ///
    /// `NoMemory` where their list finds none.
    pub fn news(&mut self, tenant: &TenantName, most: usize) -> Result<Vec<Waiting>, NoMemory> {
        let alloc = self.alloc;
        match self.flows.get_mut(tenant) {
            Some(flow) => flow.news(alloc, most),
            None => Ok(Vec::new(alloc)),
        }
    }

    /// What it remembers of a tenant, and the counts of what it did.
    pub fn flow_mut(&mut self, tenant: &TenantName) -> Option<(&mut Flow, &mut Done)> {
        match self.flows.get_mut(tenant) {
            Some(flow) => Some((flow, &mut self.done)),
            None => None,
        }
    }

    /// Takes in what a line's step was answered.
    ///
    /// # Errors
    ///
    /// `NoMemory` where a letter, or what is remembered of a tenant, finds none.
    pub fn hear<B, G: Fn(&B, &TenantName, Letter) -> Option<Unit>>(
        &mut self,
        book: &B,
        receiver: &G,
        subject: &Subject,
        reply: &Reply,
    ) -> Result<(), NoMemory>
        requires { G.IsAlwaysCallable receiver.now }
    {
        match reply {
            Reply::Opened { units } => self.open(&subject.tenant, *units),
            Reply::Joined { .. } => {
                if let Some(flow) = self.flows.get_mut(&subject.tenant) {
                    flow.join();
                }
                Ok(())
            }
            _ => match (self.flows.get_mut(&subject.tenant), subject.unit) {
                (Some(flow), Some(unit)) => {
                    hear(flow, book, receiver, &subject.tenant, unit, reply)
                },
                _ => Ok(()),
            },
        }
    }

    /// A tenant was opened with so many units.
    fn open(&mut self, tenant: &TenantName, count: u64) -> Result<(), NoMemory> {
        let flow = Flow::new(self.alloc, count);
        match self.flows.insert(tenant.copy(), flow) {
            Ok(_) => Ok(()),
            Err(_) => Err(NoMemory),
        }
    }
}
