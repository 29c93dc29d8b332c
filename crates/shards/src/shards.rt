//! Hosts to which tenants are dealt.

ghost use Rattle.std.specs.Prelude.{◌≡◌, ◌∷◌, ◌++◌, [], IfOk, OnOk, OnErr, MatchOption, None, Some, length, slice_get};

use crate::shard::Shard;
use book::Host;
use driver::Driver;
use handler::Handler;
use model::NoMemory;
use shared_log::Store;
use std::alloc::Global;
use std::marker::Model;
use std::mem;

/// Hosts, one at least, to which tenants are dealt by their names. Contracts see the list of the hosts: which book
/// they stand for together says `AreShardsOf`.
#[derive(Drop)]
pub struct Shards<H: Handler, S: Store> {
    alloc: Global,
    pub(crate) shards: Vec<Shard<H, S>>,
}

impl<H: Handler, S: Store> Model for Shards<H, S> {
    ghost use Rattle.std.specs.Prelude.{◌<◌, List, length, map};
    ghost use Rattle.book.specs.Standing.{HostState};
    ghost use Rattle.shards.specs.Blocks.{AreIdle};

    ghost Value = { List (HostState H.State) };

    ghost view = { λ s. map (λ x. x.host) s.shards.items };

    ghost invariant = { λ s. (0 < length s.shards.items) × AreIdle (map (λ x. x.steps.items) s.shards.items) };
}

impl<H: Handler, S: Store> Shards<H, S> {
    /// One shard, over this host. `NoMemory` comes where there is none for the list.
    pub fn new(alloc: Global, host: Host<H, S>) -> Result<Shards<H, S>, NoMemory>
        ensures { IfOk result (λ s. s ≡ host ∷ []) }
    {
        let mut shards = Vec::new(alloc);
        shards.push(Shard::new(alloc, host))?;
        Ok(Shards { alloc, shards })
    }

    /// One shard more, over this host. From then on tenants are dealt otherwise: add all hosts before the first line.
    /// `NoMemory` comes where there is none for the list; the host is gone then.
    pub fn add(&mut self, host: Host<H, S>) -> Result<(), NoMemory>
        ensures ok { OnOk result (self.new ≡ self.old ++ host ∷ []) }
        ensures err { OnErr result (self.new ≡ self.old) }
    {
        let shard = Shard::new(self.alloc, host);
        self.shards.push(shard)?;
        Ok(())
    }

    /// Leaves it as it is, where the process ends with it: to let go of all that it keeps takes a while.
    pub fn forget(self) {
        mem::forget(self);
    }

    /// How many there are.
    pub fn len(&self) -> usize
        ensures { result ≡ length self.now }
    {
        self.shards.len()
    }

    /// The host of one of them, from 0.
    pub fn host(&self, at: usize) -> Option<&Host<H, S>>
        ensures { MatchOption result (slice_get self.now at ≡ None) (λ h. slice_get self.now at ≡ Some h.now) }
    {
        match self.shards.get(at) {
            Some(shard) => Some(&shard.host),
            None => None,
        }
    }

    /// What carries on behind the lines of one of them, from 0, where they are driven.
    pub fn driver(&self, at: usize) -> Option<&Driver> {
        match self.shards.get(at) {
            Some(shard) => Some(&shard.driver),
            None => None,
        }
    }
}
