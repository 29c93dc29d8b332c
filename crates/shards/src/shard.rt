//! One shard: a host, the steps that are dealt to it, and their answers.

ghost use Rattle.std.specs.Prelude.{◌≡◌, ◌∷◌, ◌++◌, [], ℕ, List, OnOk, OnErr};
ghost use Rattle.shards.specs.Blocks.{RanShard, Tells, TellsMore};

use crate::stepping::{answer_step, pass_step};
use book::Host;
use driver::Driver;
use handler::Handler;
use model::{AddressedStep, NoMemory};
use shared_log::Store;
use std::alloc::Global;
use std::collections::VecDeque;

/// A host and what its driver remembers, the steps that are dealt to it and not done yet, and the answers of those that
/// were done: their bytes behind one another, and how long each is.
#[derive(Drop)]
pub(crate) struct Shard<H: Handler, S: Store> {
    alloc: Global,
    pub host: Host<H, S>,
    pub driver: Driver,
    pub steps: VecDeque<AddressedStep>,
    pub bytes: Vec<u8>,
    pub lens: Vec<usize>,
    text: Vec<u8>,
}

impl<H: Handler, S: Store> Shard<H, S> {
    /// A shard over a host, with no steps.
    pub(crate) fn new(alloc: Global, host: Host<H, S>) -> Shard<H, S>
        ensures host { result.host ≡ host }
        ensures steps { result.steps.items ≡ [] }
    {
        Shard {
            alloc,
            host,
            driver: Driver::new(alloc),
            steps: VecDeque::new(alloc),
            bytes: Vec::new(alloc),
            lens: Vec::new(alloc),
            text: Vec::new(alloc),
        }
    }

    /// Takes one step more, to be done behind the others. Where there is no memory for it, it is gone.
    pub(crate) fn take(&mut self, step: AddressedStep) -> Result<(), NoMemory>
        ensures host { self.new.host ≡ self.old.host }
        ensures ok { OnOk result (self.new.steps.items ≡ self.old.steps.items ++ step ∷ []) }
        ensures err { OnErr result (self.new.steps.items ≡ self.old.steps.items) }
    {
        self.steps.push_back(step)?;
        Ok(())
    }

    /// Does all steps, in order. Where there is no memory for an answer, the steps behind it are done too, and their
    /// answers are left out.
    pub(crate) fn run(&mut self, drives: bool)
        ensures ran { RanShard (Tells H.meaning drives) self.old.steps.items self.old.host self.new.host
            self.new.bytes.items self.new.lens.items }
        ensures steps { self.new.steps.items ≡ [] }
    {
        self.bytes.clear();
        self.lens.clear();
        let mut is_full = false;
        while let Some(step) = self.steps.pop_front() {
            self.answer(step, drives, &mut is_full);
        }
    }

    /// Does one step, and adds its answer where there was memory for those before it.
    fn answer(&mut self, step: AddressedStep, drives: bool, is_full: &mut bool)
        ensures steps { self.new.steps.items ≡ self.old.steps.items }
        ensures done { (answer : List ℕ) × Tells H.meaning drives self.old.host step answer self.new.host
            × TellsMore is_full.old is_full.new answer
            self.old.bytes.items self.old.lens.items self.new.bytes.items self.new.lens.items }
    {
        if *is_full {
            pass_step(&mut self.host, step);
        } else if self.lens.reserve(1).is_err() {
            *is_full = true;
            pass_step(&mut self.host, step);
        } else {
            let before = self.bytes.as_slice().len();
            match answer_step(
                self.alloc,
                &mut self.host,
                &mut self.driver,
                &mut self.text,
                &mut self.bytes,
                step,
                drives,
            ) {
                Ok(()) => {
                    let all = self.bytes.as_slice().len();
                    self.lens.push_reserved(all.saturating_sub(before));
                }
                Err(_) => *is_full = true,
            }
        }
    }
}
