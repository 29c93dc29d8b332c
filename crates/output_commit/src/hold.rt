//! The outputs of a unit that wait.

ghost use Rattle.std.specs.Prelude.{◌≡◌, ◌+◌, ◌-◌, ◌<◌, ◌≤◌, ◌∷◌, [], ◌++◌, IfOk, MatchOption, OnErr, Some, true};
ghost use Rattle.std.specs.Prelude.{false, length, drop, nat_lt, slice_get, None};
ghost use Rattle.std.specs.List.{prefix_len};
ghost use Rattle.output_commit.specs.Holds.{held_below, front_is_firm as is_front_firm, held_of};

use crate::held::Held;
use crate::ticket::Ticket;
use crate::view::StableView;
use model::{Mark, NoMemory, Text, Unit};
use std::alloc::Global;
use std::collections::VecDeque;
use std::marker::Model;

/// The outputs of a unit that wait until their intervals are firm, in order.
#[derive(Drop)]
pub struct Hold {
    unit: Unit,
    outputs: VecDeque<Held>,
}

impl Model for Hold {
    ghost use Rattle.std.specs.Prelude.{◌-◌};
    ghost use Rattle.std.specs.VecDeque.{deque_len, deque_capacity};
    ghost use Rattle.output_commit.specs.Holds.{HeldOutputs};

    ghost Value = { HeldOutputs };

    ghost view = { λ h. record {
      unit = h.unit;
      outputs = h.outputs.items;
      room = deque_capacity h.outputs - deque_len h.outputs;
    } };
}

impl Hold {
    /// The hold of a unit, without outputs.
    pub fn new(alloc: Global, unit: Unit) -> Hold
        ensures unit { result.unit ≡ unit }
        ensures outputs { result.outputs ≡ [] }
    {
        Hold {
            unit,
            outputs: VecDeque::new(alloc),
        }
    }

    /// How many outputs are held.
    pub fn len(&self) -> usize
        ensures { result ≡ length self.now.outputs }
    {
        self.outputs.len()
    }

    /// Which unit's outputs they are.
    pub fn unit(&self) -> Unit
        ensures { result ≡ self.now.unit }
    {
        self.unit
    }

    /// Holds one output, behind those that are held.
    ///
    /// # Errors
    ///
    /// `NoMemory` where it finds no memory; what is held stays as it was.
    pub fn push(&mut self, held: Held) -> Result<(), NoMemory>
        ensures unit { self.new.unit ≡ self.old.unit }
        ensures ok { IfOk result (λ _. self.new.outputs ≡ self.old.outputs ++ held ∷ []) }
        ensures err { OnErr result (self.new.outputs ≡ self.old.outputs) }
    {
        self.outputs.reserve(1)?;
        self.outputs.push_back_reserved(held);
        Ok(())
    }

    /// Holds the outputs of one interval, behind those that are held. For writers of another host: the tenant uses
    /// `reserve` and `add_reserved`.
    ///
    /// # Errors
    ///
    /// `NoMemory` where they find no memory; what is held stays as it was.
    pub fn add(&mut self, mark: Mark, texts: Vec<Text>) -> Result<(), NoMemory>
        ensures unit { self.new.unit ≡ self.old.unit }
        ensures ok { IfOk result (λ _. self.new.outputs ≡ self.old.outputs ++ held_of mark texts.items) }
        ensures err { OnErr result (self.new.outputs ≡ self.old.outputs) }
    {
        self.reserve(texts.len())?;
        self.add_reserved(mark, texts);
        Ok(())
    }

    /// Makes room for so many outputs more.
    ///
    /// # Errors
    ///
    /// `NoMemory` where they find no memory.
    pub fn reserve(&mut self, count: usize) -> Result<(), NoMemory>
        ensures unit { self.new.unit ≡ self.old.unit }
        ensures outputs { self.new.outputs ≡ self.old.outputs }
        ensures room { IfOk result (λ _. count ≤ self.new.room) }
    {
        self.outputs.reserve(count)?;
        Ok(())
    }

    /// Holds the outputs of one interval, for which there is room, behind those that are held. Takes no memory.
    pub fn add_reserved(&mut self, mark: Mark, texts: Vec<Text>)
        requires { length texts.items ≤ self.old.room }
        ensures unit { self.new.unit ≡ self.old.unit }
        ensures outputs { self.new.outputs ≡ self.old.outputs ++ held_of mark texts.items }
    {
        for text in texts {
            self.outputs.push_back_reserved(Held { mark, text });
        }
    }

    /// The output at this place, the first at 0. Takes no memory, and a constant time.
    pub fn at(&self, place: usize) -> Option<&Held>
        ensures { MatchOption result (slice_get self.now.outputs place ≡ None) (λ held.
            slice_get self.now.outputs place ≡ Some held.now) }
    {
        self.outputs.get(place)
    }

    /// Whether there is a first output and its interval is firm. Takes no memory, and one comparison.
    pub fn front_is_firm(&self, view: &StableView) -> bool
        requires { self.now.unit < length view.now.frontiers.now }
        ensures { result ≡ is_front_firm self.now view.now.frontiers.now }
    {
        match self.outputs.front() {
            Some(held) => u64::from(held.mark.index)
                < view.frontiers[usize::from(self.unit.number())],
            None => false,
        }
    }

    /// Takes the first output out where its interval is firm. Takes no memory, and a constant time.
    /// The ticket goes to `Outlet::emit`, or back by `put_back`.
    pub fn take_front(&mut self, view: &StableView) -> Option<Ticket>
        requires { self.old.unit < length view.now.frontiers.now }
        ensures firm { MatchOption result (is_front_firm self.old view.now.frontiers.now ≡ false) (λ t.
            is_front_firm self.old view.now.frontiers.now ≡ true) }
        ensures none { MatchOption result (self.new ≡ self.old) (λ t. t.unit ≡ self.old.unit) }
        ensures some { MatchOption result (self.new ≡ self.old) (λ t. (self.old.outputs ≡ t.output ∷ self.new.outputs)
            × (self.new.unit ≡ self.old.unit) × (0 < self.new.room)) }
    {
        if !self.front_is_firm(view) {
            return None;
        }
        let unit = self.unit;
        match self.outputs.pop_front() {
            Some(output) => Some(Ticket::new(unit, output)),
            None => None,
        }
    }

    /// Makes the output of a ticket the first one again. Takes no memory.
    pub fn put_back(&mut self, ticket: Ticket)
        requires own { ticket.unit ≡ self.old.unit }
        requires room { 0 < self.old.room }
        ensures { self.new ≡ record {
          unit = self.old.unit;
          outputs = ticket.output
              ∷ self.old.outputs;
          room = self.old.room - 1;
        } }
    {
        self.outputs.push_front_reserved(ticket.into_output());
    }

    /// Gives up the outputs from the first one on whose interval is not below the index. Takes no
    /// memory. Indices rise along a path, so these are all that are not below it.
    pub fn cut(&mut self, index: u32)
        ensures unit { self.new.unit ≡ self.old.unit }
        ensures outputs { self.new.outputs ≡ held_below self.old.outputs index }
    {
        let kept = count_below(&self.outputs, index);
        self.outputs.truncate(kept);
    }
}

/// How many outputs at the front are of intervals below the index.
fn count_below(outputs: &VecDeque<Held>, index: u32) -> usize
    ensures { result ≡ prefix_len (λ o. nat_lt o.mark.index index) outputs.now.items }
{
    for at in 0..outputs.len() {
        if outputs[at].mark.index >= index {
            return at;
        }
    }
    outputs.len()
}
