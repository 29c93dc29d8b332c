//! Records by place.

ghost use Rattle.std.specs.Prelude.{◌≡◌, ◌<◌, ◌≤◌, ◌-◌, ◌/◌, ◌%◌, ◌++◌, ◌∷◌, [], ℕ, IfOk, IfErr, OnOk, OnErr};
ghost use Rattle.std.specs.Prelude.{IsSome, MatchOption, Some, None, length, replicate, slice_get, slice_set, take};
ghost use Rattle.std.specs.Prelude.{true, false};
ghost use Rattle.indexmap.specs.IndexMap.{IsUnchanged};
ghost use Rattle.shared_log.specs.Logged.{IsHeld};
ghost use Rattle.shared_log.specs.Records.{OtherPlaces, in_block, in_numbered, in_blocks};

use crate::last_name::LastName;
use crate::slot::Slot;
use indexmap::IndexMap;
use model::{NoMemory, Record};
use std::alloc::Global;
use std::marker::Model;
use std::mem;

/// How many places a block has.
const BLOCK_PLACES: u64 = 16;

/// Places one after the other: their records, or none where these were forgotten. Those past the end are empty.
#[derive(Drop)]
struct Block {
    places: Vec<Slot>,
}

impl Model for Block {
    ghost use Rattle.std.specs.Prelude.{List, Option};
    ghost use Rattle.model.specs.declared.records.Record.{Record};

    ghost Value = { List (Option Record) };

    ghost view = { λ b. b.places.items };
}

impl Block {
    fn new(alloc: Global) -> Block
        ensures { result ≡ [] }
    {
        Block {
            places: Vec::new(alloc),
        }
    }

    fn slot(&self, at: usize) -> Option<&Slot>
        ensures { MatchOption result (in_block self.now at ≡ None) (λ s. in_block self.now at ≡ s.now) }
    {
        self.places.get(at)
    }

    fn has_none(&self) -> bool
        ensures { result ≡ true → self.now ≡ [] }
    {
        self.places.is_empty()
    }

    /// Makes room for all places of a block at once, where there is none yet.
    fn make_room(&mut self) -> Result<(), NoMemory>
        ensures { self.new ≡ self.old }
    {
        if self.places.capacity() == 0 {
            self.places.reserve_exact(BLOCK_PLACES as usize)?;
        }
        Ok(())
    }

    /// Makes so many places, where there are fewer.
    fn widen(&mut self, count: usize) -> Result<(), NoMemory>
        ensures same { (at : ℕ) → in_block self.new at ≡ in_block self.old at }
        ensures long { OnOk result (count ≤ length self.new) }
    {
        for _ in self.places.len()..count {
            self.places.push(Slot::empty())?;
        }
        Ok(())
    }

    /// Puts a record into a place.
    fn put(&mut self, at: usize, slot: Slot) -> Result<(), NoMemory>
        requires { at < BLOCK_PLACES }
        ensures own { OnOk result (in_block self.new at ≡ slot) }
        ensures rest { (other : ℕ) → (other ≡ at → ⊥) → in_block self.new other ≡ in_block self.old other }
        ensures err { OnErr result ((any : ℕ) → in_block self.new any ≡ in_block self.old any) }
    {
        self.make_room()?;
        self.widen(at)?;
        if at == self.places.len() {
            self.places.push(slot)?;
            return Ok(());
        }
        self.places[at] = slot;
        Ok(())
    }

    /// Empties a place.
    fn empty(&mut self, at: usize)
        ensures own { in_block self.new at ≡ None }
        ensures rest { (other : ℕ) → (other ≡ at → ⊥) → in_block self.new other ≡ in_block self.old other }
    {
        if let Some(place) = self.places.get_mut(at) {
            *place = Slot::empty();
        }
    }

    fn ends_empty(&self) -> bool
        ensures { result ≡ true → slice_get self.now (length self.now - 1) ≡ Some None }
    {
        match self.places.last() {
            Some(place) => place.is_empty(),
            None => false,
        }
    }

    /// Takes the empty places at the end off. Places are mostly forgotten in rising order, and then
    /// the last one of a block is kept longest and the loop ends at once.
    fn trim(&mut self)
        ensures { (at : ℕ) → in_block self.new at ≡ in_block self.old at }
    {
        for _ in 0..self.places.len() {
            if !self.ends_empty() {
                return;
            }
            let _ = self.places.pop();
        }
    }
}

/// Blocks by their numbers.
type Others = IndexMap<u64, Block>;

/// Gives memory back where most of it is for blocks that are gone.
fn give_back(others: &mut Others)
    ensures { IsUnchanged others.old others.new }
{
    let used = others.len();
    if others.capacity() / 4 > used {
        others.shrink_to(used);
    }
}

/// Takes a block out.
fn take_out(others: &mut Others, number: u64) -> Block
    ensures taken { (at : ℕ) → in_block result at ≡ in_numbered others.old number at }
    ensures gone { (at : ℕ) → in_numbered others.new number at ≡ None }
    ensures rest { (other at : ℕ) → (other ≡ number → ⊥)
        → in_numbered others.new other at ≡ in_numbered others.old other at }
{
    let taken = others.swap_remove(&number);
    give_back(others);
    match taken {
        Some(block) => block,
        None => Block::new(*others.allocator()),
    }
}

/// Lays a block by, where it keeps a record. The block comes back where there is no memory for it.
fn lay_by(others: &mut Others, number: u64, block: Block) -> Result<(), Block>
    ensures laid { OnOk result ((at : ℕ) → in_numbered others.new number at ≡ in_block block at) }
    ensures rest { (other at : ℕ) → (other ≡ number → ⊥)
        → in_numbered others.new other at ≡ in_numbered others.old other at }
    ensures back { IfErr result (λ back. (at : ℕ) → in_block back at ≡ in_block block at) }
{
    let mut trimmed = block;
    trimmed.trim();
    if trimmed.has_none() {
        let _ = take_out(others, number);
        return Ok(());
    }
    match others.insert(number, trimmed) {
        Ok(_) => Ok(()),
        Err(failed) => Err(failed.value.1),
    }
}

/// Empties a place of a block, and answers whether the block keeps no record now.
fn clear_in(others: &mut Others, number: u64, at: usize) -> bool
    ensures own { in_numbered others.new number at ≡ None }
    ensures rest { OtherPlaces number at others.old others.new }
    ensures none { result ≡ true → (i : ℕ) → in_numbered others.new number i ≡ None }
{
    match others.get_mut(&number) {
        Some(block) => {
            block.empty(at);
            block.trim();
            block.has_none()
        }
        None => false,
    }
}

/// Empties a place of a block, and lets the block go where that was its last record.
fn empty_in(others: &mut Others, number: u64, at: usize)
    ensures own { in_numbered others.new number at ≡ None }
    ensures rest { OtherPlaces number at others.old others.new }
{
    if clear_in(others, number, at) {
        let _ = take_out(others, number);
    }
}

/// The number of the block that a place is in.
fn number_of(place: u64) -> u64
    ensures { result ≡ place / BLOCK_PLACES }
{
    place / BLOCK_PLACES
}

/// Where in its block a place is.
fn index_of(place: u64) -> usize
    ensures { result ≡ place % BLOCK_PLACES }
{
    (place % BLOCK_PLACES) as usize
}

/// What each place has, also those that nothing was put into yet. One block is at hand, so that an
/// append looks another up only once in 16 places.
#[derive(Drop)]
struct Blocks {
    // The block that places are put into, and its number.
    number: u64,
    current: Block,
    // The others that keep a record.
    others: Others,
}

impl Blocks {
    fn new(alloc: Global) -> Blocks
        ensures { (place : ℕ) → in_blocks result place ≡ None }
    {
        Blocks {
            number: 0,
            current: Block::new(alloc),
            others: IndexMap::new(alloc),
        }
    }

    fn slot(&self, place: u64) -> Option<&Slot>
        ensures { MatchOption result (in_blocks self.now place ≡ None) (λ s. in_blocks self.now place ≡ s.now) }
    {
        if number_of(place) == self.number {
            return self.current.slot(index_of(place));
        }
        match self.others.get(&number_of(place)) {
            Some(block) => block.slot(index_of(place)),
            None => None,
        }
    }

    fn is_vacant(&self, place: u64) -> bool
        ensures vacant { result ≡ true → in_blocks self.now place ≡ None }
        ensures held { result ≡ false → IsSome (in_blocks self.now place) }
    {
        match self.slot(place) {
            Some(slot) => slot.is_empty(),
            None => true,
        }
    }

    /// Makes this block the current one, and lays that by which was. Where there is no memory for
    /// that, nothing changes.
    fn turn_to(&mut self, number: u64) -> Result<(), NoMemory>
        ensures same { (place : ℕ) → in_blocks self.new place ≡ in_blocks self.old place }
        ensures turned { OnOk result (self.new.number ≡ number) }
    {
        if number == self.number {
            return Ok(());
        }
        let fresh = Block::new(*self.others.allocator());
        let block = mem::replace(&mut self.current, fresh);
        match lay_by(&mut self.others, self.number, block) {
            Ok(()) => {
                self.current = take_out(&mut self.others, number);
                self.number = number;
                Ok(())
            }
            Err(back) => {
                self.current = back;
                Err(NoMemory)
            }
        }
    }

    /// Puts a record into a place.
    fn put(&mut self, place: u64, slot: Slot) -> Result<(), NoMemory>
        ensures own { OnOk result (in_blocks self.new place ≡ slot) }
        ensures rest { (other : ℕ) → (other ≡ place → ⊥) → in_blocks self.new other ≡ in_blocks self.old other }
        ensures err { OnErr result ((any : ℕ) → in_blocks self.new any ≡ in_blocks self.old any) }
    {
        self.turn_to(number_of(place))?;
        self.current.put(index_of(place), slot)
    }

    /// Empties a place. It takes no memory.
    fn empty(&mut self, place: u64)
        ensures own { in_blocks self.new place ≡ None }
        ensures rest { (other : ℕ) → (other ≡ place → ⊥) → in_blocks self.new other ≡ in_blocks self.old other }
    {
        if number_of(place) == self.number {
            self.current.empty(index_of(place));
        } else {
            empty_in(&mut self.others, number_of(place), index_of(place));
        }
    }
}

/// Records by place, seen as the list of all that came in, with empty places for those that were
/// forgotten. Records lie in blocks of 16 places, each with room for a record: those blocks that keep
/// one, and the one that was put into last. So there is at most one block for each record that is not
/// forgotten, and one more, however many were forgotten. Records of one tenant that came in one after
/// the other share its name. It goes with the last of them, once one of another tenant came in.
#[derive(Drop)]
pub struct Records {
    // How many came in.
    count: u64,
    // Has the name of the one that came in last.
    names: LastName,
    blocks: Blocks,
}

impl Model for Records {
    ghost use Rattle.std.specs.Prelude.{List, Option};
    ghost use Rattle.model.specs.declared.records.Record.{Record};
    ghost use Rattle.shared_log.specs.Records.{in_blocks, tabled};

    ghost Value = { List (Option Record) };

    ghost view = { λ r. tabled (in_blocks r.blocks) r.count };
}

impl Records {
    /// No records. It takes no memory.
    pub fn new(alloc: Global) -> Records
        ensures { result ≡ [] }
    {
        Records {
            count: 0,
            names: LastName::new(alloc),
            blocks: Blocks::new(alloc),
        }
    }

    /// So many empty places. It takes no memory, and no time by their number.
    pub fn vacant(alloc: Global, count: u64) -> Records
        ensures { result ≡ replicate count None }
    {
        Records {
            count,
            names: LastName::new(alloc),
            blocks: Blocks::new(alloc),
        }
    }

    /// Keeps a record in the next place.
    pub fn keep(&mut self, logged: Record) -> Result<(), NoMemory>
        ensures ok { OnOk result (self.new ≡ self.old ++ Some logged ∷ []) }
        ensures err { OnErr result (self.new ≡ self.old) }
    {
        let Some(next) = self.count.checked_add(1) else {
            return Err(NoMemory);
        };
        let name = self.names.place_of(&logged.tenant)?;
        self.blocks.put(self.count, Slot::of(logged, name))?;
        self.count = next;
        Ok(())
    }

    /// Takes the record that was kept last back, and its place with it. Where there is none, nothing
    /// changes. It takes no memory.
    pub fn take_back(&mut self)
        ensures { self.new ≡ take (length self.old - 1) self.old }
    {
        if let Some(last) = self.count.checked_sub(1) {
            self.blocks.empty(last);
            self.count = last;
        }
    }

    /// Whether a place is there and is empty.
    pub fn is_vacant(&self, place: u64) -> bool
        ensures vacant { result ≡ true → slice_get self.now place ≡ Some None }
        ensures found { slice_get self.now place ≡ Some None → result ≡ true }
    {
        if place >= self.count {
            return false;
        }
        self.blocks.is_vacant(place)
    }

    /// Puts a record into a place that is there, whatever it has. Records of one tenant that are put in one after the
    /// other share its name, as those that are kept do.
    ///
    /// # Errors
    ///
    /// `NoMemory` where the record finds no room. No place changes then.
    pub fn fill(&mut self, place: u64, logged: Record) -> Result<(), NoMemory>
        requires { place < length self.old }
        ensures ok { OnOk result (self.new ≡ slice_set self.old place (Some logged)) }
        ensures err { OnErr result (self.new ≡ self.old) }
    {
        let name = self.names.place_of(&logged.tenant)?;
        self.blocks.put(place, Slot::of(logged, name))
    }

    /// An equal record to that of a place, which must not be forgotten.
    pub fn copy_of(&self, alloc: Global, place: u64) -> Result<Record, NoMemory>
        requires { IsHeld self.now place }
        ensures { IfOk result (λ r. slice_get self.now place ≡ Some (Some r)) }
    {
        match self.blocks.slot(place) {
            Some(slot) => slot.copy(alloc),
            None => unreachable!(),
        }
    }

    /// Gives the record of a place up.
    pub fn forget(&mut self, place: u64)
        requires { place < length self.old }
        ensures { self.new ≡ slice_set self.old place None }
    {
        self.blocks.empty(place);
    }
}
