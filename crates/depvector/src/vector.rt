//! The vector and its calls.

ghost use Rattle.std.specs.Prelude.{◌≡◌, ◌<◌, ◌≤◌, IfOk, OnErr, length, slice_set};
ghost use Rattle.depvector.specs.Vectors.{begun_vector, joined, mark_for, widened};

use crate::marks::{beginning, mark_of};
use crate::shared::SharedVector;
use model::{MAX_INLINE_MARKS, Mark, Marks, NoMemory, Unit};
use smallvec::SmallVec;
use std::alloc::Global;
use std::marker::Model;

/// For each unit of a tenant its latest interval that an interval depends on, as a mark: incarnation
/// and index. It has an entry for each of the first units, at most 256 of them.
///
/// A unit that joined the tenant after the vector was made has no entry in it, and counts as being
/// at its beginning. Each call takes time by the count of units at most, and `get` and `set_own` a
/// constant time.
#[derive(Drop)]
pub struct DepVector {
    marks: SmallVec<Mark, MAX_INLINE_MARKS>,
}

impl Model for DepVector {
    ghost use Rattle.std.specs.Prelude.{List, ◌≤◌, length};
    ghost use Rattle.model.specs.declared.names.Mark.{Mark};

    ghost Value = { List Mark };

    ghost view = { λ v. v.marks.items };

    ghost invariant = { λ v. length v.marks.items ≤ 256 };
}

impl DepVector {
    /// The vector of a beginning, for a tenant of `n` units.
    ///
    /// # Errors
    ///
    /// `NoMemory` where the entries find no memory.
    #[inline(always)]
    pub fn new(alloc: Global, n: usize) -> Result<DepVector, NoMemory>
        requires { n ≤ 256 }
        ensures { IfOk result (λ v. v ≡ begun_vector n) }
    {
        let marks = SmallVec::from_elem(alloc, beginning(), n)?;
        Ok(DepVector { marks })
    }

    /// The vector of these marks, unit 0 first. Takes no memory.
    pub fn from_marks(marks: Vec<Mark>) -> DepVector
        requires { length marks.items ≤ 256 }
        ensures { result ≡ marks.items }
    {
        DepVector {
            marks: SmallVec::from_vec(marks),
        }
    }

    /// A vector of its own of these marks.
    ///
    /// # Errors
    ///
    /// `NoMemory` where the entries find no memory.
    #[inline(always)]
    pub fn of(alloc: Global, marks: &[Mark]) -> Result<DepVector, NoMemory>
        requires { length marks.now ≤ 256 }
        ensures { IfOk result (λ v. v ≡ marks.now) }
    {
        let marks = SmallVec::from_slice(alloc, marks)?;
        Ok(DepVector { marks })
    }

    /// The marks, unit 0 first.
    #[inline(always)]
    pub fn as_slice(&self) -> &[Mark]
        ensures marks { result.now ≡ self.now }
        ensures few { length result.now ≤ 256 }
    {
        self.marks.as_slice()
    }

    /// How many units have an entry.
    #[inline(always)]
    pub fn len(&self) -> usize
        ensures len { result ≡ length self.now }
        ensures few { result ≤ 256 }
    {
        self.marks.len()
    }

    /// The mark of a unit; a unit without an entry is at its beginning.
    #[inline(always)]
    pub fn get(&self, unit: Unit) -> Mark
        ensures { result ≡ mark_for self.now unit }
    {
        mark_of(self.as_slice(), unit)
    }

    /// Takes the later mark for each unit: by incarnation, then by index. Takes no memory.
    ///
    /// The other vector is not the longer one, since a tenant's units are never fewer than they were.
    pub fn join(&mut self, other: &DepVector)
        requires { length other.now ≤ length self.old }
        ensures { self.new ≡ joined self.old other.now }
    {
        self.join_marks(other.as_slice());
    }

    /// As [`DepVector::join`], with the other's marks.
    #[tactic(auto, using(crate::proofs::Joins::joins, crate::proofs::Joins::joined_step))]
    #[inline(always)]
    pub fn join_marks(&mut self, other: &[Mark])
        requires { length other.now ≤ length self.old }
        ensures { self.new ≡ joined self.old other.now }
    {
        let own = self.marks.as_mut_slice();
        for (unit, mark) in other.iter().enumerate() {
            own[unit] = own[unit].later(*mark);
        }
    }

    /// Sets the mark of a unit that has an entry. Takes no memory.
    #[inline(always)]
    pub fn set_own(&mut self, unit: Unit, mark: Mark)
        requires { unit < length self.old }
        ensures { self.new ≡ slice_set self.old unit mark }
    {
        self.marks.as_mut_slice()[usize::from(unit.number())] = mark;
    }

    /// Adds the beginnings of units that joined, up to `n` units in all. A vector that has as many
    /// stays as it is.
    ///
    /// # Errors
    ///
    /// `NoMemory` where the entries find no memory; the vector stays as it was.
    #[inline(always)]
    pub fn widen(&mut self, n: usize) -> Result<(), NoMemory>
        requires { n ≤ 256 }
        ensures ok { IfOk result (λ _. self.new ≡ widened self.old n) }
        ensures err { OnErr result (self.new ≡ self.old) }
    {
        if self.marks.len() < n {
            self.marks.resize(n, beginning())?;
        }
        Ok(())
    }

    /// An equal vector.
    ///
    /// # Errors
    ///
    /// `NoMemory` where the copy finds no memory.
    pub fn copy(&self) -> Result<DepVector, NoMemory>
        ensures { IfOk result (λ v. v ≡ self.now) }
    {
        DepVector::of(*self.marks.allocator(), self.as_slice())
    }

    /// The vector, done.
    ///
    /// # Errors
    ///
    /// `NoMemory` where a place that copies can share finds no memory. A short one needs none.
    #[inline(always)]
    pub fn into_shared(self, alloc: Global) -> Result<SharedVector, NoMemory>
        ensures { IfOk result (λ v. v ≡ self) }
    {
        // Brings in that a vector has 256 marks at most.
        let _units = self.len();
        if self.len() <= MAX_INLINE_MARKS {
            let marks = Marks::of(alloc, self.as_slice())?;
            return Ok(SharedVector { marks });
        }
        let DepVector { marks } = self;
        let all = marks.into_vec()?;
        let marks = Marks::shared(all)?;
        Ok(SharedVector { marks })
    }
}
