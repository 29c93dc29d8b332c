//! Vectors that are done.

ghost use Rattle.std.specs.Prelude.{◌≡◌, ◌≤◌, IfOk, length};
ghost use Rattle.depvector.specs.Vectors.{begun_vector, mark_for};

use crate::marks::mark_of;
use crate::vector::DepVector;
use model::{Mark, Marks, NoMemory, Unit};
use std::alloc::Global;
use std::marker::Model;

/// A vector that is done, seen as the list of its marks: that of an interval, of its letters and of its record.
/// Copies of a long one share one place in memory; a short one lies in the value itself.
#[derive(Drop)]
pub struct SharedVector {
    pub(crate) marks: Marks,
}

impl Model for SharedVector {
    ghost use Rattle.std.specs.Prelude.{List, ◌≤◌, length};
    ghost use Rattle.model.specs.declared.names.Mark.{Mark};

    ghost Value = { List Mark };

    ghost view = { λ v. v.marks };

    ghost invariant = { λ v. length v.marks ≤ 256 };
}

impl SharedVector {
    /// The vector of a beginning, for a tenant of `n` units.
    ///
    /// # Errors
    ///
    /// `NoMemory` where the entries find no memory.
    #[inline(always)]
    pub fn new(alloc: Global, n: usize) -> Result<SharedVector, NoMemory>
        requires { n ≤ 256 }
        ensures { IfOk result (λ v. v ≡ begun_vector n) }
    {
        let begun = DepVector::new(alloc, n)?;
        begun.into_shared(alloc)
    }

    /// The vector of these marks, unit 0 first, which shares their place.
    ///
    /// # Errors
    ///
    /// `NoMemory` where there are 2^63 - 1 copies already, and one more finds no memory.
    #[inline(always)]
    pub fn of(alloc: Global, marks: &Marks) -> Result<SharedVector, NoMemory>
        requires { length marks.now ≤ 256 }
        ensures { IfOk result (λ v. v ≡ marks.now) }
    {
        let marks = marks.copy(alloc)?;
        Ok(SharedVector { marks })
    }

    /// The marks, unit 0 first.
    #[inline(always)]
    pub fn as_slice(&self) -> &[Mark]
        ensures marks { result.now ≡ self.now }
        ensures few { length result.now ≤ 256 }
    {
        self.marks.as_slice()
    }

    /// The mark of a unit; a unit without an entry is at its beginning.
    #[inline(always)]
    pub fn get(&self, unit: Unit) -> Mark
        ensures { result ≡ mark_for self.now unit }
    {
        mark_of(self.as_slice(), unit)
    }

    /// An equal vector.
    ///
    /// # Errors
    ///
    /// `NoMemory` as in [`SharedVector::of`].
    #[inline(always)]
    pub fn copy(&self, alloc: Global) -> Result<SharedVector, NoMemory>
        ensures { IfOk result (λ v. v ≡ self.now) }
    {
        let marks = self.marks.copy(alloc)?;
        Ok(SharedVector { marks })
    }

    /// The marks as a record holds them. Takes no memory.
    #[inline(always)]
    pub fn into_marks(self) -> Marks
        ensures marks { result ≡ self }
        ensures few { length result ≤ 256 }
    {
        self.marks
    }
}
