//! Marks, one and in slices.

ghost use Rattle.std.specs.Prelude.{◌≡◌};
ghost use Rattle.model.specs.World.{no_mark};
ghost use Rattle.depvector.specs.Vectors.{mark_for};

use model::{Mark, Unit};

/// The mark of every unit's beginning.
pub(crate) fn beginning() -> Mark
    ensures { result ≡ no_mark }
{
    Mark {
        incarnation: 0,
        index: 0,
    }
}

/// The mark of a unit; a unit without an entry is at its beginning.
pub(crate) fn mark_of(marks: &[Mark], unit: Unit) -> Mark
    ensures { result ≡ mark_for marks.now unit }
{
    match marks.get(usize::from(unit.number())) {
        Some(mark) => *mark,
        None => beginning(),
    }
}
