//! The rows of one unit.

ghost use Rattle.std.specs.Prelude.{◌≡◌, ℕ, ◌+◌, ◌-◌, ◌<◌, ◌≤◌, ◌∷◌, [], ◌++◌, IfOk, OnErr, IsTrue, length, slice_get};
ghost use Rattle.std.specs.Prelude.{Some, slice_index, ◌↔◌};
ghost use Rattle.model.specs.declared.names.Row.{Row};
ghost use Rattle.std.specs.List.{fold};
ghost use Rattle.incarnation.specs.Filed.{nothing_filed, is_told_by, place_below, LosesAt};
ghost use Rattle.incarnation.specs.Rows.{later_start};

use crate::starts::Starts;
use model::{Mark, NoMemory, Row};
use std::alloc::Global;
use std::marker::Model;

/// The rows of one unit in order, each with its place in the whole table; their starts once more, for
/// searches. Places rise.
#[derive(Drop)]
pub struct UnitRows {
    rows: Vec<Row>,
    places: Vec<usize>,
    starts: Starts,
}

impl Model for UnitRows {
    ghost use Rattle.incarnation.specs.Filed.{Filed, IsFiled};

    ghost Value = { Filed };

    ghost view = { λ u. record { rows = u.rows.items; places = u.places.items } };

    ghost invariant = { λ u. IsFiled u.rows.items u.places.items u.starts };
}

impl UnitRows {
    /// A unit without rows.
    pub fn new(alloc: Global) -> UnitRows
        ensures { result ≡ nothing_filed }
    {
        UnitRows {
            rows: Vec::new(alloc),
            places: Vec::new(alloc),
            starts: Starts::new(alloc),
        }
    }

    /// The rows in order.
    pub fn as_slice(&self) -> &[Row]
        ensures { result.now ≡ self.now.rows }
    {
        self.rows.as_slice()
    }

    /// The incarnation of the last row, 0 where there is none.
    pub fn latest(&self) -> u32
        ensures none { length self.now.rows ≡ 0 → result ≡ 0 }
        ensures last { (r : Row) → slice_get self.now.rows (length self.now.rows - 1) ≡ Some r
            → result ≡ r.incarnation }
    {
        if self.rows.is_empty() {
            return 0;
        }
        self.rows[self.rows.len() - 1].incarnation
    }

    /// The greatest incarnation that starts no later than the index, 0 where there is none.
    pub fn incarnation_at(&self, index: u32) -> u32
        ensures { result ≡ fold (later_start index) 0 self.now.rows }
    {
        let mut greatest = 0;
        for row in &self.rows {
            if row.start <= u64::from(index) {
                greatest = greatest.max(row.incarnation);
            }
        }
        greatest
    }

    /// Whether the incarnation is the first, or its row is among the first `known` ones of the table.
    pub fn tells_of(&self, known: usize, mark: Mark) -> bool
        ensures { result ≡ is_told_by self.now known mark }
    {
        if mark.incarnation == 0 {
            return true;
        }
        is_before(self.places.as_slice(), mark.incarnation as usize - 1, known)
    }

    /// Whether a row of a later incarnation is among the first `known` ones of the table
    /// and starts no later than the mark's index. The first such row tells, since places rise.
    pub fn loses(&self, known: usize, mark: Mark) -> bool
        ensures { IsTrue result ↔ LosesAt self.now known mark }
    {
        let first = self
            .starts
            .first_low(mark.incarnation as usize, u64::from(mark.index));
        is_before(self.places.as_slice(), first, known)
    }

    /// Adds a row at its end, with its place, which no earlier row's is above.
    ///
    /// # Errors
    ///
    /// `NoMemory` where the row finds no memory; the rows stay as they were.
    pub fn append(&mut self, row: Row, place: usize) -> Result<(), NoMemory>
        requires { (i p : ℕ) → slice_get self.old.places i ≡ Some p → p ≤ place }
        ensures ok { IfOk result (λ _.
            self.new ≡ record { rows = self.old.rows ++ row ∷ []; places = self.old.places ++ place ∷ [] }) }
        ensures err { OnErr result (self.new ≡ self.old) }
    {
        self.rows.reserve(1)?;
        self.places.reserve(1)?;
        self.starts.push(row.start)?;
        self.rows.push_reserved(row);
        self.places.push_reserved(place);
        Ok(())
    }
}

/// Whether there is a row at this point, and its place is among the first `known` ones.
fn is_before(places: &[usize], at: usize, known: usize) -> bool
    ensures { result ≡ place_below known (slice_get places.now at) }
{
    match places.get(at) {
        Some(place) => *place < known,
        None => false,
    }
}
