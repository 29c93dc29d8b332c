//! The table and its look-ups.

ghost use Rattle.std.specs.Prelude.{◌≡◌, ◌+◌, ◌<◌, ◌≤◌, ℕ, ◌∷◌, [], ◌++◌, IfOk, IfSome, IsSome, IsTrue, MatchOption};
ghost use Rattle.std.specs.Prelude.{OnErr, Some};
ghost use Rattle.std.specs.Prelude.{◌↔◌, length, slice_get, take};
ghost use Rattle.model.specs.World.{incarnation_of, mark_told, mark_lost};
ghost use Rattle.incarnation.specs.Filed.{filed_at, filed_of, nothing_filed, with_row, Ordered};
ghost use Rattle.incarnation.specs.Rows.{rows_of as rows_of_unit, incarnation_at as incarnation_by};

use crate::filed::UnitRows;
use model::{MAX_INCARNATION, Mark, NoMemory, Row, Unit};
use std::alloc::Global;
use std::marker::Model;

/// The rows of a tenant: each says at which index an incarnation of a unit starts.
///
/// Contracts see the table as the list of its rows. A unit's rows begin its incarnations 1, 2 and so
/// on, up to 65,535, so that the row of an incarnation is found at once. `latest`, `tells_of` and
/// `loses` take a constant time, however many rows there are; `incarnation_at` takes time by the
/// unit's rows.
#[derive(Drop)]
pub struct StartTable {
    rows: Vec<Row>,
    // Unit 0 first, up to the last unit that has a row.
    files: Vec<UnitRows>,
}

impl Model for StartTable {
    ghost use Rattle.std.specs.Prelude.{List};
    ghost use Rattle.model.specs.declared.names.Row.{Row};
    ghost use Rattle.incarnation.specs.Filed.{Files};

    ghost Value = { List Row };

    ghost view = { λ t. t.rows.items };

    ghost invariant = { λ t. Files t.rows.items t.files.items };
}

impl StartTable {
    /// A table without rows.
    pub fn new(alloc: Global) -> StartTable
        ensures { result ≡ [] }
    {
        StartTable {
            rows: Vec::new(alloc),
            files: Vec::new(alloc),
        }
    }

    /// The table of these rows, if they are those of a table: a unit's rows begin its incarnations 1, 2 and so on.
    ///
    /// # Errors
    ///
    /// `NoMemory` where the rows find no memory.
    #[tactic(auto, using(crate::proofs::Orders::next_at))]
    pub fn of(alloc: Global, rows: &[Row]) -> Result<Option<StartTable>, NoMemory>
        ensures made { IfOk result (λ o. IfSome o (λ t. t ≡ rows.now)) }
        ensures ordered { Ordered rows.now → IfOk result (λ o. IsSome o) }
    {
        let mut table = StartTable::new(alloc);
        for row in rows {
            if !table.is_next(*row) {
                return Ok(None);
            }
            table.add(*row)?;
        }
        Ok(Some(table))
    }

    /// Its rows, in the order of adding.
    pub fn rows(&self) -> &[Row]
        ensures rows { result.now ≡ self.now }
        ensures ordered { Ordered self.now }
    {
        self.rows.as_slice()
    }

    /// Whether the row begins its unit's next incarnation.
    fn is_next(&self, row: Row) -> bool
        ensures { IsTrue result ↔ (row.incarnation ≡ incarnation_of self.now row.unit + 1) }
    {
        u64::from(row.incarnation) == u64::from(self.latest(row.unit)) + 1
    }

    /// How many rows there are.
    #[inline(always)]
    pub fn len(&self) -> usize
        ensures { result ≡ length self.now }
    {
        self.rows.len()
    }

    /// The first `k` rows, or all where there are fewer. Takes no memory.
    pub fn known(&self, k: usize) -> &[Row]
        ensures { result.now ≡ take k self.now }
    {
        if k < self.rows.len() {
            &self.rows[..k]
        } else {
            self.rows.as_slice()
        }
    }

    /// The rows of a unit, in order.
    pub fn rows_of(&self, unit: Unit) -> &[Row]
        ensures { result.now ≡ rows_of_unit self.now unit }
    {
        match self.filed(unit) {
            Some(filed) => filed.as_slice(),
            None => &[],
        }
    }

    /// The unit's greatest incarnation, 0 where it has no row.
    #[tactic(auto, using(crate::proofs::FilesLaws::latest_is, crate::proofs::FilesLaws::latest_none))]
    pub fn latest(&self, unit: Unit) -> u32
        ensures { result ≡ incarnation_of self.now unit }
    {
        match self.filed(unit) {
            Some(filed) => filed.latest(),
            None => 0,
        }
    }

    /// The unit's greatest incarnation that starts no later than the index, 0 where there is none.
    pub fn incarnation_at(&self, unit: Unit, index: u32) -> u32
        ensures { result ≡ incarnation_by self.now unit index }
    {
        match self.filed(unit) {
            Some(filed) => filed.incarnation_at(index),
            None => 0,
        }
    }

    /// Whether the mark's incarnation is the unit's first or has a row among the first `known` ones.
    /// Takes no memory, and looks at one row.
    #[tactic(auto, using(crate::proofs::FilesLaws::tells_is, crate::proofs::FilesLaws::tells_none))]
    #[inline(always)]
    pub fn tells_of(&self, known: usize, unit: Unit, mark: Mark) -> bool
        ensures { result ≡ mark_told (take known self.now) unit mark }
    {
        match self.filed(unit) {
            Some(filed) => filed.tells_of(known, mark),
            None => mark.incarnation == 0,
        }
    }

    /// Whether the first `known` rows lose the unit's interval with this mark.
    /// Takes no memory, and looks at no more than 64 numbers.
    #[tactic(auto, using(crate::proofs::FilesLaws::loses_is, crate::proofs::FilesLaws::loses_none))]
    #[inline(always)]
    pub fn loses(&self, known: usize, unit: Unit, mark: Mark) -> bool
        ensures { result ≡ mark_lost (take known self.now) unit mark }
    {
        match self.filed(unit) {
            Some(filed) => filed.loses(known, mark),
            None => false,
        }
    }

    /// What is filed for a unit, if anything.
    #[inline(always)]
    fn filed(&self, unit: Unit) -> Option<&UnitRows>
        ensures filed { MatchOption result (filed_of self.now unit ≡ nothing_filed) (λ f.
            f.now ≡ filed_of self.now unit) }
        ensures ordered { Ordered self.now }
    {
        self.files.get(usize::from(unit.number()))
    }

    /// Adds a row at the end. It begins the unit's next incarnation, which is 65,535 at most.
    ///
    /// # Errors
    ///
    /// `NoMemory` where the row finds no memory; the table stays as it was.
    pub fn append(&mut self, row: Row) -> Result<(), NoMemory>
        requires next { row.incarnation ≡ incarnation_of self.old row.unit + 1 }
        requires limit { row.incarnation ≤ MAX_INCARNATION }
        ensures ok { IfOk result (λ _. self.new ≡ self.old ++ row ∷ []) }
        ensures err { OnErr result (self.new ≡ self.old) }
    {
        self.add(row)
    }

    /// Adds a row that begins its unit's next incarnation. Where that finds no memory, the table stays.
    #[tactic(auto, using(crate::proofs::FilesLaws::files_same, crate::proofs::FilesLaws::files_append))]
    fn add(&mut self, row: Row) -> Result<(), NoMemory>
        requires { row.incarnation ≡ incarnation_of self.old row.unit + 1 }
        ensures ok { IfOk result (λ _. self.new ≡ self.old ++ row ∷ []) }
        ensures err { OnErr result (self.new ≡ self.old) }
    {
        append_row(&mut self.rows, &mut self.files, row)?;
        Ok(())
    }
}

/// Adds a row to the rows and files it. Where that finds no memory, both stay.
fn append_row(rows: &mut Vec<Row>, files: &mut Vec<UnitRows>, row: Row) -> Result<(), NoMemory>
    requires { (u i p : ℕ) → slice_get (filed_at files.old.items u).places i ≡ Some p → p ≤ length rows.old.items }
    ensures rows { IfOk result (λ _. rows.new.items ≡ rows.old.items ++ row ∷ []) }
    ensures files { IfOk result (λ _. (u : ℕ)
        → filed_at files.new.items u ≡ with_row row (length rows.old.items) u (filed_at files.old.items u)) }
    ensures no_rows { OnErr result (rows.new.items ≡ rows.old.items) }
    ensures no_files { OnErr result ((u : ℕ) → filed_at files.new.items u ≡ filed_at files.old.items u) }
{
    rows.reserve(1)?;
    let filed = row;
    file(files, filed, rows.len())?;
    rows.push_reserved(row);
    Ok(())
}

/// Files a row that has this place. Where that finds no memory, what is filed stays.
fn file(files: &mut Vec<UnitRows>, row: Row, place: usize) -> Result<(), NoMemory>
    requires { (u i p : ℕ) → slice_get (filed_at files.old.items u).places i ≡ Some p → p ≤ place }
    ensures ok { IfOk result (λ _. (u : ℕ)
        → filed_at files.new.items u ≡ with_row row place u (filed_at files.old.items u)) }
    ensures err { OnErr result ((u : ℕ) → filed_at files.new.items u ≡ filed_at files.old.items u) }
{
    make_files(files, row.unit)?;
    let filed = &mut files[usize::from(row.unit.number())];
    filed.append(row, place)?;
    Ok(())
}

/// Makes files up to that of the unit. What is filed stays.
fn make_files(files: &mut Vec<UnitRows>, unit: Unit) -> Result<(), NoMemory>
    ensures made { IfOk result (λ _. unit < length files.new.items) }
    ensures same { (u : ℕ) → filed_at files.new.items u ≡ filed_at files.old.items u }
{
    let alloc = *files.allocator();
    for _ in files.len()..usize::from(unit.number()) + 1 {
        files.push(UnitRows::new(alloc))?;
    }
    Ok(())
}
