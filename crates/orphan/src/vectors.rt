//! Tests of one vector.

ghost use Rattle.std.specs.Prelude.{◌≡◌, ◌≤◌, ◌<◌, length, take};
ghost use Rattle.orphan.specs.Tests.{is_blind_by, is_orphan_by, is_stable_by, is_unstable_by, unstable_count};

use crate::without_rows;
use depvector::DepVector;
use incarnation::StartTable;
use model::{Mark, Unit};

/// Whether some entry's incarnation has no row among the first `known` ones. Takes no memory, and a
/// constant time for each entry. For writers of another host: the tenant asks [`any_blind`] of a letter's marks.
pub fn is_blind(vector: &DepVector, table: &StartTable, known: usize) -> bool
    ensures { result ≡ is_blind_by (take known table.now) vector.now }
{
    any_blind(vector.as_slice(), table, known)
}

/// As [`is_blind`], for a vector's marks, unit 0 first.
pub fn any_blind(marks: &[Mark], table: &StartTable, known: usize) -> bool
    requires { length marks.now ≤ 256 }
    ensures { result ≡ is_blind_by (take known table.now) marks.now }
{
    if table.len() == 0 {
        return without_rows::any_blind(marks);
    }
    for (unit, mark) in marks.iter().enumerate() {
        if !table.tells_of(known, Unit::new(unit as u8), *mark) {
            return true;
        }
    }
    false
}

/// Whether the first `known` rows lose some entry. Takes no memory, and a constant time for each entry.
pub fn is_orphan(vector: &DepVector, table: &StartTable, known: usize) -> bool
    ensures { result ≡ is_orphan_by (take known table.now) vector.now }
{
    any_lost(vector.as_slice(), table, known)
}

/// As [`is_orphan`], for a vector's marks, unit 0 first.
#[tactic(auto, using(crate::proofs::NoRows::none_lost))]
pub fn any_lost(marks: &[Mark], table: &StartTable, known: usize) -> bool
    requires { length marks.now ≤ 256 }
    ensures { result ≡ is_orphan_by (take known table.now) marks.now }
{
    if table.len() == 0 {
        return false;
    }
    for (unit, mark) in marks.iter().enumerate() {
        if table.loses(known, Unit::new(unit as u8), *mark) {
            return true;
        }
    }
    false
}

/// Whether the unit's interval of this mark stands within the unit's stable length, and no row loses it.
fn is_stable(table: &StartTable, stable_lengths: &[u64], unit: usize, mark: Mark) -> bool
    requires few { unit < 256 }
    requires given { unit < length stable_lengths.now }
    ensures { result ≡ is_stable_by table.now stable_lengths.now unit mark }
{
    u64::from(mark.index) < stable_lengths[unit]
        && !table.loses(table.len(), Unit::new(unit as u8), mark)
}

/// How many units have an entry that is lost, or that does not stand within the unit's stable length.
/// There is a stable length for each entry. Takes no memory, and a constant time for each entry. For writers of
/// another host: the tenant asks [`count_unstable`] of a letter's marks.
pub fn unstable_units(vector: &DepVector, table: &StartTable, stable_lengths: &[u64]) -> u32
    requires { length vector.now ≤ length stable_lengths.now }
    ensures { result ≡ unstable_count table.now stable_lengths.now vector.now }
{
    count_unstable(vector.as_slice(), table, stable_lengths)
}

/// As [`unstable_units`], for a vector's marks, unit 0 first.
pub fn count_unstable(marks: &[Mark], table: &StartTable, stable_lengths: &[u64]) -> u32
    requires few { length marks.now ≤ 256 }
    requires given { length marks.now ≤ length stable_lengths.now }
    ensures { result ≡ unstable_count table.now stable_lengths.now marks.now }
{
    if table.len() == 0 {
        return without_rows::count_unstable(marks, stable_lengths);
    }
    let mut count = 0;
    for (unit, mark) in marks.iter().enumerate() {
        if !is_stable(table, stable_lengths, unit, *mark) {
            count += 1;
        }
    }
    count
}

/// Whether some entry is lost, or does not stand within the unit's stable length, for a vector's marks, unit 0 first.
/// There is a stable length for each entry. Takes no memory, and a constant time for each entry up to the first such
/// one.
pub fn any_unstable(marks: &[Mark], table: &StartTable, stable_lengths: &[u64]) -> bool
    requires few { length marks.now ≤ 256 }
    requires given { length marks.now ≤ length stable_lengths.now }
    ensures { result ≡ is_unstable_by table.now stable_lengths.now marks.now }
{
    if table.len() == 0 {
        return without_rows::any_unstable(marks, stable_lengths);
    }
    for (unit, mark) in marks.iter().enumerate() {
        if !is_stable(table, stable_lengths, unit, *mark) {
            return true;
        }
    }
    false
}
