//! The tests of one vector by a table without rows, which is that of every tenant of which nothing was lost yet.

ghost use Rattle.std.specs.Prelude.{◌≡◌, ◌≤◌, ◌<◌, ◌==◌, [], length, not};
ghost use Rattle.std.specs.List.{list_any};
ghost use Rattle.orphan.specs.Tests.{is_blind_by, is_stable_by, is_unstable_by, unstable_count};

use model::Mark;

/// The bits that some mark's incarnation has.
fn incarnation_bits(marks: &[Mark]) -> u32
    ensures { (result == 0) ≡ not (list_any (λ g. not (g.incarnation == 0)) marks.now) }
{
    let mut bits = 0;
    for mark in marks {
        bits |= mark.incarnation;
    }
    bits
}

/// Whether a mark is of a later incarnation than the first. All are looked at: to stop at the first such one takes
/// longer.
fn any_later(marks: &[Mark]) -> bool
    ensures { result ≡ list_any (λ g. not (g.incarnation == 0)) marks.now }
{
    incarnation_bits(marks) != 0
}

/// Whether some mark is one that no row tells of.
#[tactic(auto, using(crate::proofs::NoRows::blind_by_incarnation))]
pub(crate) fn any_blind(marks: &[Mark]) -> bool
    ensures { result ≡ is_blind_by [] marks.now }
{
    any_later(marks)
}

/// Whether the unit's interval of this mark stands within the unit's stable length.
fn is_stable(stable_lengths: &[u64], unit: usize, mark: Mark) -> bool
    requires { unit < length stable_lengths.now }
    ensures { result ≡ is_stable_by [] stable_lengths.now unit mark }
{
    u64::from(mark.index) < stable_lengths[unit]
}

/// How many marks do not stand within their units' stable lengths.
pub(crate) fn count_unstable(marks: &[Mark], stable_lengths: &[u64]) -> u32
    requires few { length marks.now ≤ 256 }
    requires given { length marks.now ≤ length stable_lengths.now }
    ensures { result ≡ unstable_count [] stable_lengths.now marks.now }
{
    let mut count = 0;
    for (unit, mark) in marks.iter().enumerate() {
        if !is_stable(stable_lengths, unit, *mark) {
            count += 1;
        }
    }
    count
}

/// Whether some mark does not stand within its unit's stable length.
pub(crate) fn any_unstable(marks: &[Mark], stable_lengths: &[u64]) -> bool
    requires few { length marks.now ≤ 256 }
    requires given { length marks.now ≤ length stable_lengths.now }
    ensures { result ≡ is_unstable_by [] stable_lengths.now marks.now }
{
    for (unit, mark) in marks.iter().enumerate() {
        if !is_stable(stable_lengths, unit, *mark) {
            return true;
        }
    }
    false
}
