//! The firm outputs of one unit, on their way out.

ghost use Rattle.std.specs.Prelude.{◌≡◌, ◌≢◌, ◌++◌, ◌∷◌, [], ◌<◌, ◌≤◌, ◌+◌, ◌-◌, ℕ, IfOk, MatchBool, MatchOption, drop};
ghost use Rattle.std.specs.Prelude.{length, slice_index, false};
ghost use Rattle.output_commit.specs.Holds.{front_is_firm, gone_of as count_of, room_of, line_texts};
ghost use Rattle.tenant.specs.Kept.{AreMoved, firm_texts, unfirm};

use model::{NoMemory, Text};
use output_commit::{Hold, Outlet, StableView};
use std::alloc::Global;

/// The text of the output at this place, where it is of the first so many intervals.
fn firm_at(hold: &Hold, place: usize, frontier: u64) -> Option<&Text>
    ensures { MatchOption result (firm_texts (drop place hold.now.outputs) frontier ≡ []) (λ text.
        firm_texts (drop place hold.now.outputs) frontier ≡ text.now
        ∷ firm_texts (drop (place + 1) hold.now.outputs) frontier) }
{
    let held = hold.at(place)?;
    if u64::from(held.mark.index) < frontier {
        Some(&held.text)
    } else {
        None
    }
}

/// Copies of the texts of the outputs at the front that are of the first so many intervals.
pub(crate) fn copy_firm(alloc: Global, hold: &Hold, frontier: u64) -> Result<Vec<Text>, NoMemory>
    ensures { IfOk result (λ texts. texts.items ≡ firm_texts hold.now.outputs frontier) }
{
    let mut texts = Vec::with_capacity(alloc, hold.len())?;
    for place in 0..hold.len() {
        match firm_at(hold, place, frontier) {
            Some(text) => texts.push(text.copy()?)?,
            None => return Ok(texts),
        }
    }
    Ok(texts)
}

/// Lets the first output out where it is firm, and tells whether it did. The outlet has room for it.
fn release_one(hold: &mut Hold, outlet: &mut Outlet, frontiers: &[u64]) -> bool
    requires front { hold.old.unit < length frontiers.now }
    requires line { hold.old.unit < length outlet.old }
    requires room { length hold.old.outputs ≤ room_of outlet.old hold.old.unit }
    ensures unit { hold.new.unit ≡ hold.old.unit }
    ensures moved { AreMoved (slice_index frontiers.now hold.old.unit) hold.old.outputs
        (line_texts outlet.old hold.old.unit) hold.new.outputs (line_texts outlet.new hold.old.unit) }
    ensures fewer { MatchBool result (length hold.new.outputs + 1 ≡ length hold.old.outputs)
        (front_is_firm hold.new frontiers.now ≡ false) }
    ensures others { (u : ℕ) → u ≢ hold.old.unit → line_texts outlet.new u ≡ line_texts outlet.old u }
    ensures gone { (u : ℕ) → count_of outlet.new u ≡ count_of outlet.old u }
    ensures len { length outlet.new ≡ length outlet.old }
    ensures left { length hold.new.outputs ≤ room_of outlet.new hold.old.unit }
{
    let view = StableView { frontiers };
    match hold.take_front(&view) {
        Some(ticket) => match outlet.emit(ticket) {
            Ok(()) => true,
            // It has room.
            Err(ticket) => {
                hold.put_back(ticket);
                false
            }
        },
        None => false,
    }
}

/// Lets the firm outputs at the front out. Takes no memory, and time by the outputs that leave.
pub(crate) fn release_all(hold: &mut Hold, outlet: &mut Outlet, frontiers: &[u64])
    requires front { hold.old.unit < length frontiers.now }
    requires line { hold.old.unit < length outlet.old }
    requires room { length hold.old.outputs ≤ room_of outlet.old hold.old.unit }
    ensures unit { hold.new.unit ≡ hold.old.unit }
    ensures outputs { hold.new.outputs ≡ unfirm hold.old.outputs (slice_index frontiers.now hold.old.unit) }
    ensures texts { line_texts outlet.new hold.old.unit ≡ line_texts outlet.old hold.old.unit
        ++ firm_texts hold.old.outputs (slice_index frontiers.now hold.old.unit) }
    ensures others { (u : ℕ) → u ≢ hold.old.unit → line_texts outlet.new u ≡ line_texts outlet.old u }
    ensures gone { (u : ℕ) → count_of outlet.new u ≡ count_of outlet.old u }
    ensures len { length outlet.new ≡ length outlet.old }
{
    for _ in 0..hold.len() {
        if !release_one(hold, outlet, frontiers) {
            return;
        }
    }
}
