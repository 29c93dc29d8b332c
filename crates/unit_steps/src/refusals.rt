//! The tests of a receipt.

ghost use Rattle.std.specs.Prelude.{◌≡◌, ◌+◌, ◌-◌, ◌<◌, ◌≤◌, ◌^◌, ◌∷◌, [], ◌++◌, IfNone, IsTrue, length, nat_lt};
ghost use Rattle.std.specs.Prelude.{nat_le};
ghost use Rattle.std.specs.Option.{option_copied};
ghost use Rattle.std.specs.Prelude.{is_some, None, take, not, true};
ghost use Rattle.std.specs.Bool.{OnFalse};
ghost use Rattle.std.specs.List.{filter, list_any};
ghost use Rattle.model.specs.declared.refusals.Refusal.TheVariants.{Down, Repeat};
ghost use Rattle.model.specs.Nodes.{sends_within};
ghost use Rattle.session.specs.Counts.{taken_from};
ghost use Rattle.model.specs.Steps.{is_long as is_long_text, is_large as is_large_turn, first_refusal};
ghost use Rattle.compact.specs.Steps.{tests_of_number};
ghost use Rattle.orphan.specs.Tests.{unstable_count};
ghost use Rattle.rollback.specs.Units.{places};
ghost use Rattle.unit_steps.specs.Receipts.{IsWithin, arrival_refusal as arrival_refusal_of, receipt_room_tests};
ghost use Rattle.unit_steps.specs.Receipts.{post_refused, letter_refused, turn_refused, past_tests};

use crate::sent_letters::LetterRef;
use depvector::SharedVector;
use handler::{Handler, Turn};
use incarnation::StartTable;
use model::{MAX_INDEX, MAX_TEXT_BYTES, MAX_TURN_EFFECTS, Quota, Refusal, Source, Text, Unit};
use orphan::{any_blind, any_lost, count_unstable};
use rollback::{Progress, RecoveryUnit};

/// What a tenant's table and its units' stable lengths tell a unit that knows the first `rows` of the table.
#[derive(Clone, Copy)]
pub struct TenantView<'a> {
    pub table: &'a StartTable,
    pub rows: usize,
    pub stable_lengths: &'a [u64],
}

fn is_long(text: &Text) -> bool
    ensures { result ≡ is_long_text text.now }
{
    text.len() > MAX_TEXT_BYTES
}

fn any_long(texts: &[Text]) -> bool
    ensures { result ≡ list_any is_long_text texts.now }
{
    texts.iter().any(|t| is_long(t))
}

fn any_long_send(sends: &[(Unit, Text)]) -> bool
    ensures { result ≡ list_any (λ s. is_long_text s.1) sends.now }
{
    sends.iter().any(|s| is_long(&s.1))
}

fn is_large<S>(turn: &Turn<S>) -> bool
    ensures { result ≡ is_large_turn turn.now }
{
    let sends = turn.sends();
    let outputs = turn.outputs();
    if outputs.len() > MAX_TURN_EFFECTS || sends.len() > MAX_TURN_EFFECTS - outputs.len() {
        return true;
    }
    any_long_send(sends) || any_long(outputs)
}

/// How many sends are to units within the width.
fn count_within(sends: &[(Unit, Text)], width: usize) -> usize
    ensures { result ≡ length (filter (λ s. nat_lt s.0 width) sends.now) }
{
    sends
        .iter()
        .filter(|s| usize::from(s.0.number()) < width)
        .count()
}

/// Whether so many and so many more pass the quota.
fn exceed(count: usize, more: usize, quota: u32) -> bool
    ensures exceeds { result ≡ nat_lt quota (count + more) }
    ensures bound { OnFalse result (count + more < 2 ^ 32) }
{
    let quota = quota as usize;
    count > quota || more > quota - count
}

/// The refusal of a letter whose content is forgotten.
#[tactic(auto, unfolding(model::specs::Steps::first_refusal))]
fn forgotten_refusal<H: Handler>(unit: &RecoveryUnit<H>) -> Option<Refusal>
    ensures refusal { result ≡ first_refusal ((not (is_some unit.now.progress), Down) ∷ (true, Repeat) ∷ []) }
    ensures some { IsTrue (is_some result) }
{
    if unit.is_up() {
        Some(Refusal::Repeat)
    } else {
        Some(Refusal::Down)
    }
}

/// Why a receipt is refused before its turn is worked, by its number and for want of room. Of a post it is all.
#[tactic(auto, unfolding(model::specs::Steps::first_refusal))]
pub fn arrival_refusal<H: Handler>(
    volatile_quota: u32,
    unit: &RecoveryUnit<H>,
    source: Source,
    number: u64,
    text: &Text,
) -> Option<Refusal>
    ensures refusal { result ≡ arrival_refusal_of volatile_quota unit.now source number text.now unit.now.progress }
    ensures room { IfNone result (places unit.now < 2 ^ 32) }
{
    let count = match unit.progress() {
        Some(progress) => progress.sessions.taken(source),
        None => return Some(Refusal::Down),
    };
    if number < count {
        Some(Refusal::Repeat)
    } else if count < number {
        Some(Refusal::Gap)
    } else if unit.places().saturating_sub(1) >= u64::from(MAX_INDEX) {
        Some(Refusal::Limit)
    } else if unit.volatile_count() >= volatile_quota as usize {
        Some(Refusal::Quota)
    } else if is_long(text) {
        Some(Refusal::TooMuch)
    } else {
        None
    }
}

/// Whether a letter depends on more unstable units than the optimism lets through, or on more units than there are.
#[tactic(auto, using(crate::proofs::Pending::few_unstable))]
fn is_pending(known: &TenantView<'_>, optimism: u32, vector: &SharedVector) -> bool
    ensures within { OnFalse result (length vector.now ≤ length known.now.stable_lengths.now) }
    ensures value { length vector.now ≤ length known.now.stable_lengths.now
        → result ≡ nat_lt optimism (unstable_count known.now.table.now known.now.stable_lengths.now vector.now) }
{
    let marks = vector.as_slice();
    if marks.len() > known.stable_lengths.len() {
        return true;
    }
    // Of few units few are unstable.
    marks.len() > optimism as usize
        && count_unstable(marks, known.table, known.stable_lengths) > optimism
}

/// Why a letter is refused for what it depends on. One that depends on more units than there are is pending.
#[tactic(auto, unfolding(model::specs::Steps::first_refusal))]
fn past_refusal<H: Handler>(
    known: &TenantView<'_>,
    optimism: u32,
    unit: &RecoveryUnit<H>,
    vector: &SharedVector,
) -> Option<Refusal>
    ensures within { IfNone result (length vector.now ≤ length known.now.stable_lengths.now) }
    ensures refusal { length vector.now ≤ length known.now.stable_lengths.now
        → result ≡ first_refusal (past_tests (record {
          table = known.now.table.now;
          rows = known.now.rows;
          stable_lengths = known.now.stable_lengths.now;
        })
        optimism unit.now vector.now) }
{
    if !unit.is_up() {
        Some(Refusal::Down)
    } else if any_blind(vector.as_slice(), known.table, known.rows) {
        Some(Refusal::Wait)
    } else if any_lost(vector.as_slice(), known.table, known.rows) {
        Some(Refusal::Orphan)
    } else if is_pending(known, optimism, vector) {
        Some(Refusal::Pending)
    } else {
        None
    }
}

/// Why a letter is refused before its turn is worked. One whose content is forgotten was taken, and one that depends
/// on more units than there are is pending.
pub fn letter_refusal<H: Handler>(
    known: &TenantView<'_>,
    optimism: u32,
    volatile_quota: u32,
    unit: &RecoveryUnit<H>,
    letter: &LetterRef<'_>,
) -> Option<Refusal>
    ensures refusal { IsWithin (length known.now.stable_lengths.now) letter.now.content
        → result ≡ letter_refused (record {
          table = known.now.table.now;
          rows = known.now.rows;
          stable_lengths = known.now.stable_lengths.now;
        })
        optimism volatile_quota unit.now letter.now.source letter.now.content }
    ensures content { IfNone result (is_some letter.now.content ≡ true) }
    ensures within { IfNone result (IsWithin (length known.now.stable_lengths.now) letter.now.content) }
    ensures room { IfNone result (places unit.now < 2 ^ 32) }
{
    let content = match letter.content {
        Some(content) => content,
        None => {
            return forgotten_refusal(unit);
        }
    };
    match past_refusal(known, optimism, unit, content.vector()) {
        Some(refusal) => return Some(refusal),
        None => {}
    }
    let source = Source::Unit(letter.source);
    arrival_refusal(
        volatile_quota,
        unit,
        source,
        content.number(),
        content.text(),
    )
}

/// Why a receipt is refused for what its turn makes, where so many outputs are held, so many letters made, and so
/// many units there.
#[tactic(auto, unfolding(model::specs::Steps::first_refusal))]
pub fn turn_refusal<S>(
    quota: Quota,
    held: usize,
    letters: usize,
    width: usize,
    turn: &Turn<S>,
) -> Option<Refusal>
    ensures refusal { result ≡ turn_refused quota held letters width turn.now }
    ensures held { IfNone result (held + length turn.now.outputs < 2 ^ 32) }
    ensures room { IfNone result (letters + length (sends_within width turn.now) < 2 ^ 32) }
{
    if is_large(turn) {
        return Some(Refusal::TooMuch);
    }
    if exceed(held, turn.outputs().len(), quota.held) {
        return Some(Refusal::Quota);
    }
    if exceed(letters, count_within(turn.sends(), width), quota.letters) {
        return Some(Refusal::Quota);
    }
    None
}
