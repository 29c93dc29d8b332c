//! Comparing a history with the feeds and with the receipts that their threads kept.

ghost use Rattle.std.specs.Prelude.{◌≡◌, ℕ, ◌<◌, ◌≤◌, ◌^◌, ◌++◌, [], IfSome, IsTrue, drop, length, map, slice_index_or};
ghost use Rattle.workers.specs.Interleaves.{AllExpected, HasReceipts, Interleaves, IsExpected, numbered, replies_by};
ghost use Rattle.workers.specs.Interleaves.{reply_by, step_by, steps_by};

use crate::closed::is_by;
use model::{Entry, Reply, Step, Who};

/// The number of the feed's next step after an entry, if the entry is not the feed's, or is its
/// next step.
#[tactic(auto, using(std::proofs::lemmas::Grind::common_steps, model::proofs::Equality::step_decides))]
fn after_entry(entry: &Entry, feed: u32, next: usize, steps: &[Step]) -> Option<usize>
    requires { next ≤ length steps.now }
    ensures within { IfSome result (λ n. n ≤ length steps.now) }
    ensures rest { IfSome result (λ n. step_by feed entry.now.who entry.now.step ++ numbered n (drop n steps.now)
        ≡ numbered next (drop next steps.now)) }
{
    let Who::Feed { feed: by, at } = entry.who else {
        return Some(next);
    };
    if feed != by {
        return Some(next);
    }
    if next >= steps.len() || at as usize != next {
        return None;
    }
    if entry.step != steps[next] {
        return None;
    }
    Some(next + 1)
}

/// Whether the history has the feed's steps in order.
fn has_feed(history: &[Entry], feed: u32, steps: &[Step]) -> bool
    ensures { IsTrue result → steps_by feed history.now ≡ numbered 0 steps.now }
{
    let mut next = 0usize;
    for entry in history {
        let Some(after) = after_entry(entry, feed, next, steps) else {
            return false;
        };
        next = after;
    }
    next == steps.len()
}

/// Whether an entry is a step of one of the first feeds, or a flush by the logger.
fn is_expected(entry: &Entry, feeds: usize) -> bool
    ensures { IsTrue result → IsExpected feeds entry.now.who entry.now.step }
{
    match entry.who {
        Who::Caller => false,
        Who::Feed { feed, .. } => (feed as usize) < feeds,
        Who::Logger => match &entry.step {
            Step::Flush { .. } => true,
            _ => false,
        },
    }
}

/// Whether each entry is a step of one of the first feeds, or a flush by the logger.
fn all_expected(history: &[Entry], feeds: usize) -> bool
    ensures { IsTrue result → AllExpected feeds history.now }
{
    for entry in history {
        if !is_expected(entry, feeds) {
            return false;
        }
    }
    true
}

/// Whether the history has each feed's steps in order.
fn all_feeds(history: &[Entry], feeds: &[Vec<Step>]) -> bool
    requires { length feeds.now < 2 ^ 32 }
    ensures { IsTrue result
        → ((f : ℕ) → f < length feeds.now
        → steps_by f history.now ≡ numbered 0 (slice_index_or (map (λ v. v.items) feeds.now) f [])) }
{
    for feed in 0..feeds.len() {
        if !has_feed(history, feed as u32, feeds[feed].as_slice()) {
            return false;
        }
    }
    true
}

/// Whether the history interleaves the feeds with flushes by the logger.
pub(crate) fn is_matched(history: &[Entry], feeds: &[Vec<Step>]) -> bool
    requires { length feeds.now < 2 ^ 32 }
    ensures { IsTrue result → Interleaves (map (λ v. v.items) feeds.now) history.now }
{
    all_feeds(history, feeds) && all_expected(history, feeds.len())
}

/// The number of the feed's next receipt after an entry, if the entry is not the feed's, or its
/// reply is the next receipt.
#[tactic(auto, using(std::proofs::lemmas::Grind::common_steps, model::proofs::Equality::reply_decides))]
fn after_reply(entry: &Entry, feed: u32, next: usize, receipts: &[Reply]) -> Option<usize>
    requires { next ≤ length receipts.now }
    ensures within { IfSome result (λ n. n ≤ length receipts.now) }
    ensures rest { IfSome result (λ n.
        reply_by feed entry.now.who entry.now.reply ++ drop n receipts.now ≡ drop next receipts.now) }
{
    if !is_by(entry.who, feed) {
        return Some(next);
    }
    if next < receipts.len() && entry.reply == receipts[next] {
        Some(1 + next)
    } else {
        None
    }
}

/// Whether the replies to the feed's steps are its receipts, in order.
fn has_receipts(history: &[Entry], feed: u32, receipts: &[Reply]) -> bool
    ensures { IsTrue result → replies_by feed history.now ≡ receipts.now }
{
    let mut next = 0usize;
    for entry in history {
        let Some(after) = after_reply(entry, feed, next, receipts) else {
            return false;
        };
        next = after;
    }
    next == receipts.len()
}

/// Whether the replies to each feed's steps are its receipts, in order.
fn all_receipts(history: &[Entry], receipts: &[Vec<Reply>]) -> bool
    requires { length receipts.now < 2 ^ 32 }
    ensures { IsTrue result
        → ((f : ℕ) → f < length receipts.now
        → replies_by f history.now ≡ slice_index_or (map (λ v. v.items) receipts.now) f []) }
{
    for feed in 0..receipts.len() {
        if !has_receipts(history, feed as u32, receipts[feed].as_slice()) {
            return false;
        }
    }
    true
}

/// Whether there are receipts of so many feeds, and those of each are the replies to its steps.
pub(crate) fn has_all_receipts(history: &[Entry], feeds: usize, receipts: &[Vec<Reply>]) -> bool
    requires { feeds < 2 ^ 32 }
    ensures { IsTrue result → HasReceipts feeds (map (λ v. v.items) receipts.now) history.now }
{
    receipts.len() == feeds && all_receipts(history, receipts)
}
