//! What is put around the turns of feeds.

use crate::meeting::{Meeting, wait_for, wait_for_count};
use std::sync::atomic::{AtomicBool, AtomicU32, Ordering};
use workers::Gate;

/// Does nothing.
#[derive(Drop)]
pub(crate) struct Idle;

impl Gate for Idle {
    fn before(&self, _feed: u32, _at: u32) {}

    fn after(&self, _feed: u32, _at: u32) {}
}

/// Two feeds meet before the turns of their second steps.
#[derive(Drop)]
pub(crate) struct AtGate<'a>(pub &'a Meeting);

impl<'a> Gate for AtGate<'a> {
    fn before(&self, feed: u32, at: u32) {
        if at == 1 {
            self.0.meet(feed == 0);
        }
    }

    fn after(&self, _feed: u32, _at: u32) {}
}

/// Holds the turn of a feed's third step until something is told.
#[derive(Drop)]
pub(crate) struct UntilTold<'a> {
    pub told: &'a AtomicBool,
    pub seen: &'a AtomicBool,
}

impl<'a> Gate for UntilTold<'a> {
    fn before(&self, _feed: u32, at: u32) {
        if at == 2 && wait_for(self.told) {
            self.seen.store(true, Ordering::SeqCst);
        }
    }

    fn after(&self, _feed: u32, _at: u32) {}
}

/// The place in feed 0 of its first delivery, and in feed 1 of the post that the deliveries make stale.
pub(crate) const FIRST_DELIVERY: u32 = 4;

pub(crate) const OVERTAKEN: u32 = 2;

/// Feed 1 holds the turn of a post each time until feed 0 delivered one more letter to the same unit, which feed 0 does
/// once that turn was asked for, so often.
#[derive(Drop)]
pub(crate) struct Overtaking<'a> {
    /// How often feed 1 is overtaken.
    pub times: u32,
    /// Whether the tenant is open and the letters are made.
    pub ready: &'a AtomicBool,
    /// How often the turn of feed 1's post was asked for.
    pub asked: &'a AtomicU32,
    /// How many letters feed 0 delivered.
    pub delivered: &'a AtomicU32,
}

impl<'a> Overtaking<'a> {
    /// Feed 0 delivers a letter once the turn was asked for so often.
    fn before_delivery(&self, at: u32) {
        if at >= FIRST_DELIVERY {
            let due = (at - FIRST_DELIVERY).saturating_add(1);
            let _ = wait_for_count(self.asked, due);
        }
    }

    /// Feed 1 comes to its post once it can be taken, and works its turn once it was overtaken.
    fn before_post(&self, at: u32) {
        if at != OVERTAKEN {
            let _ = wait_for(self.ready);
            return;
        }
        let asked = self.asked.fetch_add(1, Ordering::SeqCst).saturating_add(1);
        if asked <= self.times {
            let _ = wait_for_count(self.delivered, asked);
        }
    }
}

impl<'a> Gate for Overtaking<'a> {
    fn before(&self, feed: u32, at: u32) {
        if feed == 0 {
            self.before_delivery(at);
        } else {
            self.before_post(at);
        }
    }

    fn after(&self, feed: u32, at: u32) {
        if feed != 0 {
            return;
        }
        if at >= FIRST_DELIVERY {
            self.delivered.fetch_add(1, Ordering::SeqCst);
        } else if at + 1 == FIRST_DELIVERY {
            self.ready.store(true, Ordering::SeqCst);
        }
    }
}
