//! Threads that wait for each other.

use std::hint;
use std::sync::atomic::{AtomicBool, AtomicU32, Ordering};

/// How many turns of a loop a thread waits at most.
const TURNS: u64 = 100_000_000;

/// Waits for a flag, and tells whether it came.
pub(crate) fn wait_for(flag: &AtomicBool) -> bool {
    for _ in 0..TURNS {
        if flag.load(Ordering::SeqCst) {
            return true;
        }
        hint::spin_loop();
    }
    false
}

/// Waits until something was counted so often, and tells whether it was.
pub(crate) fn wait_for_count(counter: &AtomicU32, count: u32) -> bool {
    for _ in 0..TURNS {
        if counter.load(Ordering::SeqCst) >= count {
            return true;
        }
        hint::spin_loop();
    }
    false
}

/// Two sides that wait for each other.
#[derive(Drop)]
pub(crate) struct Meeting {
    here: [AtomicBool; 2],
    seen: [AtomicBool; 2],
}

impl Meeting {
    pub(crate) fn new() -> Meeting {
        Meeting {
            here: [AtomicBool::new(false), AtomicBool::new(false)],
            seen: [AtomicBool::new(false), AtomicBool::new(false)],
        }
    }

    /// One side is here, and waits for the other.
    pub(crate) fn meet(&self, first: bool) {
        let (mine, other) = if first { (0, 1) } else { (1, 0) };
        self.here[mine].store(true, Ordering::SeqCst);
        if wait_for(&self.here[other]) {
            self.seen[mine].store(true, Ordering::SeqCst);
        }
    }

    /// Whether each side saw the other.
    pub(crate) fn have_met(&self) -> bool {
        self.seen[0].load(Ordering::SeqCst) && self.seen[1].load(Ordering::SeqCst)
    }
}
