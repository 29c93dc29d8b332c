//! What a caller puts around turns.

/// What a caller puts around turns, as tests do to see which of them are worked at once.
pub trait Gate {
    /// Called outside the lock just before a turn is worked for step `at` (from 0) of a feed.
    fn before(&self, feed: u32, at: u32);

    /// Called outside the lock once that step's reply is there.
    fn after(&self, feed: u32, at: u32);
}
