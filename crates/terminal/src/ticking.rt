//! Lines of progress that are written while something else is done.

use crate::bar::Bar;
use crossbeam_channel::{Receiver, RecvTimeoutError};
use std::sync::Wait;
use std::time::{Clock, Duration};

/// Writes the bar's line each time that so many seconds are over, until the channel has no sender any more.
pub fn report_each<R: Wait + Clock + Eprint>(
    rt: &R,
    bar: &Bar<'_, R>,
    seconds: u64,
    ended: Receiver<()>,
) {
    let pause = Duration::from_secs(seconds);
    for _ in rt.forever() {
        match ended.recv_timeout(rt, pause) {
            Err(RecvTimeoutError::Timeout) => bar.report(),
            _ => return,
        }
    }
}
