//! Where a line's text stands.

use lines::LineFault;

/// Where a line's text stands.
#[derive(Clone, Copy, PartialEq, Eq)]
pub(crate) enum Span {
    /// From one place among the bytes of a block up to another.
    Text(usize, usize),
    /// Nowhere: the line gives no step, for this reason.
    Not(LineFault),
}
