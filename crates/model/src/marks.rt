//! Lists of marks.

use crate::names::Mark;
use crate::short_list::{MAX_INLINE_ITEMS, ShortList};

/// How many marks of a list lie in the value itself.
pub const MAX_INLINE_MARKS: usize = MAX_INLINE_ITEMS;

/// A list of marks, seen as such.
pub type Marks = ShortList<Mark>;
