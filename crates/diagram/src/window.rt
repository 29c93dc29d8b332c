//! Which columns are drawn.

/// Columns that are drawn where no count is asked for.
const MOST_COLUMNS: usize = 500;

/// Which columns are drawn.
#[derive(Clone, Copy, Debug)]
pub enum Window {
    /// The last 500 at most.
    Latest,
    /// From this one on, 500 at most. The first column is 0.
    From(usize),
    /// So many last ones at most.
    Last(usize),
}

/// A range of columns.
#[derive(Clone, Copy)]
pub(crate) struct Columns {
    pub first: usize,
    pub end: usize,
}

impl Window {
    /// The columns of the window, of so many in all.
    pub(crate) fn columns(self, all: usize) -> Columns {
        match self {
            Window::Latest => Columns {
                first: all.saturating_sub(MOST_COLUMNS),
                end: all,
            },
            Window::From(first) => Columns {
                first: first.min(all),
                end: first.saturating_add(MOST_COLUMNS).min(all),
            },
            Window::Last(count) => Columns {
                first: all.saturating_sub(count),
                end: all,
            },
        }
    }
}

impl Columns {
    /// How many they are.
    pub(crate) fn count(self) -> usize {
        self.end.saturating_sub(self.first)
    }

    /// Whether the column is one of them.
    pub(crate) fn has(self, column: usize) -> bool {
        self.first <= column && column < self.end
    }
}
