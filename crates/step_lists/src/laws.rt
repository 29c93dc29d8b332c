//! The law.

ghost use Rattle.step_lists.specs.Lists.{HeadlineOfAnswers, HeadlineOfLists};

use handler::Handler;

/// The headline, of lists of steps. Two new books are given two lists, by `Book::run` or one by one by `Book::step`,
/// and no reply tells of memory that was missing or of a device that failed. Then each history is its list, with the
/// replies that were given. Where the lists agree on a tenant's own steps, the replies to it, its rows and its
/// released outputs are equal, whatever other steps stand between and around them; its certificate is a run without
/// failures whose outputs begin with those released; and what was released at any earlier moment is a beginning of
/// what is released at the end.
pub fn headline_of_lists<H: Handler>()
    ensures { HeadlineOfLists H.meaning }
{}

/// The same where a device may fail: no reply tells of memory that was missing. Each history is its list, with the
/// replies that were given. Where the two agree on a tenant's own steps and on what the store said to each, the rest is
/// as in `headline_of_lists`.
pub fn headline_of_answers<H: Handler>()
    ensures { HeadlineOfAnswers H.meaning }
{}
