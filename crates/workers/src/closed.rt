//! What a run leaves.

ghost use Rattle.std.specs.Prelude.{◌≡◌, ◌∷◌, [], IfOk, cond};
ghost use Rattle.model.specs.declared.replies.Reply.{Reply as ReplyOf};
ghost use Rattle.workers.specs.Interleaves.{replies_by, reply_by};

use book::Book;
use handler::Handler;
use model::{Entry, NoMemory, Reply, Who};
use shared_log::Store;
use std::alloc::Global;
use std::marker::Model;

/// The book of a run that is over. Contracts see it as the book's history and log.
#[derive(Drop)]
pub struct Closed<H: Handler, S: Store> {
    alloc: Global,
    book: Book<H, S>,
}

impl<H: Handler, S: Store> Model for Closed<H, S> {
    ghost use Rattle.book.specs.Entries.{Ledger};

    ghost Value = { Ledger };

    ghost view = { λ c. c.book };
}

impl<H: Handler, S: Store> Closed<H, S> {
    pub(crate) fn new(alloc: Global, book: Book<H, S>) -> Closed<H, S>
        ensures { result ≡ book }
    {
        Closed { alloc, book }
    }

    /// Leaves it as it is, where the process ends with it: to let go of all that it keeps takes a while.
    pub fn forget(self) {
        let Closed { book, .. } = self;
        book.forget();
    }

    /// The book. What its calls say of a book holds of it.
    pub fn book(&self) -> &Book<H, S>
        ensures { result.now ≡ self.now }
    {
        &self.book
    }

    /// The replies to the steps of a feed (from 0), in its order; none for a feed that was not
    /// there. `NoMemory` comes where there is none for the copies.
    pub fn replies(&self, feed: u32) -> Result<Vec<Reply>, NoMemory>
        ensures { IfOk result (λ replies. replies.items ≡ replies_by feed self.now.history) }
    {
        replies_in(self.alloc, self.book.history(), feed)
    }
}

fn replies_in(alloc: Global, history: &[Entry], feed: u32) -> Result<Vec<Reply>, NoMemory>
    ensures { IfOk result (λ replies. replies.items ≡ replies_by feed history.now) }
{
    let mut replies = Vec::new(alloc);
    for entry in history {
        if is_by(entry.who, feed) {
            replies.push(entry.reply.copy(alloc)?)?;
        }
    }
    Ok(replies)
}

/// Whether the feed gave it.
pub(crate) fn is_by(who: Who, feed: u32) -> bool
    ensures { (r : ReplyOf) → reply_by feed who r ≡ cond result (r ∷ []) [] }
{
    match who {
        Who::Feed { feed: by, .. } => feed == by,
        _ => false,
    }
}
