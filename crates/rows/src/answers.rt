//! What a book answers to one line.

use crate::calls::{reply_line, step};
use book::Book;
use handler::Sample;
use lines::{fault_reply, read_step};
use model::Reply;
use stable_log::Store;
use std::alloc::Global;

/// The reply to a line.
pub(crate) fn answer<S: Store>(
    alloc: Global,
    book: &mut Book<Sample, S>,
    line: &str,
) -> anyhow::Result<Reply> {
    match read_step(alloc, line.as_bytes()) {
        Ok(given) => Ok(step(book, given)),
        Err(fault) => Ok(fault_reply(fault)),
    }
}

/// One more line of text with this reply.
pub(crate) fn push_reply(alloc: Global, text: &mut String, reply: &Reply) -> anyhow::Result<()> {
    text.push_str(reply_line(alloc, reply)?.as_str())?;
    text.push('\n')?;
    Ok(())
}

/// One more line of text for each of these replies.
pub(crate) fn push_replies(
    alloc: Global,
    text: &mut String,
    replies: &[Reply],
) -> anyhow::Result<()> {
    for reply in replies {
        push_reply(alloc, text, reply)?;
    }
    Ok(())
}
