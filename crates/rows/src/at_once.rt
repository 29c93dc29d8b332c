//! The steps of a row, done by one call.

use crate::answers::push_replies;
use crate::calls::{replies_of, run, tenants};
use anyhow::Context;
use book::Book;
use handler::Sample;
use model::{Step, TenantName};
use stable_log::Store;
use std::alloc::Global;

/// The replies of the book to these steps, done by one call, and behind them those that it then tells of each tenant.
pub(crate) fn at_once<S: Store>(
    alloc: Global,
    book: &mut Book<Sample, S>,
    steps: &[Step],
) -> anyhow::Result<String> {
    let mut text = String::new(alloc);
    let replies = run(book, steps)?;
    push_replies(alloc, &mut text, replies.as_slice())?;
    push_told(alloc, book, &mut text)?;
    Ok(text)
}

/// Adds the replies that the book tells of each tenant.
fn push_told<S: Store>(
    alloc: Global,
    book: &Book<Sample, S>,
    text: &mut String,
) -> anyhow::Result<()> {
    let names = tenants(book)?;
    for name in names.iter() {
        let replies = replies_of(book, name)?;
        push_replies(alloc, text, replies.as_slice())?;
    }
    Ok(())
}

/// These replies to the steps, and behind them those to each tenant that a step opens.
pub(crate) fn with_own(alloc: Global, steps: &[Step], replies: &str) -> anyhow::Result<String> {
    let mut text = String::new(alloc);
    text.push_str(replies)?;
    for step in steps {
        if let Step::Open { tenant, .. } = step {
            push_own(tenant, steps, replies, &mut text)?;
        }
    }
    Ok(text)
}

/// Adds the replies to the tenant's own steps.
fn push_own(
    name: &TenantName,
    steps: &[Step],
    replies: &str,
    text: &mut String,
) -> anyhow::Result<()> {
    let mut lines = replies.lines();
    for step in steps {
        let line = lines.next().context("a reply is wanted")?;
        if step.tenant().as_str() == name.as_str() {
            text.push_str(line)?;
            text.push('\n')?;
        }
    }
    Ok(())
}
