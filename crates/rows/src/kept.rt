//! Rows of how much is kept of a unit's past.
//!
//! A line is a step of a caller, or `kept`, a tenant and a unit's number. For such a line comes out
//! `kept` with how many live records, checkpoints and texts of letters the book keeps of the unit's
//! past, or `kept nothing` where tenant or unit is not there.

use crate::calls::{self, name_of};
use anyhow::Context;
use book::Book;
use handler::Sample;
use stable_log::Store;
use std::alloc::Global;

/// Adds a line with how much is kept of the past of the unit that these words name.
pub(crate) fn push_kept<S: Store>(
    alloc: Global,
    text: &mut String,
    book: &Book<Sample, S>,
    words: &str,
) -> anyhow::Result<()> {
    let (name, number) = words.split_once(' ').context("a unit is wanted")?;
    let number = number.parse::<u8>().context("a number is wanted")?;
    let line = match calls::kept(book, &name_of(name)?, number) {
        Some(kept) => format!(in alloc;
            "kept {} {} {}\n",
            kept.records, kept.shelved, kept.letters
        )?,
        None => String::from_str(alloc, "kept nothing\n")?,
    };
    text.push_str(line.as_str())?;
    Ok(())
}
