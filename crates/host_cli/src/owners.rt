//! Whose a journal and its snapshots are.

use files::Owner;
use log::{Log, error};
use std::alloc::{AllocError, Global};
use words::Program;

/// Whose a journal of the program is.
pub(crate) fn owner_of<'a>(program: &Program<'a>) -> Owner<'a> {
    Owner {
        version: program.version,
        handler: program.handler,
        handler_version: program.handler_version,
    }
}

/// What a snapshot is about: the command, the handler and its version.
pub(crate) fn about_of(
    alloc: Global,
    owner: &Owner<'_>,
    drives: bool,
) -> Result<String, AllocError> {
    let command = if drives { "drive" } else { "run" };
    format!(in alloc; "{command} {} {}", owner.handler, owner.handler_version)
}

/// Tells that what a snapshot is about can't be said, and the status to end with.
pub(crate) fn no_name<L: Log>(told: &L) -> u8 {
    error!(told; "there is no memory for the name of the handler");
    1
}
