//! Which file a path names.

use std::fs::Metadata;
use std::os::unix::fs::MetadataExt;

/// The place of a file on its device, whatever its path is.
#[derive(Clone, Copy, PartialEq, Eq)]
pub(crate) struct Place {
    device: u64,
    node: u64,
}

impl Place {
    /// That of the file which was asked.
    pub(crate) fn of(found: &Metadata) -> Place {
        Place {
            device: found.dev(),
            node: found.ino(),
        }
    }
}
