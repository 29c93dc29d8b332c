//! Snapshots of a unit's progress on its shelf.

ghost use Rattle.std.specs.Prelude.{◌≡◌, [], IfOk, OnErr, Some};
ghost use Rattle.checkpoint.specs.Shelves.{IsTop};
ghost use Rattle.rollback.specs.Units.{shelf_with};

use crate::progress::{self, Progress};
use checkpoint::{Shelf, Snapshot};
use handler::Handler;
use model::NoMemory;
use std::alloc::Global;

/// The shelf of a unit at its beginning.
pub(crate) fn based<P: Drop>(alloc: Global, state: P) -> Shelf<P>
    ensures { result ≡ record { base = Some (record { index = 0; state = state }); others = [] } }
{
    Shelf::with_base(alloc, Snapshot { index: 0, state })
}

/// Shelves a copy of the progress, where there is one. Where that finds no memory, the shelf stays.
pub(crate) fn shelve<H: Handler>(
    alloc: Global,
    handler: &H,
    shelf: &mut Shelf<Progress<H::State>>,
    index: u32,
    progress: &Option<Progress<H::State>>,
) -> Result<(), NoMemory>
    requires { IsTop shelf.old index }
    ensures ok { IfOk result (λ _. shelf.new ≡ shelf_with shelf.old index progress.now) }
    ensures err { OnErr result (shelf.new ≡ shelf.old) }
{
    match progress {
        Some(progress) => {
            let state = progress::copy(alloc, handler, progress)?;
            shelf.put(Snapshot { index, state })
        }
        None => Ok(()),
    }
}
