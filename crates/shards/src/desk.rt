//! What the lines of a block are answered with.

ghost use Rattle.std.specs.Prelude.{◌≡◌, ◌<◌, ◌≤◌, IfOk, length, vec_capacity};
ghost use Rattle.shards.specs.declared.kept.TheConstants.{MOST_LINES};

use crate::faults::FaultLines;
use crate::kept::MOST_LINES;
use crate::place::Place;
use crate::reading::Reader;
use model::NoMemory;
use std::alloc::Global;

/// What the lines of a block are answered with: who reads them, where each is answered, and the reply lines of faults.
#[derive(Drop)]
pub(crate) struct Desk {
    pub readers: Vec<Reader>,
    pub places: Vec<Place>,
    pub faults: FaultLines,
    pub ghost some: { 0 < length readers.items },
    pub ghost room: { MOST_LINES ≤ vec_capacity places },
}

impl Desk {
    /// A desk with so many readers. `NoMemory` comes where there is none for its lists.
    pub(crate) fn new(alloc: Global, readers: usize) -> Result<Desk, NoMemory>
        requires { 0 < readers }
    {
        let places = Vec::with_capacity(alloc, MOST_LINES)?;
        let readers = some_readers(alloc, readers)?;
        let faults = FaultLines::new(alloc)?;
        Ok(Desk {
            readers,
            places,
            faults,
        })
    }
}

/// So many readers.
fn some_readers(alloc: Global, count: usize) -> Result<Vec<Reader>, NoMemory>
    ensures { IfOk result (λ readers. length readers.items ≡ count) }
{
    let mut readers = Vec::new(alloc);
    for _at in 0..count {
        readers.push(Reader::new(alloc))?;
    }
    Ok(readers)
}
