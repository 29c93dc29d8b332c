//! A handler whose turns wait for each other.

ghost use Rattle.handler.specs.States.{states_equal};
ghost use Rattle.model.specs.Sample.{sample};

use crate::meeting::Meeting;
use handler::{Handler, Sample, Turn};
use model::{Kind, NoMemory, Seat, Source};
use std::alloc::Global;

/// Answers as `Sample`, once the turn upon the other text is worked too.
#[derive(Clone, Copy)]
pub(crate) struct Together<'a>(pub &'a Meeting);

impl<'a> Handler for Together<'a> {
    type State = Option<u64>;

    ghost meaning = { sample };

    ghost equality = { states_equal };

    fn copy(&self, alloc: Global, state: &Option<u64>) -> Result<Option<u64>, NoMemory> {
        Sample.copy(alloc, state)
    }

    fn kind(&self, name: &str) -> Option<Kind> {
        Sample.kind(name)
    }

    fn begin(&self, alloc: Global, seat: Seat) -> Result<Option<u64>, NoMemory> {
        Sample.begin(alloc, seat)
    }

    fn handle(
        &self,
        alloc: Global,
        seat: Seat,
        state: &Option<u64>,
        source: Source,
        text: &str,
    ) -> Result<Turn<Option<u64>>, NoMemory> {
        self.0.meet(text == "0");
        Sample.handle(alloc, seat, state, source, text)
    }
}
