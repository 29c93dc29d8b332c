//! The handler.

ghost use Rattle.programs.specs.Programs.{programs, states_equal};

use crate::process::Process;
use crate::state::{State, of_process, of_sample};
use crate::turns::process_turn;
use handler::{Handler, Sample, Turn};
use model::{Kind, NoMemory, Seat, Source};
use std::alloc::Global;

/// The number of the kind `rv32-1`.
const PROCESS: u8 = 5;

/// Runs programs of RV32IM, each in a unit of its own, beside the units of the sample handler.
#[derive(Debug, Clone, Copy, PartialEq, Eq)]
pub struct Programs;

impl Handler for Programs {
    type State = State;

    ghost meaning = { programs };

    ghost equality = { states_equal };

    fn copy(&self, alloc: Global, state: &State) -> Result<State, NoMemory> {
        match state {
            State::Sample(number) => Ok(State::Sample(*number)),
            State::Process(process) => Ok(State::Process(process.copy(alloc)?)),
        }
    }

    fn kind(&self, name: &str) -> Option<Kind> {
        if name == "rv32-1" {
            Some(Kind::new(PROCESS))
        } else {
            Sample.kind(name)
        }
    }

    fn begin(&self, alloc: Global, seat: Seat) -> Result<State, NoMemory> {
        if seat.kind.number() == PROCESS {
            Ok(State::Process(Process::new(alloc)?))
        } else {
            Ok(State::Sample(Sample.begin(alloc, seat)?))
        }
    }

    fn handle(
        &self,
        alloc: Global,
        seat: Seat,
        state: &State,
        source: Source,
        text: &str,
    ) -> Result<Turn<State>, NoMemory> {
        match state {
            State::Sample(number) => Ok(of_sample(Sample.handle(
                alloc, seat, number, source, text,
            )?)),
            State::Process(process) => {
                Ok(of_process(process_turn(alloc, seat, process, source, text)?))
            }
        }
    }
}
