//! The state of a unit.

ghost use Rattle.std.specs.Prelude.{◌≡◌};
ghost use Rattle.model.specs.Handler.{Turn as TurnOf};
ghost use Rattle.std.specs.Cmp.{decided, partial_equiv_from_equiv};
ghost use Rattle.programs.specs.Programs.{mapped, same_state, states_Decides};
ghost use Rattle.programs.specs.declared.state.State.TheVariants as states;

use crate::process::Process;
use handler::Turn;

/// The state of a unit: that of the sample handler, or a process.
#[derive(Drop)]
pub enum State {
    /// What a unit of the sample handler has.
    Sample(Option<u64>),
    /// What a unit that runs a program has.
    Process(Process),
}

impl PartialEq for State {
    ghost eq = { same_state };

    ghost laws = { partial_equiv_from_equiv (decided same_state states_Decides) };

    fn eq(&self, other: &State) -> bool {
        match (self, other) {
            (State::Sample(a), State::Sample(b)) => *a == *b,
            (State::Process(a), State::Process(b)) => *a == *b,
            _ => false,
        }
    }
}

impl Eq for State {
    ghost laws = { decided same_state states_Decides };
}

/// The turn of a unit of the sample handler.
pub(crate) fn of_sample(turn: Turn<Option<u64>>) -> Turn<State>
    ensures { result ≡ mapped states.Sample turn }
{
    let Turn {
        state,
        sends,
        outputs,
    } = turn;
    Turn {
        state: State::Sample(state),
        sends,
        outputs,
    }
}

/// The turn of a process.
pub(crate) fn of_process(turn: Turn<Process>) -> Turn<State>
    ensures { result ≡ mapped states.Process turn }
{
    let Turn {
        state,
        sends,
        outputs,
    } = turn;
    Turn {
        state: State::Process(state),
        sends,
        outputs,
    }
}
