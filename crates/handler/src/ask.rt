//! A turn that is asked for, where its unit keeps it or as a value, and one that was worked.

ghost use Rattle.std.specs.Prelude.{◌≡◌, ◌↔◌, IfOk, IsTrue};
ghost use Rattle.handler.specs.Inputs.{Worked, turn_upon_input};

use crate::handler::Handler;
use crate::turn::Turn;
use model::{NoMemory, Seat, Source, Text};
use std::alloc::Global;
use std::marker::Model;

/// The whole input of a turn, where its parts lie: who looks at it copies no state. Its turn can be worked in this
/// place, and it can be had as a value.
#[derive(Drop)]
pub struct AskRef<'a, H: Handler> {
    pub seat: Seat,
    pub state: &'a H::State,
    pub source: Source,
    pub text: &'a Text,
}

impl<'a, H: Handler> Model for AskRef<'a, H> {
    ghost use Rattle.handler.specs.Inputs.{Input};

    ghost Value = { Input H.State };

    ghost view = { λ a. record { seat = a.seat; state = a.state.now; source = a.source; text = a.text.now } };
}

impl<'a, H: Handler> AskRef<'a, H> {
    /// Works the turn, whose texts share the place of this one's where they are equal. `NoMemory` comes where the
    /// handler found none.
    pub fn work(&self, alloc: Global, handler: &H) -> Result<Turn<H::State>, NoMemory>
        ensures { IfOk result (λ turn. turn ≡ turn_upon_input H.meaning self.now) }
    {
        let text = self.text.as_str();
        let mut turn = handler.handle(alloc, self.seat, self.state, self.source, text)?;
        turn.share(self.text);
        Ok(turn)
    }

    /// Whether it is the same whole input. It takes no memory.
    pub fn is_same(&self, other: &Ask<H>) -> bool
        ensures { IsTrue result ↔ (self.now ≡ other.now) }
    {
        self.seat == other.seat
            && *self.state == other.state
            && self.source == other.source
            && *self.text == other.text
    }

    /// The same input as a value of its own. `NoMemory` comes where the copy of the state found none.
    pub fn to_ask(&self, alloc: Global, handler: &H) -> Result<Ask<H>, NoMemory>
        ensures { IfOk result (λ ask. ask ≡ self.now) }
    {
        let state = handler.copy(alloc, self.state)?;
        let text = self.text.copy()?;
        Ok(Ask::new(self.seat, state, self.source, text))
    }
}

/// The whole input of a turn: seat, state, source and text. Who has it can work the turn wherever
/// it likes, and needs nothing else for it.
#[derive(Drop)]
pub struct Ask<H: Handler> {
    seat: Seat,
    state: H::State,
    source: Source,
    text: Text,
}

impl<H: Handler> Model for Ask<H> {
    ghost use Rattle.handler.specs.Inputs.{Input};

    ghost Value = { Input H.State };

    ghost view = { λ a. record { seat = a.seat; state = a.state; source = a.source; text = a.text } };
}

/// A turn that was worked, with the input that it was worked from. It is always what the handlers
/// of the type mean by that input.
#[derive(Drop)]
pub struct Done<H: Handler> {
    input: Ask<H>,
    turn: Turn<H::State>,
}

impl<H: Handler> Model for Done<H> {
    ghost use Rattle.std.specs.Prelude.{◌≡◌};
    ghost use Rattle.handler.specs.Inputs.{Worked, turn_upon_input};

    ghost Value = { Worked H.State };

    ghost view = { λ d. record { input = d.input; turn = d.turn } };

    ghost invariant = { λ d. d.turn ≡ turn_upon_input H.meaning d.input };
}

impl<H: Handler> Ask<H> {
    /// Asks for the turn of this input.
    pub fn new(seat: Seat, state: H::State, source: Source, text: Text) -> Ask<H>
        ensures { result ≡ record { seat = seat; state = state; source = source; text = text } }
    {
        Ask {
            seat,
            state,
            source,
            text,
        }
    }

    /// Whose turn it is. It takes no memory.
    pub fn seat(&self) -> Seat
        ensures { result ≡ self.now.seat }
    {
        let Ask { seat, .. } = self;
        *seat
    }

    /// The same input, where it lies.
    pub fn as_ref(&self) -> AskRef<'_, H>
        ensures { result ≡ self.now }
    {
        AskRef {
            seat: self.seat,
            state: &self.state,
            source: self.source,
            text: &self.text,
        }
    }

    /// Works the turn. `NoMemory` comes where the handler found none.
    pub fn work(self, alloc: Global, handler: &H) -> Result<Done<H>, NoMemory>
        ensures { IfOk result (λ d. d.input ≡ self) }
    {
        let turn = self.as_ref().work(alloc, handler)?;
        Ok(Done { input: self, turn })
    }
}

impl<H: Handler> Done<H> {
    /// The input.
    pub fn input(&self) -> &Ask<H>
        ensures { result.now ≡ self.now.input }
    {
        &self.input
    }

    /// The turn, which is what the input means, to be looked at. It takes no memory.
    pub fn turn(&self) -> &Turn<H::State>
        ensures { result.now ≡ turn_upon_input H.meaning self.now.input }
    {
        &self.turn
    }

    /// The turn, which is what the input means.
    pub fn into_turn(self) -> Turn<H::State>
        ensures { result ≡ turn_upon_input H.meaning self.input }
    {
        let Done { input, turn } = self;
        turn
    }
}
