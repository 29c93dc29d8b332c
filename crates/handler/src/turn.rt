//! What a unit does upon one receipt.

ghost use Rattle.std.specs.Prelude.{◌≡◌, length};

use model::{Text, Unit};
use std::marker::Model;

/// What a unit does upon one receipt: its next state, what it sends to which units, and what it
/// puts out.
#[derive(Drop)]
pub struct Turn<S> {
    pub state: S,
    pub sends: Vec<(Unit, Text)>,
    pub outputs: Vec<Text>,
}

impl<S> Model for Turn<S> {
    ghost use Rattle.model.specs.Handler.{Turn as TurnOf};

    ghost Value = { TurnOf S };

    ghost view = { λ t. record { state = t.state; sends = t.sends.items; outputs = t.outputs.items } };
}

impl<S> Turn<S> {
    /// Lets what the unit passes on of the text that it received share its place. It stays the same turn, and this
    /// takes no memory.
    pub(crate) fn share(&mut self, received: &Text)
        ensures { self.new ≡ self.old }
    {
        for send in 0..self.sends.len() {
            self.sends[send].1.share_with(received);
        }
        for output in 0..self.outputs.len() {
            self.outputs[output].share_with(received);
        }
    }

    pub fn sends(&self) -> &[(Unit, Text)]
        ensures { result.now ≡ self.now.sends }
    {
        self.sends.as_slice()
    }

    pub fn outputs(&self) -> &[Text]
        ensures { result.now ≡ self.now.outputs }
    {
        self.outputs.as_slice()
    }
}
