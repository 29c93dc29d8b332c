//! What a turn does beside changing the state.

use model::{Text, Unit};
use std::marker::Model;

/// What a turn sends to which units, and what it puts out.
#[derive(Drop)]
pub struct Effects {
    pub sends: Vec<(Unit, Text)>,
    pub outputs: Vec<Text>,
}

impl Model for Effects {
    ghost use Rattle.rollback.specs.Units.{Effects as EffectsOf};

    ghost Value = { EffectsOf };

    ghost view = { λ e. record { sends = e.sends.items; outputs = e.outputs.items } };
}
