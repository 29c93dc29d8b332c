//! Outputs that wait.

ghost use Rattle.codec.specs.Layers.{held_code, FitsHeld};

use crate::coded::Coded;
use crate::fault::DecodeFault;
use crate::input::Input;
use model::{Mark, NoMemory, Text};
use output_commit::Held;
use std::alloc::Global;

impl Coded for Held {
    ghost code = { held_code };

    ghost fits = { FitsHeld };

    fn encode(&self, out: &mut Vec<u8>) -> Result<(), NoMemory> {
        self.mark.encode(out)?;
        self.text.encode(out)
    }

    fn decode(alloc: Global, input: &mut Input) -> Result<Held, DecodeFault> {
        let mark = Mark::decode(alloc, input)?;
        let text = Text::decode(alloc, input)?;
        Ok(Held { mark, text })
    }
}
