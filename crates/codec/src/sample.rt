//! The states of the sample handler.

ghost use Rattle.std.specs.Prelude.{◌<◌, ◌^◌};
ghost use Rattle.codec.specs.Codes.{number_code, option_code, FitsSome};

use crate::coded::Coded;
use crate::fault::DecodeFault;
use crate::input::Input;
use crate::portable::Portable;
use handler::Sample;
use model::NoMemory;
use std::alloc::Global;

impl Portable for Sample {
    ghost state_code = { option_code number_code };

    ghost state_fits = { FitsSome (λ n. n < 2 ^ 64) };

    fn write_state(&self, state: &Option<u64>, out: &mut Vec<u8>) -> Result<(), NoMemory> {
        state.encode(out)
    }

    fn read_state(&self, alloc: Global, input: &mut Input) -> Result<Option<u64>, DecodeFault> {
        Option::<u64>::decode(alloc, input)
    }
}
