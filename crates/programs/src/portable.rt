//! States as bytes.

ghost use Rattle.programs.specs.Coding.{process_code, state_code, FitsProcess, FitsState};

use crate::memories::{decode_memory, encode_memory};
use crate::process::Process;
use crate::programs::Programs;
use crate::state::State;
use codec::{Coded, DecodeFault, Input, Portable};
use handler::Sample;
use model::NoMemory;
use std::alloc::Global;

impl Coded for Process {
    ghost code = { process_code };

    ghost fits = { FitsProcess };

    fn encode(&self, out: &mut Vec<u8>) -> Result<(), NoMemory> {
        encode_memory(&self.memory, out)?;
        self.has_program.encode(out)?;
        encode_memory(&self.image, out)?;
        self.loaded.encode(out)
    }

    fn decode(alloc: Global, input: &mut Input) -> Result<Process, DecodeFault> {
        let memory = decode_memory(alloc, input)?;
        let has_program = bool::decode(alloc, input)?;
        let image = decode_memory(alloc, input)?;
        let loaded = u32::decode(alloc, input)?;
        Ok(Process {
            memory,
            has_program,
            image,
            loaded,
        })
    }
}

impl Portable for Programs {
    ghost state_code = { state_code };

    ghost state_fits = { FitsState };

    fn write_state(&self, state: &State, out: &mut Vec<u8>) -> Result<(), NoMemory> {
        match state {
            State::Sample(number) => {
                out.push(0)?;
                Sample.write_state(number, out)
            }
            State::Process(process) => {
                out.push(1)?;
                process.encode(out)
            }
        }
    }

    fn read_state(&self, alloc: Global, input: &mut Input) -> Result<State, DecodeFault> {
        match input.byte()? {
            0 => {
                let number = Sample.read_state(alloc, input)?;
                Ok(State::Sample(number))
            }
            1 => {
                let process = Process::decode(alloc, input)?;
                Ok(State::Process(process))
            }
            _ => Err(DecodeFault::Damaged),
        }
    }
}
