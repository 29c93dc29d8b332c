//! Vectors, and what is kept of an interval.

ghost use Rattle.codec.specs.Codes.{marks_code};
ghost use Rattle.codec.specs.Layers.{interval_code, FitsInterval, FitsVector};

use crate::coded::Coded;
use crate::containers::encode_list;
use crate::fault::DecodeFault;
use crate::input::Input;
use depvector::SharedVector;
use model::{Letter, Marks, NoMemory};
use rollback::Interval;
use std::alloc::Global;

/// How many entries a vector has at most: units have numbers of 8 bits.
const MAX_ENTRIES: usize = 256;

impl Coded for SharedVector {
    ghost code = { marks_code };

    ghost fits = { FitsVector };

    fn encode(&self, out: &mut Vec<u8>) -> Result<(), NoMemory> {
        encode_list(self.as_slice(), out)
    }

    fn decode(alloc: Global, input: &mut Input) -> Result<SharedVector, DecodeFault> {
        let marks = Marks::decode(alloc, input)?;
        if marks.as_slice().len() > MAX_ENTRIES {
            return Err(DecodeFault::Damaged);
        }
        let vector = SharedVector::of(alloc, &marks)?;
        Ok(vector)
    }
}

impl Coded for Interval {
    ghost code = { interval_code };

    ghost fits = { FitsInterval };

    fn encode(&self, out: &mut Vec<u8>) -> Result<(), NoMemory> {
        self.vector.encode(out)?;
        self.letter.encode(out)
    }

    fn decode(alloc: Global, input: &mut Input) -> Result<Interval, DecodeFault> {
        let vector = SharedVector::decode(alloc, input)?;
        let letter = Option::<Letter>::decode(alloc, input)?;
        Ok(Interval { vector, letter })
    }
}
