//! What a unit took from each source and sent to each unit.

ghost use Rattle.codec.specs.Layers.{counts_code, exchange_code, FitCounts, FitsExchange};

use crate::coded::Coded;
use crate::containers::{decode_list, encode_list};
use crate::fault::DecodeFault;
use crate::input::Input;
use model::{NoMemory, Source};
use session::{Exchange, Sessions};
use std::alloc::Global;

impl Coded for Exchange {
    ghost code = { exchange_code };

    ghost fits = { FitsExchange };

    fn encode(&self, out: &mut Vec<u8>) -> Result<(), NoMemory> {
        self.taken.encode(out)?;
        self.sent.encode(out)
    }

    fn decode(alloc: Global, input: &mut Input) -> Result<Exchange, DecodeFault> {
        let taken = u64::decode(alloc, input)?;
        let sent = u64::decode(alloc, input)?;
        Ok(Exchange { taken, sent })
    }
}

impl Coded for Sessions {
    ghost code = { counts_code };

    ghost fits = { FitCounts };

    fn encode(&self, out: &mut Vec<u8>) -> Result<(), NoMemory> {
        self.taken(Source::Outside).encode(out)?;
        encode_list(self.units(), out)
    }

    fn decode(alloc: Global, input: &mut Input) -> Result<Sessions, DecodeFault> {
        let outside = u64::decode(alloc, input)?;
        let units = decode_list::<Exchange>(alloc, input)?;
        Ok(Sessions::of(outside, units))
    }
}
