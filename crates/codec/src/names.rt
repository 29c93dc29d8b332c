//! Names of units, kinds, letters and intervals.

ghost use Rattle.std.specs.Prelude.{◌<◌, ◌^◌};
ghost use Rattle.codec.specs.Codes.{byte_code, mark_code, number_code, quota_code, row_code, seat_code, source_code};
ghost use Rattle.codec.specs.Codes.{FitsMark, FitsQuota, FitsRow, FitsSeat, FitsSource};

use crate::coded::Coded;
use crate::fault::DecodeFault;
use crate::input::Input;
use model::{Kind, Letter, Mark, NoMemory, Quota, Row, Seat, Source, Unit};
use std::alloc::Global;

impl Coded for Unit {
    ghost code = { byte_code };

    ghost fits = { λ u. u < 256 };

    fn encode(&self, out: &mut Vec<u8>) -> Result<(), NoMemory> {
        self.number().encode(out)
    }

    fn decode(alloc: Global, input: &mut Input) -> Result<Unit, DecodeFault> {
        let number = u8::decode(alloc, input)?;
        Ok(Unit::new(number))
    }
}

impl Coded for Kind {
    ghost code = { byte_code };

    ghost fits = { λ k. k < 256 };

    fn encode(&self, out: &mut Vec<u8>) -> Result<(), NoMemory> {
        self.number().encode(out)
    }

    fn decode(alloc: Global, input: &mut Input) -> Result<Kind, DecodeFault> {
        let number = u8::decode(alloc, input)?;
        Ok(Kind::new(number))
    }
}

impl Coded for Letter {
    ghost code = { number_code };

    ghost fits = { λ l. l < 2 ^ 32 };

    fn encode(&self, out: &mut Vec<u8>) -> Result<(), NoMemory> {
        self.number().encode(out)
    }

    fn decode(alloc: Global, input: &mut Input) -> Result<Letter, DecodeFault> {
        let number = u32::decode(alloc, input)?;
        Ok(Letter::new(number))
    }
}

impl Coded for Mark {
    ghost code = { mark_code };

    ghost fits = { FitsMark };

    fn encode(&self, out: &mut Vec<u8>) -> Result<(), NoMemory> {
        self.incarnation.encode(out)?;
        self.index.encode(out)
    }

    fn decode(alloc: Global, input: &mut Input) -> Result<Mark, DecodeFault> {
        let incarnation = u32::decode(alloc, input)?;
        let index = u32::decode(alloc, input)?;
        Ok(Mark { incarnation, index })
    }
}

impl Coded for Row {
    ghost code = { row_code };

    ghost fits = { FitsRow };

    fn encode(&self, out: &mut Vec<u8>) -> Result<(), NoMemory> {
        self.unit.encode(out)?;
        self.incarnation.encode(out)?;
        self.start.encode(out)
    }

    fn decode(alloc: Global, input: &mut Input) -> Result<Row, DecodeFault> {
        let unit = Unit::decode(alloc, input)?;
        let incarnation = u32::decode(alloc, input)?;
        let start = u64::decode(alloc, input)?;
        Ok(Row {
            unit,
            incarnation,
            start,
        })
    }
}

impl Coded for Seat {
    ghost code = { seat_code };

    ghost fits = { FitsSeat };

    fn encode(&self, out: &mut Vec<u8>) -> Result<(), NoMemory> {
        self.unit.encode(out)?;
        self.kind.encode(out)?;
        self.home.encode(out)
    }

    fn decode(alloc: Global, input: &mut Input) -> Result<Seat, DecodeFault> {
        let unit = Unit::decode(alloc, input)?;
        let kind = Kind::decode(alloc, input)?;
        let home = u8::decode(alloc, input)?;
        Ok(Seat { unit, kind, home })
    }
}

impl Coded for Quota {
    ghost code = { quota_code };

    ghost fits = { FitsQuota };

    fn encode(&self, out: &mut Vec<u8>) -> Result<(), NoMemory> {
        self.volatile.encode(out)?;
        self.held.encode(out)?;
        self.letters.encode(out)
    }

    fn decode(alloc: Global, input: &mut Input) -> Result<Quota, DecodeFault> {
        let volatile = u32::decode(alloc, input)?;
        let held = u32::decode(alloc, input)?;
        let letters = u32::decode(alloc, input)?;
        Ok(Quota {
            volatile,
            held,
            letters,
        })
    }
}

impl Coded for Source {
    ghost code = { source_code };

    ghost fits = { FitsSource };

    fn encode(&self, out: &mut Vec<u8>) -> Result<(), NoMemory> {
        match self {
            Source::Outside => None::<Unit>.encode(out),
            Source::Unit(unit) => Some(*unit).encode(out),
        }
    }

    fn decode(alloc: Global, input: &mut Input) -> Result<Source, DecodeFault> {
        match Option::<Unit>::decode(alloc, input)? {
            None => Ok(Source::Outside),
            Some(unit) => Ok(Source::Unit(unit)),
        }
    }
}
