//! Records.

ghost use Rattle.codec.specs.Codes.{marks_code, record_code, FitMarks, FitsRecord};

use crate::coded::Coded;
use crate::containers::{decode_list, encode_list};
use crate::fault::DecodeFault;
use crate::input::Input;
use model::{Letter, Mark, Marks, NoMemory, Record, Source, TenantName, Text, Unit};
use std::alloc::Global;

impl Coded for Marks {
    ghost code = { marks_code };

    ghost fits = { FitMarks };

    fn encode(&self, out: &mut Vec<u8>) -> Result<(), NoMemory> {
        encode_list(self.as_slice(), out)
    }

    fn decode(alloc: Global, input: &mut Input) -> Result<Marks, DecodeFault> {
        let marks = decode_list::<Mark>(alloc, input)?;
        let marks = Marks::of(alloc, marks.as_slice())?;
        Ok(marks)
    }
}

impl Coded for Record {
    ghost code = { record_code };

    ghost fits = { FitsRecord };

    fn encode(&self, out: &mut Vec<u8>) -> Result<(), NoMemory> {
        self.tenant.encode(out)?;
        self.unit.encode(out)?;
        self.mark.encode(out)?;
        self.source.encode(out)?;
        self.letter.encode(out)?;
        self.number.encode(out)?;
        self.text.encode(out)?;
        self.vector.encode(out)
    }

    fn decode(alloc: Global, input: &mut Input) -> Result<Record, DecodeFault> {
        let tenant = TenantName::decode(alloc, input)?;
        let unit = Unit::decode(alloc, input)?;
        let mark = Mark::decode(alloc, input)?;
        let source = Source::decode(alloc, input)?;
        let letter = Option::<Letter>::decode(alloc, input)?;
        let number = u64::decode(alloc, input)?;
        let text = Text::decode(alloc, input)?;
        let vector = Marks::decode(alloc, input)?;
        Ok(Record {
            tenant,
            unit,
            mark,
            source,
            letter,
            number,
            text,
            vector,
        })
    }
}
