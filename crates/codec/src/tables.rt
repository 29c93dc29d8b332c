//! Tables of rows.

ghost use Rattle.codec.specs.Codes.{list_code, row_code};
ghost use Rattle.codec.specs.Layers.{FitsTable};

use crate::coded::Coded;
use crate::containers::{decode_list, encode_list};
use crate::fault::DecodeFault;
use crate::input::Input;
use incarnation::StartTable;
use model::{NoMemory, Row};
use std::alloc::Global;

impl Coded for StartTable {
    ghost code = { list_code row_code };

    ghost fits = { FitsTable };

    fn encode(&self, out: &mut Vec<u8>) -> Result<(), NoMemory> {
        encode_list(self.rows(), out)
    }

    fn decode(alloc: Global, input: &mut Input) -> Result<StartTable, DecodeFault> {
        let rows = decode_list::<Row>(alloc, input)?;
        match StartTable::of(alloc, rows.as_slice())? {
            Some(table) => Ok(table),
            None => Err(DecodeFault::Damaged),
        }
    }
}
