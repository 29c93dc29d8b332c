//! States as bytes.

ghost use Rattle.codec.specs.Codes.{list_code, FitEach};
ghost use Rattle.billing.specs.Coding.{account_code, FitsAccount};

use crate::accounts::{Account, Accounts};
use crate::billing::Billing;
use codec::{Coded, DecodeFault, Input, Portable, decode_list, encode_list};
use ident::{NoMemory, Text};
use std::alloc::Global;

impl Coded for Account {
    ghost code = { account_code };

    ghost fits = { FitsAccount };

    fn encode(&self, out: &mut Vec<u8>) -> Result<(), NoMemory> {
        self.name.encode(out)?;
        self.cents.encode(out)
    }

    fn decode(alloc: Global, input: &mut Input) -> Result<Account, DecodeFault> {
        let name = Text::decode(alloc, input)?;
        let cents = u64::decode(alloc, input)?;
        Ok(Account { name, cents })
    }
}

impl Portable for Billing {
    ghost state_code = { list_code account_code };

    ghost state_fits = { FitEach FitsAccount };

    fn write_state(&self, state: &Accounts, out: &mut Vec<u8>) -> Result<(), NoMemory> {
        encode_list(state.as_slice(), out)
    }

    fn read_state(&self, alloc: Global, input: &mut Input) -> Result<Accounts, DecodeFault> {
        let accounts = decode_list::<Account>(alloc, input)?;
        Ok(Accounts::of(accounts))
    }
}
