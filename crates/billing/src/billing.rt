//! The handler.

ghost use Rattle.billing.specs.Billing.{billing};
ghost use Rattle.billing.specs.States.{states_equal};

use crate::accounts::Accounts;
use crate::card::card_turn;
use crate::ledger::ledger_turn;
use crate::role::Role;
use crate::turns::stay_idle;
use handler::{Handler, Turn};
use ident::{Kind, NoMemory, Seat, Source};
use std::alloc::Global;

/// Runs ledgers and cards. The state of a ledger is its accounts; a card has none.
#[derive(Debug, Clone, Copy, PartialEq, Eq)]
pub(crate) struct Billing;

impl Handler for Billing {
    type State = Accounts;

    ghost meaning = { billing };

    ghost equality = { states_equal };

    fn copy(&self, alloc: Global, state: &Accounts) -> Result<Accounts, NoMemory> {
        state.copy(alloc)
    }

    fn kind(&self, name: &str) -> Option<Kind> {
        Role::named(name).map(|role| role.kind())
    }

    fn begin(&self, alloc: Global, _seat: Seat) -> Result<Accounts, NoMemory> {
        Ok(Accounts::new(alloc))
    }

    fn handle(
        &self,
        alloc: Global,
        seat: Seat,
        state: &Accounts,
        source: Source,
        text: &str,
    ) -> Result<Turn<Accounts>, NoMemory> {
        match Role::of(seat.kind) {
            Some(Role::Ledger) => ledger_turn(alloc, state, text),
            Some(Role::Card) => card_turn(alloc, state, source, text),
            None => stay_idle(alloc, state),
        }
    }
}
