//! The turn of a card: what a ledger decided is put out.

ghost use Rattle.std.specs.Prelude.{◌≡◌, IfOk};
ghost use Rattle.billing.specs.Billing.{card};

use crate::accounts::Accounts;
use crate::turns::{misunderstand, put_out};
use handler::Turn;
use ident::{NoMemory, Source};
use std::alloc::Global;

/// The turn of a card. It takes letters alone: a text from outside was decided by no ledger.
pub(crate) fn card_turn(
    alloc: Global,
    accounts: &Accounts,
    source: Source,
    text: &str,
) -> Result<Turn<Accounts>, NoMemory>
    ensures { IfOk result (λ t. t ≡ card accounts.now source text.now) }
{
    match source {
        Source::Unit(_) => put_out(alloc, accounts, format!(in alloc; "card {text}")?),
        Source::Outside => misunderstand(alloc, accounts, text),
    }
}
