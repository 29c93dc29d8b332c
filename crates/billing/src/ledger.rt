//! The turn of a ledger: a request is carried out, or refused.

ghost use Rattle.std.specs.Prelude.{◌≡◌, IfOk};
ghost use Rattle.billing.specs.Billing.{accepted, refused, settled, ledger};

use crate::accounts::Accounts;
use crate::request::Request;
use crate::turns::{misunderstand, put_out};
use handler::Turn;
use ident::{NoMemory, Unit};
use std::alloc::Global;

/// The unit that a ledger's letters go to. It must be a card, as in a tenant of `["ledger","card"]`.
const CARD_UNIT: u8 = 1;

/// The turn of a ledger that keeps these accounts.
pub(crate) fn ledger_turn(
    alloc: Global,
    accounts: &Accounts,
    text: &str,
) -> Result<Turn<Accounts>, NoMemory>
    ensures { IfOk result (λ t. t ≡ ledger accounts.now text.now) }
{
    match Request::read(text) {
        Some(request) => settle(alloc, accounts, &request),
        None => misunderstand(alloc, accounts, text),
    }
}

fn settle(
    alloc: Global,
    accounts: &Accounts,
    request: &Request<'_>,
) -> Result<Turn<Accounts>, NoMemory>
    ensures { IfOk result (λ t. t ≡ settled accounts.now request.now) }
{
    let balance = accounts.balance(request.account);
    match request.movement.balance_after(balance, request.cents) {
        Some(after) => accept(alloc, accounts, request, after),
        None => refuse(alloc, accounts, request, balance),
    }
}

/// The card is told, and the account has this balance from now on.
fn accept(
    alloc: Global,
    accounts: &Accounts,
    request: &Request<'_>,
    after: u64,
) -> Result<Turn<Accounts>, NoMemory>
    ensures { IfOk result (λ t. t ≡ accepted accounts.now request.now after) }
{
    let mut sends = Vec::new(alloc);
    sends.push((Unit::new(CARD_UNIT), request.line(alloc)?))?;
    let state = accounts.with_balance(alloc, request.account, after)?;
    Ok(Turn {
        state,
        sends,
        outputs: Vec::new(alloc),
    })
}

/// Whoever asked is told the balance, and nothing moves.
fn refuse(
    alloc: Global,
    accounts: &Accounts,
    request: &Request<'_>,
    balance: u64,
) -> Result<Turn<Accounts>, NoMemory>
    ensures { IfOk result (λ t. t ≡ refused accounts.now request.now balance) }
{
    let line = request.line(alloc)?;
    let line = line.as_str();
    put_out(
        alloc,
        accounts,
        format!(in alloc; "refused {line}: the balance is {balance}")?,
    )
}
