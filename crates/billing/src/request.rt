//! A text as a charge or a refund.

ghost use Rattle.std.specs.Prelude.{◌≡◌, IfOk};
ghost use Rattle.billing.specs.Requests.{movement_named, name_of, balance_after, cents_told, request_in, line_of};

use ident::{NoMemory, Text};
use std::alloc::Global;
use std::marker::Model;

/// Which way money moves.
#[derive(Clone, Copy, PartialEq, Eq)]
pub(crate) enum Movement {
    Charge,
    Refund,
}

impl Movement {
    fn named(name: &str) -> Option<Movement>
        ensures { result ≡ movement_named name.now }
    {
        if name == "charge" {
            Some(Movement::Charge)
        } else if name == "refund" {
            Some(Movement::Refund)
        } else {
            None
        }
    }

    fn name(self) -> &'static str
        ensures { result.now ≡ name_of self }
    {
        match self {
            Movement::Charge => "charge",
            Movement::Refund => "refund",
        }
    }

    /// The balance after it: none where a charge would take it past 64 bits, or where more would be
    /// refunded than was charged.
    pub(crate) fn balance_after(self, balance: u64, cents: u64) -> Option<u64>
        ensures { result ≡ balance_after self balance cents }
    {
        match self {
            Movement::Charge => balance.checked_add(cents),
            Movement::Refund => balance.checked_sub(cents),
        }
    }
}

/// What a ledger is asked: to charge an account with some cents, or to refund them.
#[derive(Drop)]
pub(crate) struct Request<'a> {
    pub(crate) movement: Movement,
    pub(crate) account: &'a str,
    pub(crate) cents: u64,
}

impl<'a> Model for Request<'a> {
    ghost use Rattle.billing.specs.Requests.{Request as RequestOf};

    ghost Value = { RequestOf };

    ghost view = { λ r. record { movement = r.movement; account = r.account.now; cents = r.cents } };
}

/// Cents, as Rust reads a `u64`.
fn cents_in(digits: &str) -> Option<u64>
    ensures { result ≡ cents_told digits.now }
{
    digits.parse().ok()
}

impl<'a> Request<'a> {
    /// The request that a text is, if it is one: `charge ACCOUNT CENTS` or `refund ACCOUNT CENTS`.
    pub(crate) fn read(text: &'a str) -> Option<Request<'a>>
        ensures { result ≡ request_in text.now }
    {
        let (name, rest) = text.split_once(' ')?;
        let (account, digits) = rest.split_once(' ')?;
        let movement = Movement::named(name)?;
        let cents = cents_in(digits)?;
        Some(Request {
            movement,
            account,
            cents,
        })
    }

    /// The request as a text.
    pub(crate) fn line(&self, alloc: Global) -> Result<Text, NoMemory>
        ensures { IfOk result (λ t. t ≡ line_of self.now) }
    {
        let name = self.movement.name();
        let account = self.account;
        let cents = self.cents;
        Text::new(format!(in alloc; "{name} {account} {cents}")?)
    }
}
