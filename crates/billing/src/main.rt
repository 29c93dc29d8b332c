//! A handler of one's own: charges and refunds, on `recall`.
//!
//! The program has the words of `recall`, `--journal` among them, with units of two kinds. A `ledger`
//! keeps the balances and decides; a `card`, which is unit 1, puts out what really moves money. An output that has
//! left can't be taken back, so `recall` lets it go only when everything that it depends on is logged.
//!
//! - `billing`: the handler, thin over the others, which carries the law of the trait;
//! - `role`: what the units are for, in place of the bare numbers of kinds;
//! - `request`: a text as a charge or a refund;
//! - `accounts`: the balances, which are the state of a unit;
//! - `ledger`, `card`: the turn of a unit of each role; `turns`: those that they share;
//! - `portable`: the state of a unit as bytes, for a host that is saved and loaded;
//! - `laws`: what follows for whoever runs it.
//!
//! `specs/Billing` says what all of it means.
#![tactic(auto)]

mod accounts;
mod billing;
mod card;
mod laws;
mod ledger;
mod portable;
mod request;
mod role;
mod turns;

use billing::Billing;
use host_cli::{Program, Terminals, run_program};
use std::io::IsTerminal;
use std::process::ExitCode;

/// What the program tells of itself.
const BILLING: Program<'static> = Program {
    name: "billing",
    about: "Charges and refunds: a ledger keeps the balances, and a card moves money",
    version: "0.9.12",
    handler: "billing",
    handler_version: "1",
    kinds: &["ledger", "card"],
    programs: None,
    example: r#"{"do":"open","tenant":"shop","units":["ledger","card"]}"#,
};

fn main(rt: HostRuntime) -> ExitCode {
    let terminals = Terminals {
        input: rt.stdin().is_terminal(),
        errors: rt.stderr().is_terminal(),
    };
    ExitCode::from(run_program(&rt, Billing, &BILLING, terminals))
}
