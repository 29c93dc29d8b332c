//! Turns that leave the state as it is.

ghost use Rattle.std.specs.Prelude.{◌≡◌, IfOk, string_bytes};
ghost use Rattle.billing.specs.Billing.{idle, puts_out, not_understood};

use crate::accounts::Accounts;
use handler::Turn;
use ident::{NoMemory, Text};
use std::alloc::Global;

/// Nothing is sent, and nothing is put out.
pub(crate) fn stay_idle(alloc: Global, accounts: &Accounts) -> Result<Turn<Accounts>, NoMemory>
    ensures { IfOk result (λ t. t ≡ idle accounts.now) }
{
    Ok(Turn {
        state: accounts.copy(alloc)?,
        sends: Vec::new(alloc),
        outputs: Vec::new(alloc),
    })
}

/// One text is put out.
pub(crate) fn put_out(
    alloc: Global,
    accounts: &Accounts,
    text: String,
) -> Result<Turn<Accounts>, NoMemory>
    ensures { IfOk result (λ t. t ≡ puts_out accounts.now (string_bytes text)) }
{
    let mut outputs = Vec::new(alloc);
    outputs.push(Text::new(text)?)?;
    Ok(Turn {
        state: accounts.copy(alloc)?,
        sends: Vec::new(alloc),
        outputs,
    })
}

/// Says that a text is none that the unit takes.
pub(crate) fn misunderstand(
    alloc: Global,
    accounts: &Accounts,
    text: &str,
) -> Result<Turn<Accounts>, NoMemory>
    ensures { IfOk result (λ t. t ≡ not_understood accounts.now text.now) }
{
    put_out(
        alloc,
        accounts,
        format!(in alloc; "not understood: {text}")?,
    )
}
