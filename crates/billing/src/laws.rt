//! What follows for whoever runs it.

ghost use Rattle.std.specs.Prelude.{ℕ, List};
ghost use Rattle.billing.specs.Laws.{AddsUp};

/// Whatever texts a ledger receives, its letters to the card are the requests that it carried out,
/// and the balance of each account is what they charged less what they refunded. So no account is
/// ever refunded more than was charged to it.
pub fn balances_add_up()
    ensures { (texts : List (List ℕ)) → AddsUp texts }
{}
