//! What a unit is for.

ghost use Rattle.std.specs.Prelude.{◌≡◌};
ghost use Rattle.billing.specs.Roles.{role_named, kind_of, role_of};

use ident::Kind;

/// What a unit is for.
#[derive(Clone, Copy, PartialEq, Eq)]
pub(crate) enum Role {
    /// Keeps the balances, and decides what is charged and refunded.
    Ledger,
    /// Moves the money: what it puts out can't be taken back.
    Card,
}

impl Role {
    /// The role of this name, as the step `open` gives it.
    pub(crate) fn named(name: &str) -> Option<Role>
        ensures { result ≡ role_named name.now }
    {
        if name == "ledger" {
            Some(Role::Ledger)
        } else if name == "card" {
            Some(Role::Card)
        } else {
            None
        }
    }

    /// The kind that stands for the role in a seat.
    pub(crate) fn kind(self) -> Kind
        ensures { result ≡ kind_of self }
    {
        match self {
            Role::Ledger => Kind::new(0),
            Role::Card => Kind::new(1),
        }
    }

    /// The role that a kind stands for.
    pub(crate) fn of(kind: Kind) -> Option<Role>
        ensures { result ≡ role_of kind }
    {
        match kind.number() {
            0 => Some(Role::Ledger),
            1 => Some(Role::Card),
            _ => None,
        }
    }
}
