//! The balances of a ledger.

ghost use Rattle.std.specs.Prelude.{◌≡◌, [], IfOk, bytes_eq};
ghost use Rattle.std.proofs.Common.{rules};
ghost use Rattle.std.specs.Cmp.Rules.{comparing};
ghost use Rattle.billing.specs.Accounts.{balance, with_balance, accounts_equal};

use ident::{NoMemory, Text};
use std::alloc::Global;
use std::marker::Model;

/// An account, and what was charged to it less what was refunded.
#[derive(Drop, PartialEq, Eq)]
pub(crate) struct Account {
    pub(crate) name: Text,
    pub(crate) cents: u64,
}

/// The accounts of a ledger, in the order of their first charge.
#[derive(Drop)]
pub(crate) struct Accounts {
    accounts: Vec<Account>,
}

impl Model for Accounts {
    ghost use Rattle.std.specs.Prelude.{List};
    ghost use Rattle.billing.specs.declared.accounts.Account.{Account};

    ghost Value = { List Account };

    ghost view = { λ a. a.accounts.items };
}

impl PartialEq for Accounts {
    ghost eq = { accounts_equal };

    ghost laws = { Prim.search (comparing, rules) };

    fn eq(&self, other: &Accounts) -> bool {
        self.accounts.as_slice() == other.accounts.as_slice()
    }
}

impl Eq for Accounts {
    ghost laws = { Prim.search (comparing, rules) };
}

impl Account {
    fn new(alloc: Global, name: &str, cents: u64) -> Result<Account, NoMemory>
        ensures { IfOk result (λ a. a ≡ record { name = name.now; cents = cents }) }
    {
        let name = Text::of(alloc, name)?;
        Ok(Account { name, cents })
    }

    fn is_named(&self, name: &str) -> bool
        ensures { result ≡ bytes_eq self.now.name name.now }
    {
        self.name.as_str() == name
    }

    /// An equal account.
    fn copy(&self, alloc: Global) -> Result<Account, NoMemory>
        ensures { IfOk result (λ a. a ≡ self.now) }
    {
        Account::new(alloc, self.name.as_str(), self.cents)
    }
}

impl Accounts {
    /// No accounts.
    pub(crate) fn new(alloc: Global) -> Accounts
        ensures { result ≡ [] }
    {
        Accounts {
            accounts: Vec::new(alloc),
        }
    }

    /// These accounts.
    pub(crate) fn of(accounts: Vec<Account>) -> Accounts
        ensures { result ≡ accounts.items }
    {
        Accounts { accounts }
    }

    /// The accounts.
    pub(crate) fn as_slice(&self) -> &[Account]
        ensures { result.now ≡ self.now }
    {
        self.accounts.as_slice()
    }

    /// Equal accounts.
    pub(crate) fn copy(&self, alloc: Global) -> Result<Accounts, NoMemory>
        ensures { IfOk result (λ a. a ≡ self.now) }
    {
        let mut accounts = Vec::new(alloc);
        for account in &self.accounts {
            accounts.push(account.copy(alloc)?)?;
        }
        Ok(Accounts { accounts })
    }

    /// The balance of an account: nothing where it was never charged.
    pub(crate) fn balance(&self, name: &str) -> u64
        ensures { result ≡ balance self.now name.now }
    {
        for account in &self.accounts {
            if account.is_named(name) {
                return account.cents;
            }
        }
        0
    }

    /// The accounts with another balance of this one, which is put behind the others where it is new.
    pub(crate) fn with_balance(
        &self,
        alloc: Global,
        name: &str,
        cents: u64,
    ) -> Result<Accounts, NoMemory>
        ensures { IfOk result (λ a. a ≡ with_balance self.now name.now cents) }
    {
        let mut accounts = Vec::new(alloc);
        let mut is_new = true;
        for account in &self.accounts {
            if is_new && account.is_named(name) {
                is_new = false;
                accounts.push(Account::new(alloc, name, cents)?)?;
            } else {
                accounts.push(account.copy(alloc)?)?;
            }
        }
        if is_new {
            accounts.push(Account::new(alloc, name, cents)?)?;
        }
        Ok(Accounts { accounts })
    }
}
