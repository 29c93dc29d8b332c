//! Registers.

ghost use Rattle.std.specs.Prelude.{◌≡◌, ◌<◌, ◌%◌};

use std::marker::Model;

/// One of the 32 registers, `x0` to `x31`, seen as its number.
#[derive(Clone, Copy, Debug, PartialEq, Eq)]
pub struct Register {
    number: u8,
}

impl Model for Register {
    ghost use Rattle.std.specs.Prelude.{ℕ, ◌<◌};

    ghost Value = { ℕ };

    ghost view = { λ r. r.number };

    ghost invariant = { λ r. r.number < 32 };

    ghost inverse = { λ n. record { number = n } };
}

impl Register {
    /// The register that the low five bits name.
    #[inline]
    pub fn of(bits: u32) -> Register
        ensures { result ≡ bits % 32 }
    {
        Register {
            number: (bits % 32) as u8,
        }
    }

    /// Its place among the registers.
    #[inline]
    pub fn index(self) -> usize
        ensures value { result ≡ self }
        ensures bound { result < 32 }
    {
        let Register { number } = self;
        number as usize
    }
}
