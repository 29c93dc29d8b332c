//! The trait of handlers, and its law.

ghost use Rattle.std.specs.Prelude.{◌≡◌, IfOk, true};

use crate::turn::Turn;
use model::{Kind, NoMemory, Seat, Source};
use std::alloc::Global;

/// What handles the messages of units (deterministic within an interval, Strom and Yemini 1985).
///
/// The law: each answer is the value of the type's `meaning` for the same arguments, one meaning
/// for all values of the type, or there was no memory for it. A copy of a state equals it, and
/// states that compare equal are equal.
pub trait Handler: Drop {
    ghost use Rattle.model.specs.Handler.{Meaning};

    type State: Eq + Drop + Send;

    /// What every handler of this type means.
    ghost meaning: { Meaning Self.State };

    /// An equal state.
    fn copy(&self, alloc: Global, state: &Self::State) -> Result<Self::State, NoMemory>
        ensures { IfOk result (λ s. s ≡ state.now) };

    /// The kind of this name, if there is one.
    fn kind(&self, name: &str) -> Option<Kind>
        ensures { result ≡ meaning.kind name.now };

    /// The state that a unit at this seat begins with.
    fn begin(&self, alloc: Global, seat: Seat) -> Result<Self::State, NoMemory>
        ensures { IfOk result (λ s. s ≡ meaning.begin seat) };

    /// The turn of a unit at this seat upon one receipt.
    fn handle(
        &self,
        alloc: Global,
        seat: Seat,
        state: &Self::State,
        source: Source,
        text: &str,
    ) -> Result<Turn<Self::State>, NoMemory>
        ensures { IfOk result (λ t. t ≡ meaning.handle seat state.now source text.now) };

    /// States that compare equal are equal. It stands last, since what stands behind it can't be
    /// named in it.
    ghost equality: { (a b : Self.State) → Self.State.eq a b ≡ true → a ≡ b };
}
