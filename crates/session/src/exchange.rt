//! What passed between two units.

/// How many letters a unit took from another one, and how many it sent to it.
#[derive(Clone, Copy, Debug, PartialEq, Eq)]
pub struct Exchange {
    pub taken: u64,
    pub sent: u64,
}

impl Exchange {
    ghost use Rattle.std.specs.Prelude.{◌≡◌};
    ghost use Rattle.session.specs.Counts.{nothing};

    /// Between two units that exchanged no letter.
    pub fn none() -> Exchange
        ensures { result ≡ nothing }
    {
        Exchange { taken: 0, sent: 0 }
    }
}
