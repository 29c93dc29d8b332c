//! Why a step is refused.

ghost use Rattle.std.specs.Prelude.{◌≡◌};
ghost use Rattle.model.specs.Refusals.{refusal_name, refusal_number};

/// Why a step is refused.
#[derive(Clone, Copy, Debug, PartialEq, Eq)]
pub enum Refusal {
    BadLine,
    NoTenant,
    AlreadyOpen,
    BadOpen,
    NoUnit,
    Down,
    Up,
    NoLetter,
    Wait,
    Orphan,
    Repeat,
    Gap,
    Quota,
    TooMuch,
    Unlogged,
    Limit,
    Store,
    Memory,
    Pending,
}

impl Refusal {
    /// The number of the refusal, 1 to 19.
    pub fn number(self) -> u8
        ensures { result ≡ refusal_number self }
    {
        match self {
            Refusal::BadLine => 1,
            Refusal::NoTenant => 2,
            Refusal::AlreadyOpen => 3,
            Refusal::BadOpen => 4,
            Refusal::NoUnit => 5,
            Refusal::Down => 6,
            Refusal::Up => 7,
            Refusal::NoLetter => 8,
            Refusal::Wait => 9,
            Refusal::Orphan => 10,
            Refusal::Repeat => 11,
            Refusal::Gap => 12,
            Refusal::Quota => 13,
            Refusal::TooMuch => 14,
            Refusal::Unlogged => 15,
            Refusal::Limit => 16,
            Refusal::Store => 17,
            Refusal::Memory => 18,
            Refusal::Pending => 19,
        }
    }

    /// The name that reply lines give, as `no-tenant`.
    pub fn name(self) -> &'static str
        ensures { result.now ≡ refusal_name self }
    {
        match self {
            Refusal::BadLine => "bad-line",
            Refusal::NoTenant => "no-tenant",
            Refusal::AlreadyOpen => "already-open",
            Refusal::BadOpen => "bad-open",
            Refusal::NoUnit => "no-unit",
            Refusal::Down => "down",
            Refusal::Up => "up",
            Refusal::NoLetter => "no-letter",
            Refusal::Wait => "wait",
            Refusal::Orphan => "orphan",
            Refusal::Repeat => "repeat",
            Refusal::Gap => "gap",
            Refusal::Quota => "quota",
            Refusal::TooMuch => "too-much",
            Refusal::Unlogged => "unlogged",
            Refusal::Limit => "limit",
            Refusal::Store => "store",
            Refusal::Memory => "memory",
            Refusal::Pending => "pending",
        }
    }
}
