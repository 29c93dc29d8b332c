//! The sample handler: echo, relay, count, adder and tee.

ghost use Rattle.std.specs.Prelude.{◌≡◌, ◌<◌, ◌+◌, ◌-◌, ◌*◌, ◌&&◌, nat_le, IfOk, MatchOption, option_map, List, ℕ, ◌∷◌};
ghost use Rattle.std.specs.Prelude.{[], true, false, codes};
ghost use Rattle.std.specs.List.{list_all};
ghost use Rattle.handler.specs.Kinds.{number_of};
ghost use Rattle.handler.specs.States.{states_equal};
ghost use Rattle.model.specs.Handler.{Turn as TurnOf};
ghost use Rattle.model.specs.Sample.{State, kind_named, sample, echo, relay, tee, count, tell, adder, greatest};
ghost use Rattle.model.specs.Sample.{is_number, value_of, number_in};

use crate::handler::Handler;
use crate::turn::Turn;
use model::{Kind, NoMemory, Seat, Source, Text, Unit};
use std::alloc::Global;

/// The sample handler. A unit that counts or adds has a number for its state, any other none.
#[derive(Debug, Clone, Copy, PartialEq, Eq)]
pub struct Sample;

/// The number of a unit that has one.
type Number = Option<u64>;

/// What a unit of the sample handler does.
#[derive(Clone, Copy, PartialEq, Eq)]
enum SampleKind {
    /// Puts out each text.
    Echo,
    /// Sends each text to the next unit.
    Relay,
    /// Puts out how many texts came.
    Count,
    /// Adds up the numbers that come, and puts out the sum.
    Adder,
    /// Puts out each text, and sends it to the unit with the next number.
    Tee,
}

impl SampleKind {
    /// The kind of this name.
    fn named(name: &str) -> Option<SampleKind>
        ensures { option_map number_of result ≡ kind_named name.now }
    {
        if name == "echo" {
            Some(SampleKind::Echo)
        } else if name == "relay" {
            Some(SampleKind::Relay)
        } else if name == "count" {
            Some(SampleKind::Count)
        } else if name == "adder" {
            Some(SampleKind::Adder)
        } else if name == "tee" {
            Some(SampleKind::Tee)
        } else {
            None
        }
    }

    /// The kind of this number.
    fn numbered(kind: Kind) -> Option<SampleKind>
        ensures { MatchOption result (4 < kind) (λ k. number_of k ≡ kind) }
    {
        match kind.number() {
            0 => Some(SampleKind::Echo),
            1 => Some(SampleKind::Relay),
            2 => Some(SampleKind::Count),
            3 => Some(SampleKind::Adder),
            4 => Some(SampleKind::Tee),
            _ => None,
        }
    }

    fn number(self) -> u8
        ensures { result ≡ number_of self }
    {
        match self {
            SampleKind::Echo => 0,
            SampleKind::Relay => 1,
            SampleKind::Count => 2,
            SampleKind::Adder => 3,
            SampleKind::Tee => 4,
        }
    }
}

/// One text.
fn one_text(alloc: Global, text: &str) -> Result<Vec<Text>, NoMemory>
    ensures { IfOk result (λ ts. ts.items ≡ text.now ∷ []) }
{
    let mut texts = Vec::new(alloc);
    texts.push(Text::of(alloc, text)?)?;
    Ok(texts)
}

/// One send.
fn one_send(alloc: Global, unit: Unit, text: &str) -> Result<Vec<(Unit, Text)>, NoMemory>
    ensures { IfOk result (λ ts. ts.items ≡ (unit, text.now) ∷ []) }
{
    let mut sends = Vec::new(alloc);
    sends.push((unit, Text::of(alloc, text)?))?;
    Ok(sends)
}

fn echo_turn(alloc: Global, state: Number, text: &str) -> Result<Turn<Number>, NoMemory>
    ensures { IfOk result (λ t. t ≡ echo state text.now) }
{
    let outputs = one_text(alloc, text)?;
    Ok(Turn {
        state,
        sends: Vec::new(alloc),
        outputs,
    })
}

fn relay_turn(
    alloc: Global,
    seat: Seat,
    state: Number,
    text: &str,
) -> Result<Turn<Number>, NoMemory>
    ensures { IfOk result (λ t. t ≡ relay seat state text.now) }
{
    let sends = if seat.home == 0 {
        Vec::new(alloc)
    } else {
        let next = (u16::from(seat.unit.number()) + 1) % u16::from(seat.home);
        one_send(alloc, Unit::new(next as u8), text)?
    };
    Ok(Turn {
        state,
        sends,
        outputs: Vec::new(alloc),
    })
}

fn tee_turn(alloc: Global, seat: Seat, state: Number, text: &str) -> Result<Turn<Number>, NoMemory>
    ensures { IfOk result (λ t. t ≡ tee seat state text.now) }
{
    let outputs = one_text(alloc, text)?;
    let unit = seat.unit.number();
    let sends = if unit == 255 {
        Vec::new(alloc)
    } else {
        one_send(alloc, Unit::new(unit + 1), text)?
    };
    Ok(Turn {
        state,
        sends,
        outputs,
    })
}

/// The state becomes this number, which is put out.
fn tell_turn(alloc: Global, n: u64) -> Result<Turn<Number>, NoMemory>
    ensures { IfOk result (λ t. t ≡ tell n) }
{
    let told = n.to_string(alloc)?;
    let outputs = one_text(alloc, told.as_str())?;
    Ok(Turn {
        state: Some(n),
        sends: Vec::new(alloc),
        outputs,
    })
}

/// The number of the state, 0 where it has none.
fn number_of(state: Number) -> u64
    ensures { result ≡ number_in state }
{
    state.unwrap_or(0)
}

fn count_turn(alloc: Global, state: Number) -> Result<Turn<Number>, NoMemory>
    ensures { IfOk result (λ t. t ≡ count state) }
{
    tell_turn(alloc, number_of(state).saturating_add(1))
}

fn is_digit(byte: u8) -> bool
    ensures { result ≡ (nat_le 48 byte && nat_le byte 57) }
{
    48 <= byte && byte <= 57
}

fn are_digits(bytes: &[u8]) -> bool
    ensures { result ≡ list_all (λ c. nat_le 48 c && nat_le c 57) bytes.now }
{
    bytes.iter().all(|byte| is_digit(*byte))
}

/// A number with one more digit, if it still fits.
fn with_digit(n: u64, byte: u8) -> Option<u64>
    ensures { MatchOption result (greatest < 10 * n + (byte - 48)) (λ m. m ≡ 10 * n + (byte - 48)) }
{
    let digit = u64::from(byte.saturating_sub(48));
    match n.checked_mul(10) {
        Some(tens) => tens.checked_add(digit),
        None => None,
    }
}

/// The value of some digits, if it fits.
fn value(digits: &[u8]) -> Option<u64>
    ensures { MatchOption result (greatest < value_of digits.now) (λ n. n ≡ value_of digits.now) }
{
    let mut n = 0;
    for byte in digits {
        match with_digit(n, *byte) {
            Some(more) => n = more,
            None => return None,
        }
    }
    Some(n)
}

/// The number that a text is, if it is one.
fn number_told(text: &str) -> Option<u64>
    ensures { MatchOption result (is_number text.now ≡ false) (λ n. (is_number text.now ≡ true)
        × (n ≡ value_of text.now)) }
{
    let digits = text.as_bytes();
    if 1 <= digits.len() && digits.len() <= 20 && are_digits(digits) {
        value(digits)
    } else {
        None
    }
}

/// The state stays, and a question mark is put out.
fn question_turn(alloc: Global, state: Number) -> Result<Turn<Number>, NoMemory>
    ensures { IfOk result (λ t. t ≡ record { state = state; sends = []; outputs = codes "?" ∷ [] }) }
{
    let outputs = one_text(alloc, "?")?;
    Ok(Turn {
        state,
        sends: Vec::new(alloc),
        outputs,
    })
}

fn adder_turn(alloc: Global, state: Number, text: &str) -> Result<Turn<Number>, NoMemory>
    ensures { IfOk result (λ t. t ≡ adder state text.now) }
{
    match number_told(text) {
        Some(n) => tell_turn(alloc, number_of(state).saturating_add(n)),
        None => question_turn(alloc, state),
    }
}

impl Handler for Sample {
    type State = Option<u64>;

    ghost meaning = { sample };

    ghost equality = { states_equal };

    fn copy(&self, _alloc: Global, state: &Option<u64>) -> Result<Option<u64>, NoMemory> {
        Ok(*state)
    }

    fn kind(&self, name: &str) -> Option<Kind> {
        match SampleKind::named(name) {
            Some(kind) => Some(Kind::new(kind.number())),
            None => None,
        }
    }

    fn begin(&self, _alloc: Global, seat: Seat) -> Result<Option<u64>, NoMemory> {
        Ok(match SampleKind::numbered(seat.kind) {
            Some(SampleKind::Count | SampleKind::Adder) => Some(0),
            _ => None,
        })
    }

    fn handle(
        &self,
        alloc: Global,
        seat: Seat,
        state: &Option<u64>,
        _source: Source,
        text: &str,
    ) -> Result<Turn<Option<u64>>, NoMemory> {
        match SampleKind::numbered(seat.kind) {
            Some(SampleKind::Echo) => echo_turn(alloc, *state, text),
            Some(SampleKind::Relay) => relay_turn(alloc, seat, *state, text),
            Some(SampleKind::Count) => count_turn(alloc, *state),
            Some(SampleKind::Adder) => adder_turn(alloc, *state, text),
            Some(SampleKind::Tee) => tee_turn(alloc, seat, *state, text),
            None => Ok(Turn {
                state: *state,
                sends: Vec::new(alloc),
                outputs: Vec::new(alloc),
            }),
        }
    }
}
