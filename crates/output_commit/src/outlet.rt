//! What left.

ghost use Rattle.std.specs.Prelude.{◌≡◌, ◌+◌, ◌<◌, ◌≤◌, ◌∷◌, [], ◌++◌, IfErr, IfOk, IsOk, OnErr, OnOk, length, max};
ghost use Rattle.std.specs.Prelude.{vec_capacity, vec_len, ◌≢◌, ◌^◌, ℕ};
ghost use Rattle.output_commit.specs.Holds.{IsOut, gone_of, line_of, line_texts, room_of};

use crate::held::Held;
use crate::ticket::Ticket;
use model::{NoMemory, Text, Unit};
use std::alloc::Global;
use std::marker::Model;

/// What one unit released: how many texts were given up, and those behind them.
#[derive(Drop)]
pub struct Released {
    gone: u64,
    texts: Vec<Text>,
}

impl Model for Released {
    ghost use Rattle.std.specs.Prelude.{◌-◌, ◌+◌, ◌<◌, ◌^◌, min, vec_len, vec_capacity};
    ghost use Rattle.output_commit.specs.Holds.{Line};

    ghost Value = { Line };

    ghost view = { λ r. record {
      gone = r.gone;
      texts = r.texts.items;
      room = min (vec_capacity r.texts - vec_len r.texts) (2 ^ 64 - 1 - (r.gone + vec_len r.texts));
    } };

    ghost invariant = { λ r. r.gone + vec_len r.texts < 2 ^ 64 };
}

impl Released {
    pub(crate) fn new(alloc: Global) -> Released
        ensures gone { result.gone ≡ 0 }
        ensures texts { result.texts ≡ [] }
    {
        Released {
            gone: 0,
            texts: Vec::new(alloc),
        }
    }

    /// How many texts were given up. With those behind them they are counted by 64 bits.
    pub fn gone(&self) -> u64
        ensures count { result ≡ self.now.gone }
        ensures fits { self.now.gone + length self.now.texts < 2 ^ 64 }
    {
        self.gone
    }

    /// The texts behind those that were given up.
    pub fn as_slice(&self) -> &[Text]
        ensures { result.now ≡ self.now.texts }
    {
        self.texts.as_slice()
    }

    /// How many texts there were, those that were given up among them.
    pub(crate) fn count(&self) -> u64
        ensures { result ≡ self.now.gone + length self.now.texts }
    {
        self.gone + self.texts.len() as u64
    }

    /// `NoMemory` also comes where their count would pass 64 bits.
    pub(crate) fn reserve(&mut self, k: usize) -> Result<(), NoMemory>
        ensures gone { self.new.gone ≡ self.old.gone }
        ensures texts { self.new.texts ≡ self.old.texts }
        ensures room { IfOk result (λ _. k ≤ self.new.room) }
    {
        if u64::MAX - self.count() < k as u64 {
            return Err(NoMemory);
        }
        self.texts.reserve(k)?;
        Ok(())
    }

    /// Gives its texts up.
    pub(crate) fn give_up(&mut self)
        ensures gone { self.new.gone ≡ self.old.gone + length self.old.texts }
        ensures texts { self.new.texts ≡ [] }
    {
        self.gone += self.texts.len() as u64;
        self.texts.clear();
    }

    pub(crate) fn emit(&mut self, ticket: Ticket) -> Result<(), Ticket>
        ensures gone { self.new.gone ≡ self.old.gone }
        ensures ok { OnOk result (self.new.texts ≡ self.old.texts ++ ticket.output.text ∷ []) }
        ensures err { OnErr result (self.new.texts ≡ self.old.texts) }
        ensures back { IfErr result (λ t. t ≡ ticket) }
        ensures succeeds { 0 < self.old.room → IsOk result }
        ensures room { self.old.room ≤ self.new.room + 1 }
    {
        if self.count() == u64::MAX {
            return Err(ticket);
        }
        let unit = ticket.unit();
        let Held { mark, text } = ticket.into_output();
        match self.texts.push(text) {
            Ok(()) => Ok(()),
            Err(refused) => {
                let text = refused.value;
                Err(Ticket::new(unit, Held { mark, text }))
            }
        }
    }
}

/// What the units of a tenant released.
#[derive(Drop)]
pub struct Outlet {
    lines: Vec<Released>,
}

impl Model for Outlet {
    ghost use Rattle.std.specs.Prelude.{List};
    ghost use Rattle.output_commit.specs.Holds.{Line};

    ghost Value = { List Line };

    ghost view = { λ o. o.lines.items };
}

impl Outlet {
    /// The outlet of a tenant of `n` units, none of which released anything.
    ///
    /// # Errors
    ///
    /// `NoMemory` where the lists find no memory.
    pub fn new(alloc: Global, n: usize) -> Result<Outlet, NoMemory>
        ensures len { IfOk result (λ o. length o ≡ n) }
        ensures none { IfOk result (λ o. (u : ℕ) → line_texts o u ≡ []) }
        ensures gone { IfOk result (λ o. (u : ℕ) → gone_of o u ≡ 0) }
    {
        let mut outlet = Outlet {
            lines: Vec::new(alloc),
        };
        outlet.widen(n)?;
        Ok(outlet)
    }

    /// How many units there are.
    pub fn len(&self) -> usize
        ensures { result ≡ length self.now }
    {
        self.lines.len()
    }

    /// What each unit released, unit 0 first.
    pub fn lines(&self) -> &[Released]
        ensures { result.now ≡ self.now }
    {
        self.lines.as_slice()
    }

    /// Adds a unit that released so many texts, which were given up, and these behind them.
    ///
    /// # Errors
    ///
    /// `NoMemory` where it finds no memory; the others stay as they were.
    pub fn add(&mut self, gone: u64, texts: Vec<Text>) -> Result<(), NoMemory>
        requires { gone + vec_len texts < 2 ^ 64 }
        ensures ok { IfOk result (λ _. (room : ℕ)
            × (self.new ≡ self.old ++ record { gone = gone; texts = texts.items; room = room } ∷ [])) }
        ensures err { OnErr result (self.new ≡ self.old) }
    {
        self.lines.reserve(1)?;
        self.lines.push_reserved(Released { gone, texts });
        Ok(())
    }

    /// How many texts the unit released.
    #[tactic(auto, using(crate::proofs::Lines::line_laws))]
    pub fn count(&self, unit: Unit) -> u64
        requires { unit < length self.now }
        ensures { result ≡ gone_of self.now unit + length (line_texts self.now unit) }
    {
        let line = &self.lines[usize::from(unit.number())];
        line.count()
    }

    /// Gives up the texts that the unit released. Their count stays.
    #[tactic(auto, using(crate::proofs::Lines::line_laws))]
    pub fn give_up(&mut self, unit: Unit)
        requires { unit < length self.old }
        ensures len { length self.new ≡ length self.old }
        ensures gone { gone_of self.new unit ≡ gone_of self.old unit + length (line_texts self.old unit) }
        ensures texts { line_texts self.new unit ≡ [] }
        ensures others { (u : ℕ) → u ≢ unit → line_of self.new u ≡ line_of self.old u }
    {
        let line = &mut self.lines[usize::from(unit.number())];
        line.give_up();
    }

    /// What the unit released behind the texts that were given up, in order.
    #[tactic(auto, using(crate::proofs::Lines::line_laws))]
    pub fn released(&self, unit: Unit) -> &[Text]
        requires { unit < length self.now }
        ensures { result.now ≡ line_texts self.now unit }
    {
        let line = &self.lines[usize::from(unit.number())];
        line.as_slice()
    }

    /// Makes room for `k` more texts of a unit.
    ///
    /// # Errors
    ///
    /// `NoMemory` where they find none; what was released stays.
    #[tactic(auto, using(crate::proofs::Lines::line_laws))]
    pub fn reserve(&mut self, unit: Unit, k: usize) -> Result<(), NoMemory>
        requires { unit < length self.old }
        ensures len { length self.new ≡ length self.old }
        ensures texts { (u : ℕ) → line_texts self.new u ≡ line_texts self.old u }
        ensures gone { (u : ℕ) → gone_of self.new u ≡ gone_of self.old u }
        ensures room { IfOk result (λ _. k ≤ room_of self.new unit) }
    {
        let line = &mut self.lines[usize::from(unit.number())];
        line.reserve(k)?;
        Ok(())
    }

    /// Lets the output of a ticket out, behind what its unit released. Succeeds where `reserve` made room.
    ///
    /// # Errors
    ///
    /// The ticket, where its text finds no memory; what was released stays.
    #[tactic(auto, using(crate::proofs::Lines::line_laws))]
    pub fn emit(&mut self, ticket: Ticket) -> Result<(), Ticket>
        requires { ticket.unit < length self.old }
        ensures len { length self.new ≡ length self.old }
        ensures ok { OnOk result (IsOut self.old ticket.unit ticket.output.text self.new) }
        ensures others { (u : ℕ) → u ≢ ticket.unit → line_texts self.new u ≡ line_texts self.old u }
        ensures gone { (u : ℕ) → gone_of self.new u ≡ gone_of self.old u }
        ensures err { OnErr result (line_texts self.new ticket.unit ≡ line_texts self.old ticket.unit) }
        ensures back { IfErr result (λ t. t ≡ ticket) }
        ensures succeeds { 0 < room_of self.old ticket.unit → IsOk result }
        ensures room { room_of self.old ticket.unit ≤ room_of self.new ticket.unit + 1 }
    {
        let line = &mut self.lines[usize::from(ticket.unit().number())];
        line.emit(ticket)
    }

    /// Adds lists for units that joined, up to `n` units in all.
    ///
    /// # Errors
    ///
    /// `NoMemory` where the lists find no memory; what was released stays.
    pub fn widen(&mut self, n: usize) -> Result<(), NoMemory>
        ensures len { IfOk result (λ _. length self.new ≡ max n (length self.old)) }
        ensures texts { (u : ℕ) → line_texts self.new u ≡ line_texts self.old u }
        ensures gone { (u : ℕ) → gone_of self.new u ≡ gone_of self.old u }
        ensures err { OnErr result (length self.new ≡ length self.old) }
    {
        let missing = n.saturating_sub(self.lines.len());
        self.lines.reserve(missing)?;
        push_empty(&mut self.lines, missing);
        Ok(())
    }
}

/// Adds this many lists, for which there is room.
#[tactic(auto, using(crate::proofs::Lines::line_laws))]
fn push_empty(lines: &mut Vec<Released>, count: usize)
    requires { vec_len lines.old + count ≤ vec_capacity lines.old }
    ensures len { length lines.new.items ≡ length lines.old.items + count }
    ensures texts { (u : ℕ) → line_texts lines.new.items u ≡ line_texts lines.old.items u }
    ensures gone { (u : ℕ) → gone_of lines.new.items u ≡ gone_of lines.old.items u }
{
    let alloc = *lines.allocator();
    for _ in 0..count {
        lines.push_reserved(Released::new(alloc));
    }
}
