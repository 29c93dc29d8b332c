//! Letters that units sent.

ghost use Rattle.std.specs.Prelude.{◌≡◌, ◌<◌, ◌≤◌, ◌^◌, ◌++◌, [], ◌∷◌, IfOk, length, nat_lt, Some};
ghost use Rattle.std.specs.Prelude.{ℕ, ◌+◌};
ghost use Rattle.std.specs.List.{filter};
ghost use Rattle.session.specs.Counts.{advanced, sent_one, sent_to};
ghost use Rattle.compact.specs.Steps.{letters_by as letters_of};

use crate::new_letters::{LetterStorage, NewLetters};
use depvector::SharedVector;
use model::{NoMemory, Source, Text, Unit};
use session::Sessions;
use std::alloc::Global;
use std::marker::Model;

/// The number of a letter, its text, and the vector of its sender's interval.
#[derive(Drop)]
struct Parts {
    number: u64,
    text: Text,
    vector: SharedVector,
}

impl Model for Parts {
    ghost use Rattle.compact.specs.Compact.{Content as ContentOf};

    ghost Value = { ContentOf };

    ghost view = { λ p. record { number = p.number; text = p.text; vector = p.vector } };
}

/// What is forgotten of a letter once its receipt is firm for good. It lies in a place of its own, so that a letter
/// that was forgotten is small.
#[derive(Drop)]
pub struct Content {
    parts: Box<Parts>,
}

impl Model for Content {
    ghost use Rattle.compact.specs.Compact.{Content as ContentOf};

    ghost Value = { ContentOf };

    ghost view = { λ c. c.parts.value };
}

impl Content {
    /// The content of the letter of this number in the session of its sender and its receiver, with this text, sent in
    /// an interval of this vector.
    ///
    /// # Errors
    ///
    /// `NoMemory` where it finds no memory.
    pub fn new(
        alloc: Global,
        number: u64,
        text: Text,
        vector: SharedVector,
    ) -> Result<Content, NoMemory>
        ensures { IfOk result (λ c. c ≡ record { number = number; text = text; vector = vector }) }
    {
        let parts = Box::new(
            alloc,
            Parts {
                number,
                text,
                vector,
            },
        )?;
        Ok(Content { parts })
    }

    /// Its number in the session of its sender and its receiver, from 0.
    pub fn number(&self) -> u64
        ensures { result ≡ self.now.number }
    {
        self.parts.number
    }

    pub fn text(&self) -> &Text
        ensures { result.now ≡ self.now.text }
    {
        &self.parts.text
    }

    /// The vector of the sender's interval.
    pub fn vector(&self) -> &SharedVector
        ensures { result.now ≡ self.now.vector }
    {
        &self.parts.vector
    }
}

/// A letter: its sender's unit and its receiver, and its content where that is not forgotten.
#[derive(Drop)]
pub struct SentLetter {
    pub source: Unit,
    pub receiver: Unit,
    pub content: Option<Content>,
}

impl Model for SentLetter {
    ghost use Rattle.compact.specs.Compact.{CompactLetter};

    ghost Value = { CompactLetter };

    ghost view = { λ l. record { source = l.source; receiver = l.receiver; content = l.content } };
}

/// The letter of a send, of which the sender had sent so many to the receiver before.
#[inline(always)]
fn letter_of(
    alloc: Global,
    unit: Unit,
    vector: &SharedVector,
    send: &(Unit, Text),
    number: u64,
) -> Result<SentLetter, NoMemory>
    ensures { IfOk result (λ l.
        l ≡ record {
          source = unit;
          receiver = send.now.0;
          content = Some
              (record { number = number; text = send.now.1; vector = vector.now });
        }) }
{
    let content = Content::new(alloc, number, send.1.copy()?, vector.copy(alloc)?)?;
    Ok(SentLetter {
        source: unit,
        receiver: send.0,
        content: Some(content),
    })
}

/// Counts one more letter to the unit, where it has an entry.
fn count_sent(counts: &mut Sessions, unit: Unit)
    requires { sent_to counts.old unit + 1 < 2 ^ 64 }
    ensures { counts.new ≡ sent_one counts.old unit }
{
    if usize::from(unit.number()) < counts.len() {
        counts.sent(unit);
    }
}

/// The letters of those sends that are to units within the width, where the sender has these counts.
#[tactic(auto, using(crate::proofs::Numbers::room_left))]
fn letters_from(
    alloc: Global,
    unit: Unit,
    vector: &SharedVector,
    counts: &mut Sessions,
    sends: &[(Unit, Text)],
    width: usize,
) -> Result<Vec<SentLetter>, NoMemory>
    requires { (u : ℕ) → sent_to counts.old u + length sends.now < 2 ^ 64 }
    ensures { IfOk result (λ made.
        made.items ≡ letters_of unit vector.now counts.old (filter (λ s. nat_lt s.0 width) sends.now)) }
{
    let mut made = Vec::new(alloc);
    for send in sends {
        if usize::from(send.0.number()) < width {
            let number = counts.number_to(send.0);
            made.push(letter_of(alloc, unit, vector, send, number)?)?;
            count_sent(counts, send.0);
        }
    }
    Ok(made)
}

/// The counts after a receipt from the source, which have room for so many sends.
#[tactic(auto, using(rollback::proofs::Sends::room_after_receipt))]
fn counts_after(sessions: &Sessions, source: &Source, sends: usize) -> Result<Sessions, NoMemory>
    ensures counts { IfOk result (λ c. c ≡ advanced sessions.now source.now) }
    ensures room { IfOk result (λ c. (u : ℕ) → sent_to c u + sends < 2 ^ 64) }
{
    if !sessions.has_room(*source, sends) {
        return Err(NoMemory);
    }
    let mut counts = sessions.copy()?;
    counts.advance(*source);
    Ok(counts)
}

/// The letters that a unit sends by the turn of a receipt, of which those to units within the width count. `sessions`
/// are the unit's before the receipt; they stay.
///
/// # Errors
///
/// `NoMemory` where the letters find no memory, or can't be counted.
pub fn letters_by(
    alloc: Global,
    unit: Unit,
    vector: &SharedVector,
    sessions: &Sessions,
    source: Source,
    sends: &[(Unit, Text)],
    width: usize,
) -> Result<NewLetters, NoMemory>
    ensures { IfOk result (λ made.
        made.items ≡ letters_of unit vector.now (advanced sessions.now source) (filter (λ s.
        nat_lt s.0 width) sends.now)) }
{
    if sends.is_empty() {
        return Ok(NewLetters {
            letters: LetterStorage::Zero,
        });
    }
    if sends.len() == 1 {
        let send = &sends[0];
        if usize::from(send.0.number()) >= width {
            return Ok(NewLetters {
                letters: LetterStorage::Zero,
            });
        }
        // No counts need be copied: a receipt leaves what was sent before.
        let letter = letter_of(alloc, unit, vector, send, sessions.number_to(send.0))?;
        return Ok(NewLetters {
            letters: LetterStorage::One(letter),
        });
    }
    let mut counts = counts_after(sessions, &source, sends.len())?;
    let letters = letters_from(alloc, unit, vector, &mut counts, sends, width)?;
    Ok(NewLetters {
        letters: LetterStorage::Many(letters),
    })
}
