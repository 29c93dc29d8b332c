//! Rows of audits of lists from anywhere.
//!
//! | line | what it adds |
//! |---|---|
//! | `seat UNIT KIND HOME` | a seat |
//! | `outside UNIT TEXT`, `letter TO FROM`, `join KIND` | a move |
//! | `released TEXT..` | the list of one more unit |
//! | `audit` | the outcome for all since the last one |
//! | `count` | how many moves its verdict counts |
//! | `memory` | the line of an audit that found no memory |

use crate::calls::{audit_of_lists, name_of, outcome_line};
use crate::certified::add_audit;
use anyhow::{Context, bail};
use model::{Flaw, Kind, Move, Seat, TenantName, Text, Texts, Unit};
use std::alloc::Global;

/// What is audited.
#[derive(Drop)]
struct Case {
    seats: Vec<Seat>,
    moves: Vec<Move>,
    released: Vec<Texts>,
}

impl Case {
    fn new(alloc: Global) -> Case {
        Case {
            seats: Vec::new(alloc),
            moves: Vec::new(alloc),
            released: Vec::new(alloc),
        }
    }
}

/// Adds the outcomes that these lines ask for.
pub(crate) fn audit(alloc: Global, lines: &str, text: &mut String) -> anyhow::Result<()> {
    let name = name_of("a")?;
    let mut case = Case::new(alloc);
    for line in lines.lines() {
        take(alloc, &name, &mut case, line, text)?;
    }
    Ok(())
}

/// Does what a line says.
fn take(
    alloc: Global,
    name: &TenantName,
    case: &mut Case,
    line: &str,
    text: &mut String,
) -> anyhow::Result<()> {
    match line {
        "memory" => return add_memory(alloc, name, text),
        "audit" => outcome(alloc, name, case, text)?,
        "count" => count(alloc, case, text)?,
        _ => return add(alloc, case, line),
    }
    *case = Case::new(alloc);
    Ok(())
}

fn outcome(alloc: Global, name: &TenantName, case: &Case, text: &mut String) -> anyhow::Result<()> {
    let (seats, moves) = (case.seats.as_slice(), case.moves.as_slice());
    add_audit(alloc, name, seats, moves, case.released.as_slice(), text)
}

/// Adds how many moves the verdict counts, where it says yes.
fn count(alloc: Global, case: &Case, text: &mut String) -> anyhow::Result<()> {
    let (seats, moves) = (case.seats.as_slice(), case.moves.as_slice());
    match audit_of_lists(alloc, seats, moves, case.released.as_slice()) {
        Some(Ok(verdict)) => {
            text.push_str(format!(in alloc; "a verdict of {} moves\n", verdict.moves)?.as_str())?;
        }
        _ => text.push_str("no verdict\n")?,
    }
    Ok(())
}

/// Adds the line of an audit that found no memory.
fn add_memory(alloc: Global, name: &TenantName, text: &mut String) -> anyhow::Result<()> {
    text.push_str(outcome_line(alloc, name, &Err(Flaw::NoMemory))?.as_str())?;
    text.push('\n')?;
    Ok(())
}

/// Adds what a line says.
fn add(alloc: Global, case: &mut Case, line: &str) -> anyhow::Result<()> {
    let words: Vec<&str> = line.split_whitespace().collect(alloc)?;
    match words.as_slice() {
        ["seat", unit, kind, home] => case.seats.push(seat(unit, kind, home)?)?,
        ["released", texts @ ..] => case.released.push(list(alloc, texts)?)?,
        other => case.moves.push(move_of(alloc, other)?)?,
    }
    Ok(())
}

fn number(word: &str) -> anyhow::Result<u8> {
    word.parse::<u8>().context("a number is wanted")
}

fn seat(unit: &str, kind: &str, home: &str) -> anyhow::Result<Seat> {
    Ok(Seat {
        unit: Unit::new(number(unit)?),
        kind: Kind::new(number(kind)?),
        home: number(home)?,
    })
}

fn list(alloc: Global, texts: &[&str]) -> anyhow::Result<Texts> {
    let mut all = Vec::new(alloc);
    for text in texts {
        all.push(Text::of(alloc, text)?)?;
    }
    Ok(Texts::new(all)?)
}

fn move_of(alloc: Global, words: &[&str]) -> anyhow::Result<Move> {
    Ok(match words {
        ["outside", unit, text] => Move::Outside {
            unit: Unit::new(number(unit)?),
            text: Text::of(alloc, text)?,
        },
        ["letter", to, from] => Move::Letter {
            to: Unit::new(number(to)?),
            from: Unit::new(number(from)?),
        },
        ["join", kind] => Move::Join {
            kind: Kind::new(number(kind)?),
        },
        _ => bail!("no such line"),
    })
}
