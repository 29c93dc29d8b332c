//! Rows of certificates: what a book shows of tenant `a`, and what the audit says of it, as it is and tampered with.
//!
//! The lines that come out are the seats, the moves, and the outcomes of audits: of what the book has, of its moves
//! without the last and without the first, of other outputs, and of one seat alone.

use crate::answers::answer;
use crate::calls::{self, Books, audit_of_lists, name_of, new_book, outcome_line};
use model::{MAX_UNITS, Move, Seat, TenantName, Text, Texts};
use std::alloc::Global;

/// Adds what a new book shows of tenant `a` before and after these lines.
pub(crate) fn certify(alloc: Global, lines: &str, text: &mut String) -> anyhow::Result<()> {
    let name = name_of("a")?;
    let mut book = new_book(alloc);
    let added = add_before_and_after(alloc, &mut book, &name, lines, text);
    book.forget();
    added
}

fn add_before_and_after(
    alloc: Global,
    book: &mut Books,
    name: &TenantName,
    lines: &str,
    text: &mut String,
) -> anyhow::Result<()> {
    add_lists(alloc, book, name, text)?;
    answer_all(alloc, book, lines)?;
    add_lists(alloc, book, name, text)
}

/// Answers these lines.
fn answer_all(alloc: Global, book: &mut Books, lines: &str) -> anyhow::Result<()> {
    for line in lines.lines() {
        answer(alloc, book, line)?;
    }
    Ok(())
}

/// Adds the lists of the tenant, and what audits say of them.
fn add_lists(
    alloc: Global,
    book: &Books,
    name: &TenantName,
    text: &mut String,
) -> anyhow::Result<()> {
    let seats = calls::seats(book, name)?;
    let moves = calls::certificate(book, name)?;
    let released = released(alloc, book, name)?;
    text.push_str(format!(in alloc; "{} seats\n", seats.len())?.as_str())?;
    for moved in moves.iter() {
        add_move(alloc, moved, text)?;
    }
    add_audits(
        alloc,
        name,
        seats.as_slice(),
        moves.as_slice(),
        released.as_slice(),
        text,
    )
}

/// What each unit of the tenant released.
fn released(alloc: Global, book: &Books, name: &TenantName) -> anyhow::Result<Vec<Texts>> {
    let mut lists = Vec::new(alloc);
    for number in 0..MAX_UNITS as u8 {
        match calls::released(book, name, number) {
            Some(outputs) => lists.push(Texts::of(alloc, outputs)?)?,
            None => return Ok(lists),
        }
    }
    Ok(lists)
}

/// Adds the line of a move.
fn add_move(alloc: Global, moved: &Move, text: &mut String) -> anyhow::Result<()> {
    let line = match moved {
        Move::Outside { unit, text } => {
            format!(in alloc;
                "unit {} takes {} from outside\n",
                unit.number(),
                text.as_str()
            )?
        }
        Move::Letter { to, from } => {
            format!(in alloc;
                "unit {} takes a letter of unit {}\n",
                to.number(),
                from.number()
            )?
        }
        Move::Join { kind } => format!(in alloc; "a unit of kind {} joins\n", kind.number())?,
    };
    text.push_str(line.as_str())?;
    Ok(())
}

/// Adds what audits say.
fn add_audits(
    alloc: Global,
    name: &TenantName,
    seats: &[Seat],
    moves: &[Move],
    released: &[Texts],
    text: &mut String,
) -> anyhow::Result<()> {
    let but_last = moves.get(..moves.len().saturating_sub(1)).unwrap_or(&[]);
    let but_first = moves.get(1..).unwrap_or(&[]);
    let one_seat = seats.get(..1).unwrap_or(&[]);
    let others = others(alloc, released)?;
    add_audit(alloc, name, seats, moves, released, text)?;
    add_audit(alloc, name, seats, but_last, released, text)?;
    add_audit(alloc, name, seats, but_first, released, text)?;
    add_audit(alloc, name, seats, moves, others.as_slice(), text)?;
    add_audit(alloc, name, one_seat, moves, released, text)
}

/// For each list one of a text that nobody released.
fn others(alloc: Global, released: &[Texts]) -> anyhow::Result<Vec<Texts>> {
    let mut lists = Vec::new(alloc);
    for _ in 0..released.len() {
        let mut texts = Vec::new(alloc);
        texts.push(Text::of(alloc, "of nobody")?)?;
        lists.push(Texts::new(texts)?)?;
    }
    Ok(lists)
}

/// Adds what the audit of these lists says, where it may be asked.
pub(crate) fn add_audit(
    alloc: Global,
    name: &TenantName,
    seats: &[Seat],
    moves: &[Move],
    released: &[Texts],
    text: &mut String,
) -> anyhow::Result<()> {
    match audit_of_lists(alloc, seats, moves, released) {
        Some(outcome) => text.push_str(outcome_line(alloc, name, &outcome)?.as_str())?,
        None => text.push_str("these lists don't fit")?,
    }
    text.push('\n')?;
    Ok(())
}
