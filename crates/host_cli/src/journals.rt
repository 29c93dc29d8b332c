//! `journal`: what a journal has, and `trim`: a journal without the lines that its snapshot stands behind.

use crate::owners::{about_of, no_name, owner_of};
use codec::Portable;
use files::{Takeover, Told, has_snapshot, lock_journal, tell_journal};
use log::{Log, error};
use resumption::trim_on;
use std::alloc::{AllocError, Global};
use std::fs::{File, Files};
use std::io;
use std::time::Clock;
use terminal::Plural;
use words::{JournalWords, Program, TrimWords};

/// Writes what the journal has to standard output, and tells the status to end with.
pub(crate) fn journal_as_asked<R: Files<File = File> + Print, L: Log>(
    rt: &R,
    told: &L,
    alloc: Global,
    asked: &JournalWords<'_>,
) -> u8 {
    let path = asked.file;
    let found = match tell_journal(rt, alloc, path) {
        Ok(found) => found,
        Err(error) => return cannot_read(told, path, &error),
    };
    match text_of(alloc, path, &found, asked.json) {
        Ok(text) => put_text(rt, told, &text),
        Err(_) => no_text(told, path),
    }
}

fn cannot_read<L: Log>(told: &L, path: &str, error: &io::Error) -> u8 {
    error!(told; "can't read the journal {path:?}: {error}");
    1
}

fn no_text<L: Log>(told: &L, path: &str) -> u8 {
    error!(told; "there is no memory to tell what the journal {path:?} has");
    1
}

fn no_output<L: Log>(told: &L) -> u8 {
    error!(told; "the output can't be written");
    1
}

/// Writes the text to standard output, as a line, and tells the status to end with.
fn put_text<R: Print, L: Log>(rt: &R, told: &L, text: &str) -> u8 {
    match println!(rt; "{text}") {
        Ok(()) => 0,
        Err(_) => no_output(told),
    }
}

/// What is told, for people or for programs.
fn text_of(alloc: Global, path: &str, found: &Told, json: bool) -> Result<String, AllocError> {
    if json {
        found.to_json(alloc)
    } else {
        format!(in alloc; "{path:?}: {found}")
    }
}

/// Takes the lines of the journal away that its snapshot stands behind, and tells the status to end with.
pub(crate) fn trim_as_asked<R: Files<File = File> + Clock + Print, L: Log, H: Portable + Clone>(
    rt: &R,
    told: &L,
    alloc: Global,
    handler: H,
    program: &Program<'_>,
    asked: &TrimWords<'_>,
) -> u8 {
    let path = asked.file;
    // A journal that isn't there is not made.
    if !has_snapshot(rt, alloc, path) {
        return no_snapshot(told, path);
    }
    let owner = owner_of(program);
    let takeover = Takeover {
        adopt: false,
        accept_upgrade: false,
    };
    let Ok(about) = about_of(alloc, &owner, asked.drives) else {
        return no_name(told);
    };
    let locked = match lock_journal(rt, told, alloc, path, &owner, takeover) {
        Ok(locked) => locked,
        Err(status) => return status,
    };
    match trim_on(rt, told, alloc, &handler, &locked, about.as_str()) {
        Ok((count, first)) => tell_trimmed(rt, told, path, count, first),
        Err(status) => status,
    }
}

fn no_snapshot<L: Log>(told: &L, path: &str) -> u8 {
    error!(told; "there is no snapshot beside the journal {path:?}: `run --snapshot` keeps one");
    1
}

/// Writes to standard output how many lines were trimmed away, and tells the status to end with.
fn tell_trimmed<R: Print, L: Log>(rt: &R, told: &L, path: &str, count: u64, first: u64) -> u8 {
    let went = Plural(count, "line");
    match println!(rt; "{path:?}: {went} trimmed away; its first one is line {first} (from 0)") {
        Ok(()) => 0,
        Err(_) => no_output(told),
    }
}
