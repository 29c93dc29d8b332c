//! Journals whose first lines are gone: `recall trim`.
//!
//! Such a journal begins with a line that is no step. It says how many lines went before, and the digest of the last
//! block of them, by which the snapshot that stands behind them is known. The page beside the journal says how many
//! went, too: a first line that only looks so is a line like any other.

use crate::about::note_trimmed;
use crate::opening::LockedJournal;
use crate::replacing::{make_new, new_path, rename_new, sync_folder};
use crate::snapshots::{FoundSnapshot, keep_base};
use log::{Log, error};
use serde_json::Value;
use std::alloc::{AllocError, Global};
use std::fs::{File, Files};
use std::io;
use std::io::{BufReader, Seek, SeekFrom, Write};
use std::os::unix::fs::FileExt;
use std::time::Clock;
use terminal::BLOCK;

/// How many bytes the first line of a trimmed journal has at most.
const MOST: usize = 160;

/// The digits of a byte.
const DIGITS: [u8; 16] = *b"0123456789abcdef";

/// What the first line of a trimmed journal says.
#[derive(Clone, Copy, PartialEq, Eq)]
pub(crate) struct Trimmed {
    /// How many lines went before.
    pub(crate) lines: u64,
    /// The digest of the last block of them.
    pub(crate) tail: [u8; 32],
    /// How many bytes the line has.
    pub(crate) bytes: u64,
}

/// A digest in hexadecimal digits.
fn hex_of(alloc: Global, digest: &[u8; 32]) -> Result<String, AllocError> {
    let mut text = String::new(alloc);
    for byte in digest {
        text.push(char::from(DIGITS[usize::from(*byte >> 4)]))?;
        text.push(char::from(DIGITS[usize::from(*byte & 15)]))?;
    }
    Ok(text)
}

/// The value of a hexadecimal digit.
fn value_of(digit: u8) -> Option<u8> {
    match DIGITS.iter().position(|one| *one == digit) {
        Some(value) => u8::try_from(value).ok(),
        None => None,
    }
}

/// The digest of these hexadecimal digits, if there are as many as it has.
fn digest_of(text: &str) -> Option<[u8; 32]> {
    let digits = text.as_bytes();
    if digits.len() != 64 {
        return None;
    }
    let mut digest = [0u8; 32];
    for at in 0..32 {
        let high = value_of(digits[2 * at])?;
        let low = value_of(digits[2 * at + 1])?;
        digest[at] = (high << 4) | low;
    }
    Some(digest)
}

/// The first line of a journal of which so many lines went.
fn first_line(alloc: Global, lines: u64, tail: &[u8; 32]) -> Result<String, AllocError> {
    let tail = hex_of(alloc, tail)?;
    let tail = tail.as_str();
    format!(in alloc; "{{\"journal\":{lines},\"tail\":\"{tail}\"}}\n")
}

/// What a first line says, where it is that of a trimmed journal.
fn said_by(alloc: Global, line: &[u8]) -> Option<Trimmed> {
    let Ok(text) = str::from_utf8(line) else {
        return None;
    };
    let Ok(value) = Value::from_str(alloc, text) else {
        return None;
    };
    let lines = value.get("journal").and_then(Value::as_u64)?;
    let tail = digest_of(value.get("tail").and_then(Value::as_str)?)?;
    Some(Trimmed {
        lines,
        tail,
        bytes: line.len() as u64,
    })
}

/// The first line of a file of so many bytes, with its line feed, if it is no longer than that of a trimmed journal.
fn read_first(alloc: Global, file: &File, length: u64) -> io::Result<Vec<u8>> {
    let mut line = Vec::new(alloc);
    line.resize(length.min(MOST as u64) as usize, 0)?;
    file.read_exact_at(line.as_mut_slice(), 0)?;
    let end = match line.iter().position(|byte| *byte == b'\n') {
        Some(at) => at + 1,
        None => 0,
    };
    line.truncate(end);
    Ok(line)
}

/// What the first line of a journal of so many bytes says, where it is one of a trimmed journal by its form.
pub(crate) fn trimmed_of(alloc: Global, file: &File, length: u64) -> io::Result<Option<Trimmed>> {
    let line = read_first(alloc, file, length)?;
    Ok(said_by(alloc, line.as_slice()))
}

/// Writes what stays of a journal to a new file beside it, synced: its first line, and the bytes from this place on.
fn write_rest<R: Files<File = File>>(
    rt: &R,
    alloc: Global,
    new: &str,
    first: &str,
    journal: &File,
    from: u64,
) -> io::Result<()> {
    let mut file = make_new(rt, new)?;
    file.write_all(first.as_bytes())?;
    let mut bytes = journal;
    bytes.seek(SeekFrom::Start(from))?;
    let mut reader = BufReader::with_capacity(alloc, BLOCK, bytes)?;
    io::copy(&mut reader, &mut file)?;
    file.sync_all()
}

/// Takes the lines of a journal away that this snapshot of it stands behind. The snapshot is kept beside it for good,
/// and the page beside it is written, before the journal is: so that its first line counts as soon as it is there.
fn take_away<R: Files<File = File> + Clock>(
    rt: &R,
    alloc: Global,
    locked: &LockedJournal<'_>,
    snapshot: &FoundSnapshot,
) -> io::Result<()> {
    let path = locked.path();
    let new = new_path(alloc, path)?;
    let first = first_line(alloc, snapshot.stand.lines, &snapshot.tail)?;
    write_rest(
        rt,
        alloc,
        new.as_str(),
        first.as_str(),
        locked.file(),
        snapshot.stand.bytes,
    )?;
    keep_base(rt, alloc, path)?;
    note_trimmed(rt, alloc, path, snapshot.stand.lines)?;
    rename_new(rt, alloc, path)?;
    sync_folder(rt, path)
}

/// Takes the lines of a journal away that this snapshot of it stands behind, and tells how many there were and the
/// status to end with: 1 where the files can't be read, written, synced or renamed; then the journal is as it was, but
/// where the folder alone can't be synced.
pub fn trim_journal<R: Files<File = File> + Clock, L: Log>(
    rt: &R,
    told: &L,
    alloc: Global,
    locked: &LockedJournal<'_>,
    snapshot: &FoundSnapshot,
) -> Result<u64, u8> {
    let gone = locked.lines_gone();
    match take_away(rt, alloc, locked, snapshot) {
        Ok(()) => Ok(snapshot.stand.lines.saturating_sub(gone)),
        Err(error) => {
            let path = locked.path();
            error!(told; "can't trim the journal {path:?}: {error}");
            Err(1)
        }
    }
}
