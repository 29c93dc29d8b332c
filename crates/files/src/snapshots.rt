//! The file beside a journal that has a snapshot of its host: the journal's name and `.snapshot`. Beside one whose
//! first lines were trimmed away there is another, which stands behind just these: the journal's name and `.base`.
//!
//! It has a head and the host's bytes. The head is `RECALLSJ`, the version of its form, the digest of what follows of
//! it, how much of the journal the snapshot stands behind, a digest of the last bytes of that, and what a driver
//! remembers.

ghost use Rattle.std.specs.Prelude.{◌<◌, ◌^◌};
ghost use Rattle.files.specs.Stands.{stand_code, FitsStand};

use crate::fitness::{Unfit, why_unfit};
use crate::opening::LockedJournal;
use crate::replacing::{replace_file, sync_folder};
use crate::tail::read_tail;
use codec::{Coded, DecodeFault, Input, decode_bytes, encode_bytes};
use model::NoMemory;
use sha2::{Digest, Sha256};
use std::alloc::{AllocError, Global};
use std::fs::{File, Files, Metadata};
use std::io::{ErrorKind, Read};
use std::{fs, io};
use thiserror::Error;

/// What is added to the journal's name.
const SUFFIX: &str = ".snapshot";

/// What is added to the name of a trimmed one for the snapshot that stands behind the lines that went.
const BASE: &str = ".base";

/// What the file begins with.
const MAGIC: [u8; 8] = *b"RECALLSJ";

/// The version of the head's form.
const VERSION: u8 = 1;

/// How much of a journal a snapshot stands behind.
#[derive(Clone, Copy, PartialEq, Eq)]
pub struct Stand {
    /// The whole lines.
    pub lines: u64,
    /// Their bytes.
    pub bytes: u64,
    /// The lines that were written for them: as many as there are, and of a driver more.
    pub written: u64,
}

/// A snapshot that fits its journal.
#[derive(Drop)]
pub struct FoundSnapshot {
    pub stand: Stand,
    /// The digest of the last block of what it stands behind.
    pub tail: [u8; 32],
    /// What a driver remembers, as bytes: none where there is no driver.
    pub driver: Vec<u8>,
    /// The host's bytes.
    pub host: Vec<u8>,
}

/// Why the file beside a journal can't be gone on from.
#[derive(Clone, Copy, Debug, PartialEq, Eq, Error)]
pub enum Misfit {
    #[error("it can't be read")]
    Unreadable,
    #[error("{0}")]
    Unfit(Unfit),
    #[error("it is no snapshot of a journal")]
    NotASnapshot,
    #[error("it has a form of another version")]
    AnotherVersion,
    #[error("it is cut short")]
    Cut,
    #[error("it is damaged")]
    Damaged,
    #[error("it stands behind more than the journal has")]
    Longer,
    #[error("it is of another journal")]
    AnotherJournal,
    #[error("there is no memory for it")]
    NoMemory,
}

impl From<NoMemory> for Misfit {
    fn from(_error: NoMemory) -> Misfit {
        Misfit::NoMemory
    }
}

impl From<AllocError> for Misfit {
    fn from(_error: AllocError) -> Misfit {
        Misfit::NoMemory
    }
}

impl From<DecodeFault> for Misfit {
    fn from(fault: DecodeFault) -> Misfit {
        match fault {
            DecodeFault::Cut => Misfit::Cut,
            DecodeFault::Damaged => Misfit::Damaged,
            DecodeFault::NoMemory => Misfit::NoMemory,
        }
    }
}

impl Stand {
    /// Behind nothing.
    pub fn none() -> Stand {
        Stand {
            lines: 0,
            bytes: 0,
            written: 0,
        }
    }
}

impl Coded for Stand {
    ghost code = { stand_code };

    ghost fits = { FitsStand };

    fn encode(&self, out: &mut Vec<u8>) -> Result<(), NoMemory> {
        self.lines.encode(out)?;
        self.bytes.encode(out)?;
        self.written.encode(out)
    }

    fn decode(alloc: Global, input: &mut Input) -> Result<Stand, DecodeFault> {
        let lines = u64::decode(alloc, input)?;
        let bytes = u64::decode(alloc, input)?;
        let written = u64::decode(alloc, input)?;
        Ok(Stand {
            lines,
            bytes,
            written,
        })
    }
}

/// The path of a file beside a journal.
fn path_of(alloc: Global, journal: &str, suffix: &str) -> Result<String, AllocError> {
    format!(in alloc; "{journal}{suffix}")
}

/// Whether there is a file where the snapshot beside a journal would be.
pub fn has_snapshot<R: Files<File = File>>(rt: &R, alloc: Global, journal: &str) -> bool {
    match path_of(alloc, journal, SUFFIX) {
        Ok(path) => fs::metadata(rt, path.as_str()).is_ok(),
        Err(_) => false,
    }
}

/// The digest of the last block of the journal's first bytes, of which there are so many.
fn tail_digest(alloc: Global, journal: &File, bytes: u64) -> io::Result<[u8; 32]> {
    let block = read_tail(alloc, journal, bytes)?;
    Ok(Sha256::digest(block.as_slice()))
}

/// What the head of a snapshot says.
fn said_of(
    alloc: Global,
    stand: &Stand,
    digest: &[u8],
    driver: &[u8],
) -> Result<Vec<u8>, NoMemory> {
    let mut said = Vec::new(alloc);
    stand.encode(&mut said)?;
    encode_bytes(digest, &mut said)?;
    encode_bytes(driver, &mut said)?;
    Ok(said)
}

/// A head that says this.
fn head_of(alloc: Global, said: &[u8]) -> Result<Vec<u8>, NoMemory> {
    let mut head = Vec::new(alloc);
    head.extend_from_slice(&MAGIC)?;
    head.push(VERSION)?;
    head.extend_from_slice(&Sha256::digest(said))?;
    encode_bytes(said, &mut head)?;
    Ok(head)
}

fn no_memory() -> io::Error {
    io::Error::from(ErrorKind::OutOfMemory)
}

/// Writes the snapshot beside a journal anew: one that stands so, with these bytes of a driver and of the host. It is
/// synced, and whole or not there at all; so is the folder.
///
/// # Errors
///
/// That of the system. What was there before stays then, but where the folder alone can't be synced.
pub fn keep_snapshot<R: Files<File = File>>(
    rt: &R,
    alloc: Global,
    path: &str,
    journal: &File,
    stand: &Stand,
    driver: &[u8],
    host: &[u8],
) -> io::Result<()> {
    let digest = tail_digest(alloc, journal, stand.bytes)?;
    let Ok(said) = said_of(alloc, stand, &digest, driver) else {
        return Err(no_memory());
    };
    let Ok(head) = head_of(alloc, said.as_slice()) else {
        return Err(no_memory());
    };
    let at = path_of(alloc, path, SUFFIX)?;
    replace_file(rt, alloc, at.as_str(), &[head.as_slice(), host])?;
    sync_folder(rt, path)
}

/// Keeps the snapshot beside a journal as the one that stands behind the lines that are to be trimmed away.
pub(crate) fn keep_base<R: Files<File = File>>(
    rt: &R,
    alloc: Global,
    path: &str,
) -> io::Result<()> {
    let Ok(Some(bytes)) = read_beside(rt, alloc, path, SUFFIX) else {
        return Err(io::Error::new(ErrorKind::InvalidData, "its snapshot can't be read"));
    };
    let at = path_of(alloc, path, BASE)?;
    replace_file(rt, alloc, at.as_str(), &[bytes.as_slice()])
}

/// Refuses a file that a run must not go on from.
fn fit_or_misfit<R: Files>(rt: &R, found: &Metadata) -> Result<(), Misfit> {
    match why_unfit(rt, found) {
        Some(why) => Err(Misfit::Unfit(why)),
        None => Ok(()),
    }
}

/// The bytes of the file beside a journal, if there is one.
fn read_beside<R: Files<File = File>>(
    rt: &R,
    alloc: Global,
    path: &str,
    suffix: &str,
) -> Result<Option<Vec<u8>>, Misfit> {
    let at = path_of(alloc, path, suffix)?;
    // A pipe is not even opened: the run would wait for what is written to it.
    match fs::metadata(rt, at.as_str()) {
        Ok(found) => fit_or_misfit(rt, &found)?,
        Err(error) if error.kind() == ErrorKind::NotFound => return Ok(None),
        Err(_) => return Err(Misfit::Unreadable),
    }
    let Ok(mut file) = File::open(rt, at.as_str()) else {
        return Err(Misfit::Unreadable);
    };
    match file.metadata() {
        Ok(found) => fit_or_misfit(rt, &found)?,
        Err(_) => return Err(Misfit::Unreadable),
    }
    let mut bytes = Vec::new(alloc);
    match file.read_to_end(&mut bytes) {
        Ok(_) => Ok(Some(bytes)),
        Err(error) if error.kind() == ErrorKind::OutOfMemory => Err(Misfit::NoMemory),
        Err(_) => Err(Misfit::Unreadable),
    }
}

/// Takes the head off the input, and gives what it says.
fn take_head<'a>(alloc: Global, input: &mut Input<'a>) -> Result<&'a [u8], Misfit> {
    let Ok(magic) = input.bytes(MAGIC.len()) else {
        return Err(Misfit::NotASnapshot);
    };
    if magic != MAGIC.as_slice() {
        return Err(Misfit::NotASnapshot);
    }
    if input.byte()? != VERSION {
        return Err(Misfit::AnotherVersion);
    }
    let digest = input.bytes(32)?;
    let said = decode_bytes(alloc, input)?;
    if digest != Sha256::digest(said).as_slice() {
        return Err(Misfit::Damaged);
    }
    Ok(said)
}

/// Where a snapshot stands in a journal, which must have the bytes that it stands behind. Of a journal whose first
/// lines are gone they may be just those.
fn stand_in(
    alloc: Global,
    locked: &LockedJournal<'_>,
    stand: &Stand,
    tail: &[u8; 32],
) -> Result<Stand, Misfit> {
    if let Some(trimmed) = locked.trimmed() {
        if trimmed.lines == stand.lines && trimmed.tail == *tail {
            return Ok(Stand {
                bytes: trimmed.bytes,
                ..*stand
            });
        }
    }
    if stand.bytes > locked.len() {
        return Err(Misfit::Longer);
    }
    let Ok(found) = tail_digest(alloc, locked.file(), stand.bytes) else {
        return Err(Misfit::Unreadable);
    };
    if found != *tail {
        return Err(Misfit::AnotherJournal);
    }
    Ok(*stand)
}

/// The digest of these bytes, if there are as many as it has.
fn digest_in(bytes: &[u8]) -> Result<[u8; 32], Misfit> {
    match <[u8; 32]>::try_from(bytes) {
        Ok(digest) => Ok(digest),
        Err(_) => Err(Misfit::Damaged),
    }
}

/// The same bytes.
fn copied(alloc: Global, bytes: &[u8]) -> Result<Vec<u8>, AllocError> {
    let mut copy = Vec::new(alloc);
    copy.extend_from_slice(bytes)?;
    Ok(copy)
}

/// The snapshot beside a journal, if there is a file.
///
/// # Errors
///
/// Why it can't be gone on from.
pub fn find_snapshot<R: Files<File = File>>(
    rt: &R,
    alloc: Global,
    locked: &LockedJournal<'_>,
) -> Result<Option<FoundSnapshot>, Misfit> {
    find_beside(rt, alloc, locked, SUFFIX)
}

/// The snapshot that stands behind the lines that were trimmed away from a journal, if there is a file.
///
/// # Errors
///
/// Why it can't be gone on from.
pub fn find_base<R: Files<File = File>>(
    rt: &R,
    alloc: Global,
    locked: &LockedJournal<'_>,
) -> Result<Option<FoundSnapshot>, Misfit> {
    find_beside(rt, alloc, locked, BASE)
}

fn find_beside<R: Files<File = File>>(
    rt: &R,
    alloc: Global,
    locked: &LockedJournal<'_>,
    suffix: &str,
) -> Result<Option<FoundSnapshot>, Misfit> {
    let Some(bytes) = read_beside(rt, alloc, locked.path(), suffix)? else {
        return Ok(None);
    };
    let mut input = Input::new(bytes.as_slice());
    let said = take_head(alloc, &mut input)?;
    let mut said = Input::new(said);
    let stand = Stand::decode(alloc, &mut said)?;
    let tail = digest_in(decode_bytes(alloc, &mut said)?)?;
    let stand = stand_in(alloc, locked, &stand, &tail)?;
    let driver = copied(alloc, decode_bytes(alloc, &mut said)?)?;
    let host = copied(alloc, input.as_slice())?;
    Ok(Some(FoundSnapshot {
        stand,
        tail,
        driver,
        host,
    }))
}
