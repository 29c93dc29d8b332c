//! The file of `run --journal`: found fit, locked, known to be a journal of this program, and cut to whole lines that
//! last.

use crate::about::{About, Owner, lines_gone, write_about};
use crate::fitness::{Unfit, why_unfit};
use crate::lasting::LastingFile;
use crate::place::Place;
use crate::replacing::sync_folder;
use crate::snapshots::Stand;
use crate::tail::{make_last, trusted_length};
use crate::trimming::{Trimmed, trimmed_of};
use durable::{Extent, measure};
use log::{Log, error, warn};
use std::alloc::Global;
use std::fs::{File, Files, Metadata, OpenOptions, TryLockError};
use std::io::{BufReader, ErrorKind, Read, Seek, SeekFrom};
use std::os::unix::fs::OpenOptionsExt;
use std::time::Clock;
use std::{fs, io};
use terminal::{BLOCK, Plural};

/// A journal that this run has for itself, as it was found.
#[derive(Drop)]
pub struct LockedJournal<'a> {
    path: &'a str,
    file: File,
    length: u64,
    ownership: Ownership,
    trimmed: Option<Trimmed>,
}

impl<'a> LockedJournal<'a> {
    /// Its path.
    pub fn path(&self) -> &str {
        self.path
    }

    /// What its first line says, where lines went before.
    pub(crate) fn trimmed(&self) -> Option<Trimmed> {
        self.trimmed
    }

    /// How many lines went before its first one.
    pub fn lines_gone(&self) -> u64 {
        match self.trimmed {
            Some(trimmed) => trimmed.lines,
            None => 0,
        }
    }

    /// The file, to be read.
    pub fn file(&self) -> &File {
        &self.file
    }

    /// How many bytes it has.
    pub fn len(&self) -> u64 {
        self.length
    }
}

/// A journal that this run has for itself, whose bytes are whole lines, synced. The next read of the file gives its
/// first byte behind those that it is gone on from.
#[derive(Drop)]
pub struct JournalFile<'a, R> {
    pub file: LastingFile<'a, R>,
    pub extent: Extent,
    /// What of it needs no step.
    pub begun: Stand,
}

/// Which journals a run takes besides those that are known to be of its program and handler.
#[derive(Clone, Copy)]
pub struct Takeover {
    /// One of which nothing tells whose it is.
    pub adopt: bool,
    /// One of another handler, or of another version of its own.
    pub accept_upgrade: bool,
}

/// Whose a journal is.
#[derive(Drop)]
enum Ownership {
    /// It is of this program's handler.
    Own,
    /// It is new, or adopted.
    New,
    /// It is of another handler, with which this one goes on.
    Upgraded(About),
}

/// Opens the journal, or makes it, with mode 0600, and has it for itself.
///
/// Where that fails it is told, and the status to end with is given: 1 where another run has the journal, where the
/// file is unfit or not known to be a journal of this program and its handler, and isn't to be taken over, or where it
/// can't be opened.
pub fn lock_journal<'a, R: Files<File = File>, L: Log>(
    rt: &R,
    told: &L,
    alloc: Global,
    path: &'a str,
    owner: &Owner<'_>,
    takeover: Takeover,
) -> Result<LockedJournal<'a>, u8> {
    let file = open_fit(rt, told, path)?;
    lock(rt, told, path, &file)?;
    let length = length_of(told, path, &file)?;
    let ownership = owned_by(rt, told, alloc, path, owner, length, takeover)?;
    let trimmed = match trimmed_of(alloc, &file, length) {
        Ok(trimmed) => trimmed,
        Err(error) => return Err(cannot_read(told, path, &error)),
    };
    let trimmed = match (trimmed, &ownership) {
        (Some(_), Ownership::New) => return Err(cannot_take_trimmed(told, path)),
        _ => trimmed.filter(|said| lines_gone(rt, alloc, path) == Some(said.lines)),
    };
    Ok(LockedJournal {
        path,
        file,
        length,
        ownership,
        trimmed,
    })
}

fn cannot_take_trimmed<L: Log>(told: &L, path: &str) -> u8 {
    error!(told; "the journal {path:?} begins as one whose first lines were trimmed away, and no page beside it says so: it can't be taken over");
    1
}

/// Cuts the journal to whole lines that last, and writes its page beside it. A last line that isn't whole is cut off,
/// and what a crash of the machine left of it. How many lines there are is told, where there are some or one was cut
/// off. What stands before `begun` is not read.
///
/// Where that fails it is told, and the status to end with is given: 2 where `from` is past the last line, and then
/// nothing is changed; 1 where the file can't be read, cut or synced.
pub fn open_journal<'a, R: Files<File = File> + Clock, L: Log>(
    rt: &'a R,
    told: &L,
    alloc: Global,
    locked: LockedJournal<'a>,
    owner: &Owner<'_>,
    from: Option<u64>,
    begun: Stand,
) -> Result<JournalFile<'a, R>, u8> {
    let gone = locked.lines_gone();
    let LockedJournal {
        path,
        file,
        length,
        ownership,
        ..
    } = locked;
    check_gone(told, path, gone, from, &begun)?;
    let extent = measured(told, alloc, path, &file, length, from, &begun)?;
    if let Err(error) = make_whole(alloc, &file, length, &extent) {
        return Err(cannot_make_whole(told, path, &error));
    }
    if let Err(error) = make_page(rt, alloc, path, owner, ownership, extent.lines) {
        return Err(cannot_write_page(told, path, &error));
    }
    if sync_folder(rt, path).is_err() {
        tell_unsynced(told, path);
    }
    tell_extent(told, path, &extent, length);
    match LastingFile::new(rt, path, file, extent.whole) {
        Ok(file) => Ok(JournalFile {
            file,
            extent,
            begun,
        }),
        Err(error) => Err(cannot_read(told, path, &error)),
    }
}

fn cannot_make_whole<L: Log>(told: &L, path: &str, error: &io::Error) -> u8 {
    error!(told; "can't cut, write or sync the journal {path:?}: {error}");
    1
}

fn cannot_write_page<L: Log>(told: &L, path: &str, error: &io::Error) -> u8 {
    error!(told; "can't write the page beside the journal {path:?}: {error}");
    1
}

/// Warns that a new journal may not last.
fn tell_unsynced<L: Log>(told: &L, path: &str) {
    warn!(told; "the folder of the journal {path:?} can't be synced: a crash of the machine may lose a new journal");
}

/// Sees to it that no line is needed that went before the journal's first one.
fn check_gone<L: Log>(
    told: &L,
    path: &str,
    gone: u64,
    from: Option<u64>,
    begun: &Stand,
) -> Result<(), u8> {
    if begun.lines >= gone {
        return Ok(());
    }
    let went = Plural(gone, "line");
    match from {
        Some(from) if from < gone => {
            error!(told; "the first {went} of the journal {path:?} were trimmed away, and with them replies that --from asks for");
            Err(2)
        }
        _ => {
            error!(told; "the first {went} of the journal {path:?} were trimmed away, and there is no snapshot to go on from");
            Err(1)
        }
    }
}

/// Opens the file to read it and to write to it, or makes it, where it is fit.
fn open_fit<R: Files<File = File>, L: Log>(rt: &R, told: &L, path: &str) -> Result<File, u8> {
    match fs::metadata(rt, path) {
        // A pipe or a device is not even opened.
        Ok(found) => refuse_unfit(rt, told, path, &found)?,
        Err(error) if error.kind() == ErrorKind::NotFound => {}
        Err(error) => return Err(cannot_open(told, path, &error)),
    }
    let mut options = OpenOptions::new();
    options.read(true).write(true).create(true).mode(0o600);
    let file = match options.open(rt, path) {
        Ok(file) => file,
        Err(error) => return Err(cannot_open(told, path, &error)),
    };
    match file.metadata() {
        Ok(found) => refuse_unfit(rt, told, path, &found)?,
        Err(error) => return Err(cannot_open(told, path, &error)),
    }
    Ok(file)
}

fn cannot_open<L: Log>(told: &L, path: &str, error: &io::Error) -> u8 {
    error!(told; "can't open the journal {path:?}: {error}");
    1
}

fn refuse_unfit<R: Files, L: Log>(
    rt: &R,
    told: &L,
    path: &str,
    found: &Metadata,
) -> Result<(), u8> {
    match why_unfit(rt, found) {
        Some(why) => {
            error!(told; "{path:?} can't be the journal: {why}");
            Err(1)
        }
        None => Ok(()),
    }
}

/// Locks the file, which its path must name still.
fn lock<R: Files, L: Log>(rt: &R, told: &L, path: &str, file: &File) -> Result<(), u8> {
    match file.try_lock() {
        Ok(()) => {}
        Err(TryLockError::WouldBlock) => {
            error!(told; "another run has the journal {path:?}");
            return Err(1);
        }
        Err(TryLockError::Error(error)) => {
            error!(told; "can't lock the journal {path:?}: {error}");
            return Err(1);
        }
    }
    if is_named(rt, path, file) {
        return Ok(());
    }
    error!(told; "the journal {path:?} was replaced while it was opened");
    Err(1)
}

/// Whether the path names this file.
fn is_named<R: Files>(rt: &R, path: &str, file: &File) -> bool {
    match (fs::metadata(rt, path), file.metadata()) {
        (Ok(named), Ok(own)) => Place::of(&named) == Place::of(&own),
        _ => false,
    }
}

/// How many bytes the file has.
fn length_of<L: Log>(told: &L, path: &str, file: &File) -> Result<u64, u8> {
    match file.metadata() {
        Ok(found) => Ok(found.len()),
        Err(error) => Err(cannot_read(told, path, &error)),
    }
}

fn cannot_read<L: Log>(told: &L, path: &str, error: &io::Error) -> u8 {
    error!(told; "can't read the journal {path:?}: {error}");
    1
}

/// Whose the journal is by the page beside it. One that has bytes and isn't this program's is refused, but for what
/// is to be taken over.
fn owned_by<R: Files<File = File>, L: Log>(
    rt: &R,
    told: &L,
    alloc: Global,
    path: &str,
    owner: &Owner<'_>,
    length: u64,
    takeover: Takeover,
) -> Result<Ownership, u8> {
    if length == 0 {
        return Ok(Ownership::New);
    }
    match About::read(rt, alloc, path) {
        Ok(Some(about)) => owned_as_said(told, path, owner, about, takeover),
        Ok(None) | Err(_) if takeover.adopt => Ok(Ownership::New),
        Ok(None) => {
            error!(told; "{path:?} is not known to be a journal: it has {}, and no page {path:?}.about beside it; --adopt takes it over", Plural(length, "byte"));
            Err(1)
        }
        Err(error) => {
            error!(told; "can't read the page beside the journal {path:?}: {error}; --adopt takes it over");
            Err(1)
        }
    }
}

/// Whose it is where there is such a page.
fn owned_as_said<L: Log>(
    told: &L,
    path: &str,
    owner: &Owner<'_>,
    about: About,
    takeover: Takeover,
) -> Result<Ownership, u8> {
    if about.is_of(owner) {
        return Ok(Ownership::Own);
    }
    if takeover.accept_upgrade {
        return Ok(Ownership::Upgraded(about));
    }
    tell_other(told, path, owner, &about);
    Err(1)
}

/// Tells that it is another one's.
fn tell_other<L: Log>(told: &L, path: &str, owner: &Owner<'_>, about: &About) {
    let own = owner.handler;
    let version = owner.handler_version;
    error!(told; "the journal {path:?} is of {}, and this program has handler {own:?}, version {version:?}: its replies may differ; --accept-upgrade goes on with it", about.maker);
}

/// Writes the page beside a journal of so many lines, but where it says whose the journal is.
fn make_page<R: Files<File = File> + Clock>(
    rt: &R,
    alloc: Global,
    path: &str,
    owner: &Owner<'_>,
    ownership: Ownership,
    lines: u64,
) -> io::Result<()> {
    match ownership {
        Ownership::Own => Ok(()),
        Ownership::New => write_about(rt, alloc, path, owner, &[], None),
        Ownership::Upgraded(about) => {
            let earlier = about.ended(lines)?;
            write_about(rt, alloc, path, owner, earlier.as_slice(), None)
        }
    }
}

/// What the file has, of which the bytes that can be trusted count.
fn measured<L: Log>(
    told: &L,
    alloc: Global,
    path: &str,
    file: &File,
    length: u64,
    from: Option<u64>,
    begun: &Stand,
) -> Result<Extent, u8> {
    let extent = match measure_file(alloc, file, length, from.unwrap_or(u64::MAX), begun) {
        Ok(extent) => extent,
        Err(error) => return Err(cannot_read(told, path, &error)),
    };
    if let Some(from) = from {
        if from > extent.lines {
            error!(told; "the journal {path:?} has {}: there is no line {from} to go on from", Plural(extent.lines, "line"));
            return Err(2);
        }
    }
    Ok(extent)
}

/// Measures the file from behind what it is gone on from, and goes back there.
fn measure_file(
    alloc: Global,
    file: &File,
    length: u64,
    from: u64,
    begun: &Stand,
) -> io::Result<Extent> {
    let trusted = trusted_length(alloc, file, length)?;
    let mut bytes = file;
    bytes.seek(SeekFrom::Start(begun.bytes))?;
    let behind = {
        let mut reader = BufReader::with_capacity(
            alloc,
            BLOCK,
            bytes.take(trusted.saturating_sub(begun.bytes)),
        )?;
        measure(&mut reader, from.saturating_sub(begun.lines))?
    };
    bytes.seek(SeekFrom::Start(begun.bytes))?;
    Ok(Extent {
        lines: behind.lines.saturating_add(begun.lines),
        whole: behind.whole.saturating_add(begun.bytes),
        torn: behind.torn,
        before: behind.before.saturating_add(begun.bytes),
    })
}

/// Cuts off what stands behind the last whole line, and makes all lines last.
fn make_whole(alloc: Global, file: &File, length: u64, extent: &Extent) -> io::Result<()> {
    if extent.whole < length {
        file.set_len(extent.whole)?;
    }
    make_last(alloc, file, extent.whole)
}

/// Tells how many lines there are, so that whoever gives the lines knows from where.
fn tell_extent<L: Log>(told: &L, path: &str, extent: &Extent, length: u64) {
    let lines = extent.lines;
    let has = Plural(lines, "line");
    if extent.whole < length {
        warn!(told; "the last line of the journal {path:?} was not whole, and is cut off: it has {has}, so give those from line {lines} on (from 0)");
    } else if lines > 0 {
        warn!(told; "the journal {path:?} has {has}: give those from line {lines} on (from 0)");
    }
}
