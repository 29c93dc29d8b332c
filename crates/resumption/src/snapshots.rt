//! Snapshots beside a journal: what a run goes on from, and what it keeps.

use book::Host;
use codec::{Coded, DecodeFault, Input, Portable};
use files::{
    FoundSnapshot, LockedJournal, Misfit, Stand, find_base, find_snapshot, has_snapshot,
    keep_snapshot, trim_journal,
};
use flows::Driver;
use log::{Log, error, info, warn};
use model::NoMemory;
use shared_log::MemoryStore;
use snapshot::{LoadFault, load, load_earlier, save};
use std::alloc::Global;
use std::fmt::Display;
use std::fs::{File, Files};
use std::io;
use std::io::ErrorKind;
use std::time::Clock;
use terminal::Plural;
use words::RunWords;

/// Where a run finds the snapshot of its journal, and keeps others.
#[derive(Drop)]
pub struct Snapshots<'a, F> {
    pub files: &'a F,
    /// The journal.
    pub path: &'a str,
    /// Which handler the snapshots are about, and of which version.
    pub about: &'a str,
    /// Behind how many lines each one is kept; none: never.
    pub each: Option<u64>,
}

/// What a run goes on from. It isn't let go of, but taken apart.
pub struct Begun<H: Portable> {
    pub stand: Stand,
    pub host: Host<H, MemoryStore>,
    /// What a driver remembers, where the run drives.
    pub driver: Option<Driver>,
}

impl<'a, F: Files<File = File>> Snapshots<'a, F> {
    /// What a run of this journal goes on from, where it can: the snapshot beside it, or the one that stands behind the
    /// lines that were trimmed away. Where there is one that it can't go on from, that is told.
    pub fn begun<L: Log, H: Portable + Clone>(
        &self,
        told: &L,
        alloc: Global,
        handler: &H,
        locked: &LockedJournal<'_>,
        asked: &RunWords<'_>,
    ) -> Option<Begun<H>> {
        if asked.audit || asked.explain {
            if has_snapshot(self.files, alloc, self.path) {
                tell_history(told, asked.audit);
            }
            return None;
        }
        let found = find_snapshot(self.files, alloc, locked);
        match self.begun_by(told, alloc, handler, found, asked) {
            Some(begun) => Some(begun),
            None if locked.lines_gone() == 0 => None,
            None => {
                let found = find_base(self.files, alloc, locked);
                self.begun_by(told, alloc, handler, found, asked)
            }
        }
    }

    /// What a run goes on from by this snapshot, where it can.
    fn begun_by<L: Log, H: Portable + Clone>(
        &self,
        told: &L,
        alloc: Global,
        handler: &H,
        found: Result<Option<FoundSnapshot>, Misfit>,
        asked: &RunWords<'_>,
    ) -> Option<Begun<H>> {
        let FoundSnapshot {
            stand,
            driver,
            host,
            ..
        } = self.fit(told, found, asked)?;
        let host = match loaded(alloc, handler, self.about, host.as_slice()) {
            Ok(host) => host,
            Err(fault) => {
                self.leave(told, &fault);
                return None;
            }
        };
        let Ok(driver) = remembered(alloc, driver.as_slice(), asked.drives) else {
            host.forget();
            self.leave(told, &"what the driver remembers is damaged");
            return None;
        };
        tell_standing(told, stand.lines);
        Some(Begun {
            stand,
            host,
            driver,
        })
    }

    /// The snapshot, where it fits the journal and stands behind no line whose reply is asked for.
    fn fit<L: Log>(
        &self,
        told: &L,
        found: Result<Option<FoundSnapshot>, Misfit>,
        asked: &RunWords<'_>,
    ) -> Option<FoundSnapshot> {
        let found = match found {
            Ok(found) => found?,
            Err(misfit) => {
                self.leave(told, &misfit);
                return None;
            }
        };
        let behind = if asked.drives {
            found.stand.written
        } else {
            found.stand.lines
        };
        if let Some(from) = asked.from {
            if from < behind {
                tell_behind(told, from);
                return None;
            }
        }
        Some(found)
    }

    /// Says that the snapshot is left aside.
    fn leave<L: Log>(&self, told: &L, why: &impl Display) {
        let path = self.path;
        warn!(told; "the snapshot beside the journal {path:?} is left aside: {why}: the lines of the journal are stepped from the first");
    }
}

/// Warns that what needs the history takes the journal from the first line on.
fn tell_history<L: Log>(told: &L, is_audit: bool) {
    let word = if is_audit { "--audit" } else { "--explain" };
    warn!(told; "{word} needs the history: the lines of the journal are stepped from the first");
}

/// Tells behind how many lines of the journal a snapshot stands.
fn tell_standing<L: Log>(told: &L, lines: u64) {
    info!(told; "a snapshot stands behind {} of the journal", Plural(lines, "line"));
}

/// Warns that the snapshot stands behind the line from which on replies are asked for.
fn tell_behind<L: Log>(told: &L, from: u64) {
    warn!(told; "the snapshot stands behind line {from}: the lines of the journal are stepped from the first");
}

/// Warns that a snapshot can't be written.
fn tell_unwritten<L: Log>(told: &L, path: &str, error: &io::Error) {
    warn!(told; "can't write the snapshot beside the journal {path:?}: {error}: the run goes on without it");
}

fn no_snapshot<L: Log>(told: &L, path: &str) -> u8 {
    error!(told; "there is no snapshot beside the journal {path:?}: `run --snapshot` keeps one");
    1
}

fn cannot_go_on<L: Log>(told: &L, path: &str, why: &impl Display) -> u8 {
    error!(told; "the snapshot beside the journal {path:?} can't be gone on from: {why}");
    1
}

/// Takes the lines of a journal away that the snapshot beside it stands behind, where a run can go on from that. Tells
/// how many there were, and which is the first now.
///
/// Where that fails it is told, and the status to end with is 1: there is no such snapshot, there is no memory, or a
/// file can't be read, written, synced or renamed.
pub fn trim_on<L: Log, F: Files<File = File> + Clock, H: Portable + Clone>(
    files: &F,
    told: &L,
    alloc: Global,
    handler: &H,
    locked: &LockedJournal<'_>,
    about: &str,
) -> Result<(u64, u64), u8> {
    let path = locked.path();
    let found = match find_snapshot(files, alloc, locked) {
        Ok(Some(found)) => found,
        Ok(None) => return Err(no_snapshot(told, path)),
        Err(misfit) => return Err(cannot_go_on(told, path, &misfit)),
    };
    match loaded(alloc, handler, about, found.host.as_slice()) {
        Ok(host) => host.forget(),
        Err(fault) => return Err(cannot_go_on(told, path, &fault)),
    }
    let count = trim_journal(files, told, alloc, locked, &found)?;
    Ok((count, found.stand.lines))
}

/// The host of a snapshot, of the form that is written now or of the first.
fn loaded<H: Portable + Clone>(
    alloc: Global,
    handler: &H,
    about: &str,
    bytes: &[u8],
) -> Result<Host<H, MemoryStore>, LoadFault> {
    match load(alloc, own_handler(handler)?, about, bytes) {
        Ok(host) => Ok(host),
        Err(LoadFault::AnotherVersion) => {
            load_earlier(alloc, own_handler(handler)?, about, bytes)
        }
        Err(fault) => Err(fault),
    }
}

/// A handler for a host of its own.
fn own_handler<H: Clone>(handler: &H) -> Result<H, NoMemory> {
    Ok(handler.clone()?)
}

/// What a driver remembers by these bytes, where the run drives.
fn remembered(alloc: Global, bytes: &[u8], drives: bool) -> Result<Option<Driver>, DecodeFault> {
    if !drives {
        return Ok(None);
    }
    let mut input = Input::new(bytes);
    let driver = Driver::decode(alloc, &mut input)?;
    Ok(Some(driver))
}

/// The bytes of what a driver remembers: none where there is none.
fn bytes_of(alloc: Global, driver: Option<&Driver>) -> io::Result<Vec<u8>> {
    let mut bytes = Vec::new(alloc);
    match driver {
        Some(driver) if driver.encode(&mut bytes).is_err() => Err(no_memory()),
        _ => Ok(bytes),
    }
}

fn no_memory() -> io::Error {
    io::Error::from(ErrorKind::OutOfMemory)
}

/// The snapshots of a run that goes on.
#[derive(Drop)]
pub struct Keeper<'a, F> {
    snapshots: Snapshots<'a, F>,
    stand: Stand,
    // How many lines the last one is behind.
    since: u64,
}

impl<'a, F: Files<File = File>> Keeper<'a, F> {
    /// The snapshots of a run that goes on from there.
    pub fn new(snapshots: Snapshots<'a, F>, begun: Stand) -> Keeper<'a, F> {
        Keeper {
            snapshots,
            stand: begun,
            since: 0,
        }
    }

    /// How many lines are stepped until the next one, where there is any.
    pub fn left(&self) -> Option<u64> {
        let each = self.snapshots.each?;
        Some(each.saturating_sub(self.since))
    }

    /// So many lines were stepped, of so many bytes, and so many lines were written in all.
    pub fn pass(&mut self, lines: u64, bytes: u64, written: u64) {
        let Stand {
            lines: had,
            bytes: size,
            ..
        } = self.stand;
        self.stand = Stand {
            lines: had.saturating_add(lines),
            bytes: size.saturating_add(bytes),
            written,
        };
        self.since = self.since.saturating_add(lines);
    }

    /// Keeps a snapshot of a host, and of what its driver remembers where it has one, where it is time for one. Where
    /// that fails it is told, and nothing is lost. Several hosts keep none.
    pub fn keep<L: Log, H: Portable>(
        &mut self,
        told: &L,
        alloc: Global,
        handler: &H,
        host: Option<&Host<H, MemoryStore>>,
        driver: Option<&Driver>,
        journal: &File,
    ) {
        if self.left() != Some(0) {
            return;
        }
        self.since = 0;
        if let Err(error) = self.write(alloc, handler, host, driver, journal) {
            tell_unwritten(told, self.snapshots.path, &error);
        }
    }

    fn write<H: Portable>(
        &self,
        alloc: Global,
        handler: &H,
        host: Option<&Host<H, MemoryStore>>,
        driver: Option<&Driver>,
        journal: &File,
    ) -> io::Result<()> {
        let Some(host) = host else {
            return Ok(());
        };
        let Ok(host) = save(alloc, handler, self.snapshots.about, host) else {
            return Err(no_memory());
        };
        let driver = bytes_of(alloc, driver)?;
        keep_snapshot(
            self.snapshots.files,
            alloc,
            self.snapshots.path,
            journal,
            &self.stand,
            driver.as_slice(),
            host.as_slice(),
        )
    }
}
