//! The file of a journal, as lines are appended to it.

ghost use Rattle.std.specs.Prelude.{refl};

use crate::place::Place;
use durable::Durable;
use std::fs::{File, Files};
use std::io::{ErrorKind, Seek, SeekFrom, Write};
use std::{fs, io};

/// What became of a journal.
#[derive(Clone, Copy, PartialEq, Eq)]
pub enum Standing {
    /// All that was written and synced stands.
    Whole,
    /// A write or a sync failed: the file was cut back to what was synced before, and that is synced.
    CutBack,
    /// A write or a sync failed, and the file can't be cut back: how many lines it has isn't known.
    Unknown,
    /// Its path names another file, or none.
    Replaced,
    /// It has more or fewer bytes than were written: somebody else writes to it.
    Changed,
}

/// A file to which bytes are appended. Before each block that is appended
/// it is looked whether the path still names this file, as long as it was left. After a write or a sync that failed
/// it is cut back to the bytes that were synced before, as far as the device lets it: a sync that is asked for again
/// may say yes to bytes that are lost.
#[derive(Drop)]
pub struct LastingFile<'a, R> {
    rt: &'a R,
    path: &'a str,
    file: File,
    place: Place,
    /// The bytes that were synced.
    synced: u64,
    /// The bytes that were written.
    written: u64,
    standing: Standing,
}

impl<'a, R: Files<File = File>> LastingFile<'a, R> {
    /// A file that has so many bytes, all of them synced.
    pub(crate) fn new(
        rt: &'a R,
        path: &'a str,
        file: File,
        length: u64,
    ) -> io::Result<LastingFile<'a, R>> {
        let place = Place::of(&file.metadata()?);
        Ok(LastingFile {
            rt,
            path,
            file,
            place,
            synced: length,
            written: length,
            standing: Standing::Whole,
        })
    }

    /// The file, to be read.
    pub fn file(&self) -> &File {
        &self.file
    }

    /// What became of it.
    pub fn standing(&self) -> Standing {
        self.standing
    }

    /// What a look at the path tells.
    fn look(&self) -> Standing {
        match fs::metadata(self.rt, self.path) {
            Ok(found) if Place::of(&found) != self.place => Standing::Replaced,
            Ok(found) if found.len() != self.written => Standing::Changed,
            Ok(_) => Standing::Whole,
            Err(_) => Standing::Replaced,
        }
    }

    /// Sees to it that a block may be appended, and goes to the end.
    fn begin_block(&mut self) -> io::Result<()> {
        self.standing = self.look();
        if self.standing != Standing::Whole {
            return Err(io::Error::new(ErrorKind::Other, "the journal is not as it was left"));
        }
        self.file.seek(SeekFrom::Start(self.written))?;
        Ok(())
    }

    /// Cuts the file back to what was synced.
    fn cut_back(&mut self) {
        self.standing = if self.file.set_len(self.synced).is_ok() && self.file.sync_all().is_ok() {
            Standing::CutBack
        } else {
            Standing::Unknown
        };
    }

    /// Counts what a write took, or cuts the file back where it failed.
    fn count(&mut self, taken: &io::Result<usize>, asked: usize) {
        match taken {
            Ok(0) if asked > 0 => self.cut_back(),
            Ok(count) => self.written = self.written.saturating_add(*count as u64),
            Err(error) if error.kind() == ErrorKind::Interrupted => {}
            Err(_) => self.cut_back(),
        }
    }
}

impl<'a, R: Files<File = File>> Write for LastingFile<'a, R> {
    fn write(&mut self, buf: &[u8]) -> io::Result<usize> {
        if self.written == self.synced {
            self.begin_block()?;
        }
        let taken = self.file.write(buf);
        self.count(&taken, buf.len());
        taken
    }

    fn flush(&mut self) -> io::Result<()> {
        self.file.flush()
    }
}

impl<'a, R: Files<File = File>> Durable for LastingFile<'a, R> {
    fn sync(&mut self) -> io::Result<()> {
        let synced = self.file.sync_data();
        match &synced {
            Ok(()) => self.synced = self.written,
            Err(_) => self.cut_back(),
        }
        synced
    }

    ghost steady = { λ f g none. refl };
}
