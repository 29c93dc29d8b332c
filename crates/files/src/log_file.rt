//! The file of `run --log`.

ghost use Rattle.std.specs.Io.{WritesAtMost};
ghost use Rattle.std.specs.Io.KnownBytes.{Keeps, WriteAppends};

use crate::fitness::{Unfit, why_unfit};
use log::{Log, error, warn};
use std::fs::{File, Files, OpenOptions};
use std::io::Write;
use std::os::unix::fs::{OpenOptionsExt, PermissionsExt};
use std::{fs, io};
use written::is_interrupted;

/// Passes each call on to a writer, and tells of each that fails. A `WriterStore` writes nothing
/// after a failure, so that this is told once.
#[derive(Drop)]
pub struct LogFile<'a, L, W> {
    rt: &'a L,
    inner: W,
}

impl<'a, L, W> LogFile<'a, L, W> {
    pub fn new(rt: &'a L, inner: W) -> LogFile<'a, L, W> {
        LogFile { rt, inner }
    }
}

/// Says that the log is not written any more.
fn tell<L: Log>(rt: &L) {
    error!(rt; "the log can't be written any more: a flush is answered `store`, and the run goes on");
}

impl<'a, L: Log, W: Write> Write for LogFile<'a, L, W> {
    fn write(&mut self, buf: &[u8]) -> io::Result<usize> {
        let written = self.inner.write(buf);
        match &written {
            Ok(0) => tell(self.rt),
            Ok(_) => {}
            Err(e) => {
                if !is_interrupted(e) {
                    tell(self.rt);
                }
            }
        }
        written
    }

    fn flush(&mut self) -> io::Result<()> {
        let flushed = self.inner.flush();
        if let Err(e) = &flushed {
            if !is_interrupted(e) {
                tell(self.rt);
            }
        }
        flushed
    }
}

/// Makes the log's file anew, for its owner alone: it has every text. A device or a pipe is taken as it is; whoever
/// reads a pipe is waited for, which is told. None where it can't be made, which is told.
pub fn make_log<R: Files<File = File>, L: Log>(rt: &R, told: &L, path: &str) -> Option<File> {
    let kind = match fs::metadata(rt, path) {
        Ok(found) => why_unfit(rt, &found),
        Err(_) => None,
    };
    match kind {
        Some(Unfit::Pipe) => tell_pipe(told, path),
        None | Some(Unfit::Device) => {}
        Some(why) => {
            tell_unfit(told, path, why);
            return None;
        }
    }
    match make(rt, path, kind.is_none()) {
        Ok(file) => Some(file),
        Err(error) => {
            tell_unmade(told, path, &error);
            None
        }
    }
}

/// Warns that a run waits for the reader of its log.
fn tell_pipe<L: Log>(told: &L, path: &str) {
    warn!(told; "the log {path:?} is a pipe: waiting for whoever reads it");
}

/// Says why the file can't be the log.
fn tell_unfit<L: Log>(told: &L, path: &str, why: Unfit) {
    error!(told; "{path:?} can't be the log: {why}");
}

/// Says why the log can't be made.
fn tell_unmade<L: Log>(told: &L, path: &str, error: &io::Error) {
    error!(told; "can't make the log {path:?}: {error}");
}

/// Makes the file empty; where it is to be its owner's, it is so before it has a byte.
fn make<R: Files<File = File>>(rt: &R, path: &str, is_own: bool) -> io::Result<File> {
    let mut options = OpenOptions::new();
    options.write(true).create(true).truncate(true).mode(0o600);
    let file = options.open(rt, path)?;
    if is_own {
        let mut permissions = file.metadata()?.permissions();
        permissions.set_mode(0o600);
        file.set_permissions(permissions)?;
    }
    Ok(file)
}
