//! Whether a file may be written to.

use crate::place::Place;
use std::fmt::{Display, Formatter};
use std::fs::{Files, Metadata};
use std::os::unix::fs::{FileTypeExt, MetadataExt};
use std::{fmt, fs};

/// The bits of a mode that let the group or others write.
const OTHERS_WRITE: u32 = 0o022;

/// The standard streams, by the names that the system has for them.
const INPUT: &str = "/dev/stdin";

const OUTPUTS: [&str; 2] = ["/dev/stdout", "/dev/stderr"];

/// Why a file must not be written to.
#[derive(Clone, Copy, Debug, PartialEq, Eq)]
pub enum Unfit {
    Folder,
    Device,
    Pipe,
    Socket,
    /// It is what the run reads.
    Input,
    /// It is what the run writes its replies or its messages to.
    Output,
    /// Another user owns it.
    Owner,
    /// Its mode lets others write to it.
    Mode,
}

impl Unfit {
    /// What is told of it.
    pub(crate) fn as_str(&self) -> &'static str {
        match self {
            Unfit::Folder => "it is a folder",
            Unfit::Device => "it is a device",
            Unfit::Pipe => "it is a pipe",
            Unfit::Socket => "it is a socket",
            Unfit::Input => "it is the input of this run",
            Unfit::Output => "it is the output of this run, or its standard error",
            Unfit::Owner => "another user owns it",
            Unfit::Mode => "its mode lets others write to it: take that away with chmod go-w",
        }
    }
}

impl Display for Unfit {
    fn fmt<W: fmt::Write>(&self, out: &mut Formatter<W>) -> fmt::Result {
        out.write_str(self.as_str())
    }
}

/// Why a file that was asked must not be written to, if so. What the system doesn't tell, as where `/proc` isn't
/// mounted, is taken to be well.
pub fn why_unfit<R: Files>(rt: &R, found: &Metadata) -> Option<Unfit> {
    if let Some(kind) = unfit_kind(found) {
        return Some(kind);
    }
    if is_place_of(rt, found, INPUT) {
        return Some(Unfit::Input);
    }
    if OUTPUTS.iter().any(|stream| is_place_of(rt, found, stream)) {
        return Some(Unfit::Output);
    }
    if own_user(rt).is_some_and(|user| user != found.uid()) {
        return Some(Unfit::Owner);
    }
    if found.mode() & OTHERS_WRITE != 0 {
        return Some(Unfit::Mode);
    }
    None
}

/// What it is, where it is no file of bytes.
pub(crate) fn unfit_kind(found: &Metadata) -> Option<Unfit> {
    let kind = found.file_type();
    if kind.is_dir() {
        Some(Unfit::Folder)
    } else if kind.is_fifo() {
        Some(Unfit::Pipe)
    } else if kind.is_socket() {
        Some(Unfit::Socket)
    } else if kind.is_file() {
        None
    } else {
        Some(Unfit::Device)
    }
}

/// Whether the stream of this name reads or writes the file.
fn is_place_of<R: Files>(rt: &R, found: &Metadata, stream: &str) -> bool {
    match fs::metadata(rt, stream) {
        Ok(other) => Place::of(&other) == Place::of(found),
        Err(_) => false,
    }
}

/// The user that this process acts for, where the system tells.
fn own_user<R: Files>(rt: &R) -> Option<u32> {
    match fs::metadata(rt, "/proc/self") {
        Ok(own) => Some(own.uid()),
        Err(_) => None,
    }
}
