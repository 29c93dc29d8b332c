//! Files that are written anew, whole or not at all.

use std::alloc::{AllocError, Global};
use std::fs::{File, Files, OpenOptions};
use std::io::Write;
use std::os::unix::fs::OpenOptionsExt;
use std::path::Path;
use std::{fs, io};

/// What is added to a file's name while it is written.
const NEW: &str = ".new";

/// The name of a file while it is written.
pub(crate) fn new_path(alloc: Global, path: &str) -> Result<String, AllocError> {
    format!(in alloc; "{path}{NEW}")
}

/// Makes a file of that name, with mode 0600.
pub(crate) fn make_new<R: Files<File = File>>(rt: &R, new: &str) -> io::Result<File> {
    // A name left by an earlier run, or put there by somebody else, is no file of ours: it goes, and isn't followed.
    let _ = fs::remove_file(rt, new);
    let mut options = OpenOptions::new();
    options.write(true).create_new(true).mode(0o600);
    options.open(rt, new)
}

/// Gives the file that was written the name that it is for. The folder isn't synced.
pub(crate) fn rename_new<R: Files<File = File>>(
    rt: &R,
    alloc: Global,
    path: &str,
) -> io::Result<()> {
    let new = new_path(alloc, path)?;
    fs::rename(rt, new.as_str(), path)
}

/// Writes a file anew, of these pieces, synced, whole or not at all. The folder isn't synced.
pub(crate) fn replace_file<R: Files<File = File>>(
    rt: &R,
    alloc: Global,
    path: &str,
    pieces: &[&[u8]],
) -> io::Result<()> {
    let new = new_path(alloc, path)?;
    let made = write_new(rt, new.as_str(), pieces);
    if made.is_err() {
        let _ = fs::remove_file(rt, new.as_str());
    }
    made?;
    rename_new(rt, alloc, path)
}

/// Writes a new file of these pieces, and syncs it.
fn write_new<R: Files<File = File>>(rt: &R, new: &str, pieces: &[&[u8]]) -> io::Result<()> {
    let mut file = make_new(rt, new)?;
    for piece in pieces {
        file.write_all(piece)?;
    }
    file.sync_all()
}

/// Syncs the folder that has the file.
pub(crate) fn sync_folder<R: Files<File = File>>(rt: &R, path: &str) -> io::Result<()> {
    let folder = match Path::new(path).parent() {
        Some(folder) => folder.as_str(),
        None => "",
    };
    let folder = if folder.is_empty() { "." } else { folder };
    File::open(rt, folder)?.sync_all()
}
