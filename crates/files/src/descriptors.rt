//! The descriptors of the standard streams.

use std::fs::{File, Files};
use std::os::fd::AsRawFd;
use std::{io, mem};

/// How many standard streams there are: their descriptors are the numbers below it.
const STREAMS: i32 = 3;

/// Takes each descriptor of a standard stream that was closed when the program began, so that no file that is opened
/// later gets its number: what is said, or answered, would be written into it. It then gives nothing to a read, and a
/// write to it fails, as if it were closed.
///
/// # Errors
///
/// That of the system, where neither the null device nor the root folder can be opened.
pub fn fill_descriptors<R: Files<File = File>>(rt: &R) -> io::Result<()> {
    for _ in 0..STREAMS {
        let file = open_nothing(rt)?;
        if file.as_raw_fd() >= STREAMS {
            return Ok(());
        }
        // It stays open until the program ends.
        mem::forget(file);
    }
    Ok(())
}

/// The null device, to be read alone: a write fails, so that no reply is lost unseen. Where there is none, as in a bare
/// root, a folder serves.
fn open_nothing<R: Files<File = File>>(rt: &R) -> io::Result<File> {
    match File::open(rt, "/dev/null") {
        Ok(file) => Ok(file),
        Err(_) => File::open(rt, "/"),
    }
}
