//! The last block of a journal, which a crash of the machine may have left unsynced.

use std::alloc::Global;
use std::fs::File;
use std::io;
use std::os::unix::fs::FileExt;
use terminal::BLOCK;

/// Where the last block begins, of a file of so many bytes.
fn begin_of(length: u64) -> u64 {
    length.saturating_sub(BLOCK as u64)
}

/// The last block of the file's first bytes, of which there are so many.
pub(crate) fn read_tail(alloc: Global, file: &File, length: u64) -> io::Result<Vec<u8>> {
    let begin = begin_of(length);
    let count = length.saturating_sub(begin).min(BLOCK as u64);
    let mut block = Vec::new(alloc);
    block.resize(count as usize, 0)?;
    file.read_exact_at(block.as_mut_slice(), begin)?;
    Ok(block)
}

/// How many bytes of the file can be trusted, which has so many: those before the first byte 0 of its last block. No
/// run writes such a byte, so there is a page that never reached the disk.
pub(crate) fn trusted_length(alloc: Global, file: &File, length: u64) -> io::Result<u64> {
    let block = read_tail(alloc, file, length)?;
    match block.iter().position(|byte| *byte == 0) {
        Some(at) => Ok(begin_of(length).saturating_add(at as u64)),
        None => Ok(length),
    }
}

/// Writes the last block over itself, and syncs the file: what is read of it may stand in memory alone, after a sync
/// that failed, and a sync of what was not written since may say yes to bytes that are lost.
pub(crate) fn make_last(alloc: Global, file: &File, length: u64) -> io::Result<()> {
    let block = read_tail(alloc, file, length)?;
    file.write_all_at(block.as_slice(), begin_of(length))?;
    file.sync_all()
}
