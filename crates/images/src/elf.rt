//! ELF files for RISC-V of 32 bits, little-endian (System V ABI, chapters 4 and 5).

use crate::image::MAX_BYTES;
use crate::unfit::Unfit;
use std::alloc::Global;

/// The first bytes of an ELF file.
pub(crate) const MAGIC: &[u8] = b"\x7fELF";

/// Where each turn begins.
const ENTRY: u64 = 4;

/// The type of a file that can be executed.
const EXECUTABLE: u64 = 2;

/// The machine RISC-V.
const RISC_V: u64 = 243;

/// The type of a segment that is loaded.
const LOADED: u64 = 1;

/// A number of so many bytes at a place, little-endian.
fn number_at(file: &[u8], place: u64, bytes: u64) -> Result<u64, Unfit> {
    let mut number = 0;
    for back in 0..bytes {
        let at = place.saturating_add(bytes - 1 - back);
        match file.get(at as usize) {
            Some(byte) => number = number % 0x100_0000 * 0x100 + u64::from(*byte),
            None => return Err(Unfit::CutShort),
        }
    }
    Ok(number)
}

/// A number of two bytes.
fn half_at(file: &[u8], place: u64) -> Result<u64, Unfit> {
    number_at(file, place, 2)
}

/// A number of four bytes.
fn word_at(file: &[u8], place: u64) -> Result<u64, Unfit> {
    number_at(file, place, 4)
}

/// A segment of a file: its bytes there, and where they lie in memory.
#[derive(Clone, Copy)]
struct Segment {
    offset: u64,
    address: u64,
    /// Bytes in the file.
    filled: u64,
    /// Bytes in memory, those behind the file's zeros.
    size: u64,
}

impl Segment {
    /// The segment whose header stands at this place, if it is loaded.
    fn at(file: &[u8], place: u64) -> Result<Option<Segment>, Unfit> {
        if word_at(file, place)? != LOADED {
            return Ok(None);
        }
        Ok(Some(Segment {
            offset: word_at(file, place.saturating_add(4))?,
            address: word_at(file, place.saturating_add(8))?,
            filled: word_at(file, place.saturating_add(16))?,
            size: word_at(file, place.saturating_add(20))?,
        }))
    }

    /// Puts its bytes into the image, which grows to its end.
    fn put(&self, file: &[u8], image: &mut Vec<u8>) -> Result<(), Unfit> {
        let end = self.address.saturating_add(self.filled.max(self.size));
        if end > MAX_BYTES as u64 {
            return Err(Unfit::OutOfRange);
        }
        if self.filled > 0 {
            grow(image, self.address.saturating_add(self.filled) as usize)?;
        }
        for place in 0..self.filled {
            let from = self.offset.saturating_add(place) as usize;
            let to = self.address.saturating_add(place) as usize;
            match (file.get(from), image.get_mut(to)) {
                (Some(byte), Some(slot)) => *slot = *byte,
                (None, _) => return Err(Unfit::CutShort),
                (_, None) => return Err(Unfit::OutOfRange),
            }
        }
        Ok(())
    }
}

/// Adds zeros, up to so many bytes.
fn grow(image: &mut Vec<u8>, count: usize) -> Result<(), Unfit> {
    for _ in 0..count.saturating_sub(image.len()) {
        image.push(0)?;
    }
    Ok(())
}

/// Whether the file is an executable for the machine, whose program begins where a turn does.
fn test_header(file: &[u8]) -> Result<(), Unfit> {
    let is_32_little = number_at(file, 4, 1)? == 1 && number_at(file, 5, 1)? == 1;
    if !is_32_little || half_at(file, 16)? != EXECUTABLE || half_at(file, 18)? != RISC_V {
        return Err(Unfit::OtherMachine);
    }
    if word_at(file, 24)? != ENTRY {
        return Err(Unfit::OtherEntry);
    }
    Ok(())
}

/// The bytes that the loaded segments of an ELF file lay out from address 0 on.
pub(crate) fn lay_out(alloc: Global, file: &[u8]) -> Result<Vec<u8>, Unfit> {
    test_header(file)?;
    let mut image = Vec::new(alloc);
    put_segments(file, &mut image)?;
    Ok(image)
}

/// Puts all loaded segments into the image.
fn put_segments(file: &[u8], image: &mut Vec<u8>) -> Result<(), Unfit> {
    let first = word_at(file, 28)?;
    let size = half_at(file, 42)?;
    for number in 0..half_at(file, 44)? {
        let place = first.saturating_add(size.saturating_mul(number));
        match Segment::at(file, place)? {
            Some(segment) => segment.put(file, image)?,
            None => {}
        }
    }
    Ok(())
}
