//! The image of a program.

use crate::elf::{MAGIC, lay_out};
use crate::unfit::Unfit;
use std::alloc::Global;

/// Bytes of an image, at most.
pub(crate) const MAX_BYTES: usize = 258_048;

/// The first bytes of an image: its mark, and the number of the calling convention.
const HEADER: &[u8] = b"RV1\x01";

/// The bytes of a program as they lie in memory from address 0 on.
#[derive(Drop)]
pub struct Image {
    bytes: Vec<u8>,
}

impl Image {
    /// The image in a file, which is that of an ELF file, or the file itself.
    pub fn of(alloc: Global, file: Vec<u8>) -> Result<Image, Unfit> {
        let is_elf = file.as_slice().starts_with(MAGIC);
        let bytes = if is_elf {
            lay_out(alloc, file.as_slice())?
        } else {
            file
        };
        if !bytes.as_slice().starts_with(HEADER) {
            return Err(if is_elf {
                Unfit::NoHeader
            } else {
                Unfit::Unknown
            });
        }
        if bytes.len() > MAX_BYTES {
            return Err(Unfit::TooLarge);
        }
        Ok(Image { bytes })
    }

    pub fn as_slice(&self) -> &[u8] {
        self.bytes.as_slice()
    }
}
