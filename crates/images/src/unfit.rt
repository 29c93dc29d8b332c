//! Why a file has no image.

use std::alloc::{AllocError, AllocFailed};
use thiserror::Error;

/// Why a file has no image.
#[derive(Clone, Copy, Debug, PartialEq, Eq, Error)]
pub enum Unfit {
    /// It is neither an ELF file nor begins with the header of an image.
    #[error("it is neither an ELF file nor an image, which begins with the bytes RV1 and 1")]
    Unknown,
    /// What an ELF file lays out doesn't begin with the header of an image.
    #[error("address 0 doesn't have the header of an image, the bytes RV1 and 1: link it with the SDK's recall.ld")]
    NoHeader,
    /// The image is larger than a unit takes.
    #[error("it has more than 258048 bytes, which is what a unit takes")]
    TooLarge,
    /// The ELF file is for another machine.
    #[error("it is an ELF file, but not an executable for RISC-V of 32 bits, little-endian")]
    OtherMachine,
    /// The program of an ELF file begins elsewhere.
    #[error("its entry is not at address 4, where each turn begins: link it with the SDK's recall.ld")]
    OtherEntry,
    /// The ELF file ends within what it says that it has.
    #[error("it is an ELF file that is cut short")]
    CutShort,
    /// A segment of the ELF file lies where no image is.
    #[error("it has a segment outside the addresses 0 to 258047")]
    OutOfRange,
    /// There is no memory for it.
    #[error("there is no memory for it")]
    NoMemory,
}

impl From<AllocError> for Unfit {
    fn from(_error: AllocError) -> Unfit {
        Unfit::NoMemory
    }
}

impl From<AllocFailed<u8>> for Unfit {
    fn from(_error: AllocFailed<u8>) -> Unfit {
        Unfit::NoMemory
    }
}
