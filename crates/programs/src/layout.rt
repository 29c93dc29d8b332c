//! Where things lie in the memory of a unit, and how much a turn may take.

/// The first word of an image: the bytes `RV1` and the number of the calling convention, 1.
pub(crate) const HEADER: u32 = 0x0131_5652;

/// The address at which each turn begins: that behind the header.
pub(crate) const ENTRY: u32 = 4;

/// Where the text of a turn is put. The stack ends below it, and the image must end there at the latest.
pub(crate) const TEXT_AT: u32 = 0x3_f000;

/// The address whose instruction ends a turn: there is no memory at it.
pub(crate) const RETURN_AT: u32 = 0xffff_fff0;

/// Bytes of a text.
pub(crate) const TEXT_BYTES: u32 = 4096;

/// Instructions of a turn.
pub(crate) const BUDGET: u32 = 1_000_000;

/// Texts that a turn sends and puts out.
pub(crate) const TURN_TEXTS: usize = 64;
