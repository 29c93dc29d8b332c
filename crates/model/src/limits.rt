//! Limits.

/// Units of a tenant.
pub const MAX_UNITS: usize = 16;

/// Bytes of a tenant's name.
pub const MAX_NAME_BYTES: usize = 32;

/// Bytes of the text of a post, a send or an output.
pub const MAX_TEXT_BYTES: usize = 4096;

/// Sends and outputs of a turn together.
pub const MAX_TURN_EFFECTS: usize = 64;

/// Records that a unit's volatile log may hold: the greatest quota, and the default.
pub const MAX_VOLATILE_QUOTA: u32 = 1024;

/// Outputs of a unit that may be held: the greatest quota, and the default.
pub const MAX_HELD_QUOTA: u32 = 1024;

/// Letters that a tenant may make: the greatest quota, and the default.
pub const MAX_LETTERS_QUOTA: u32 = 1_000_000;

/// Units that a letter's past may be unstable in: the greatest degree of optimism, and the default.
pub const MAX_OPTIMISM: u32 = 16;

/// The greatest incarnation.
pub const MAX_INCARNATION: u32 = 65_535;

/// The greatest index, number and letter.
pub const MAX_INDEX: u32 = 4_294_967_295;

/// Checkpoints of a unit that are kept.
pub const MAX_CHECKPOINTS: usize = 64;

/// Bytes of a line, without its end.
pub const MAX_LINE_BYTES: usize = 65_536;

/// Feeds of the program.
pub const MAX_FEEDS: usize = 64;
