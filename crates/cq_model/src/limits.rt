//! How large numbers and texts can be.

/// A stored number is at most so far from zero: it has 64 bits with a sign.
pub const STORED_SIZE: u128 = 1 << 63;

/// A count is at most so large.
pub const COUNT_SIZE: u128 = 1 << 120;

/// The least size that is too wide for a number that is written or worked out.
pub const TOO_WIDE: u128 = 1 << 127;

/// A text that is stored or written has at most so many bytes.
pub const MAX_TEXT: usize = 4096;
