//! The statuses with which the tool ends.

/// The input was read to its end, the whole output was written, and nothing was refused.
pub const DONE: u8 = 0;

/// The input was read to its end, the whole output was written, and something was refused.
pub const REFUSED: u8 = 1;

/// The words are none of the listed ones. Nothing was read or written.
pub const UNLISTED: u8 = 2;

/// A read failed. Nothing was written.
pub const READ_FAILED: u8 = 3;

/// A put failed. Nothing was written, or a front of the output.
pub const PUT_FAILED: u8 = 4;

/// Memory ran out. Nothing was written, or a front of the output.
pub const OUT_OF_MEMORY: u8 = 5;

/// The source gave a byte past the limit: 16,777,216 for a script, 67,108,864 for a report that is checked. Nothing was
/// written.
pub const TOO_LONG: u8 = 6;
