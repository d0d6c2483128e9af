//! The limits of every walk, and of what is stored.

/// The most tests that a command may count.
pub const MAX_TESTS: u32 = 65_536;

/// The most parts of a form.
pub const MAX_PARTS: usize = 1_024;

/// The most half-spaces of a part.
pub const MAX_HALVES: usize = 32;

/// The most parts under all names together, and under all lots together.
pub const MAX_KEPT_PARTS: usize = 65_536;
