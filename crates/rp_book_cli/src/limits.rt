//! Limits that a book may meet.

/// The most bytes of a script.
pub const MOST_SCRIPT_BYTES: usize = 16_777_216;

/// The most bytes of a report that `rpstore check` reads.
pub const MOST_REPORT_BYTES: usize = 67_108_864;

/// The most names of a script.
pub const MOST_NAMES: usize = 65_536;
