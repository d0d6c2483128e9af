//! The lines that mark scripts and reports of version 2, each with its line feed.

/// The line that begins a script of version 2.
pub const SCRIPT_MARK: &[u8] = b"rp 2\n";

/// The line that begins the report of a script of version 2. It is no answer.
pub const REPORT_MARK: &[u8] = b"> 0 rp 2\n";
