#![tactic(auto)]
//! The check of a report on its own: whether it is accepted, and otherwise which line is the first wrong one.
//!
//! [`check_report`] finds what the definition finds, line by line. The echoes are read in the version of the report's
//! mark. An accepted report is true, and every report of a script is accepted. Certificates are checked and never
//! searched for: the crate depends on no crate that searches for one.

mod answer;
mod halt;
mod lines;
mod report;
mod rows;

pub use report::{Found, check_report, check_report_in};
