#![tactic(auto)]
//! The one spelling of a command: [`write_command`] appends it in a version, for every command.
//!
//! A call returns `AllocError` only if memory runs out.

mod spelling;

pub use spelling::write_command;
