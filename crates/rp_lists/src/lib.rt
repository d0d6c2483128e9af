#![tactic(auto)]
//! Names, and lists.
//!
//! - Names are exactly the byte strings that the grammar calls names.
//! - A [`Listed`] appends an item at its end. If there was room, this does not fail; if it fails, the items are as they
//!   were. Reserved room stays.
//! - A [`Short`] list has room for a fixed number of items and takes no memory.
//! - Calls that return `AllocError` do so only for want of memory.

mod copied;
mod listed;
mod name;
mod short;

pub use copied::Copied;
pub use listed::{Listed, Names, Numbers};
pub use name::Name;
pub use short::Short;
