#![tactic(auto)]
//! The rows of the questions about lots in contact and apart, written once over whatever answers their tests and
//! whatever keeps the lots.
//!
//! The row of a question comes to pairs of lots that are to be judged, or to the refusal or the stop that its
//! definition has for it, and counts exactly the tests of that. Whoever asks judges the pairs, in threads or line after
//! line; what follows from the answers stands here too. Calls that answer `AllocError` do so only for want of memory.

mod access;
mod audit;
mod behind;
mod links;
mod pair;
mod touching;

pub use access::{access_left, access_told};
pub use audit::{AuditLeft, audit_left};
pub use links::AccessLeft;
pub use pair::Pair;
pub use touching::{TouchLeft, contact_ids, pending_contacts};
