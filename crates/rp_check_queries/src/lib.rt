#![tactic(auto)]
//! The questions about lots in contact and apart, followed on the next lines of a report, over whatever keeps the lots.
//!
//! The pairs of lots that are left to judge ([`rp_contacts`]) are judged one after the other, each on the lines that
//! are due. Calls that answer `AllocError` do so only for want of memory.

mod contacts;
mod turn;

pub use contacts::{access, audit, neighbours};
