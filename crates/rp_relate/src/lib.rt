#![tactic(auto)]
//! Relations of two regions of space: overlap, inclusion, equality, contact, and the eight relations of the region
//! connection calculus (Randell, Cui and Cohn, 1992); and the pieces of one region.
//!
//! Each result is true of the sets of points, and is found by exactly the tests of its definition. [`rcc`] refuses a
//! region without a point, the first one first, before any test. [`pieces`] returns lists of part numbers, each rising,
//! in the order of their first numbers. Each list is in one piece, no two are in contact, and together they have all
//! parts.

mod cover;
mod linked;
mod meeting;
mod relation;

pub use cover::{equal, is_empty, within};
pub use linked::pieces;
pub use meeting::{contact, overlap};
pub use relation::{RccFault, rcc};
pub use rp_eval::Rcc8;
pub use rp_unionfind::PieceList;
