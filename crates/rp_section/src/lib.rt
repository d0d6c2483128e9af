#![tactic(auto)]
//! Horizontal sections (cross-sections) of a cell: a ring of edges and ends with the inside on its left (a linear
//! ring), or the first certificate that the section is empty.
//!
//! - The slice of a cell of at most 32 half-spaces at a height of the cube is the one that the definition says: its
//!   ring, or the first flat certificate iff the cell has no point there.
//! - A slice shows what `check_slice` of `rp_cert` says.
//! - The slices of a region are those of its parts, in order.
//! - Calls that return `AllocError` do so only for want of memory.

mod flat;
mod guess;
mod ring;
mod side;
mod slices;

pub use guess::quick_ring;
pub use slices::{Slices, section, slice};
