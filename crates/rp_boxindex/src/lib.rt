#![tactic(auto)]
//! Boxes under their ids, in two search trees that find the boxes which meet a box without visiting every box.
//!
//! An [`Index`] is a finite map: a box is refused iff its id is there. A search returns the ids of exactly the boxes
//! that meet a box, half-open or closed, in rising order; or, without memory, the least of them that passes a test.
//! With n boxes, of which k meet the box on the x axis, at most (k + 1)(2h + 2) nodes are visited, h the greatest
//! number with 2^h at most (n + 1)^2. A call returns `AllocError` only if memory runs out.

mod cells;
mod choice;
mod fault;
mod index;
mod laws;
mod lows;
mod middle;
mod place;
mod query;
mod search;
mod steps;
mod take;
mod tree;
mod walk;
mod watch;

pub use choice::Choice;
pub use fault::IndexFault;
pub use index::Index;
pub use laws::{meeting_ids_are_exact, meeting_ids_rise};
pub use steps::Steps;
pub use watch::{Quiet, VisitCount, Watch};
