#![tactic(auto)]
//! Tests, parts and lists of parts that are followed on the proof lines of a report, which anyone may have written.
//! Each certificate is checked, and nothing is searched for.
//!
//! The lines taken, and the first line at which a walk stops, are those of the definition's reader. The answer of a
//! test that passes is yes iff the cell has a point, or its weak system has. Joins, differences and prisms have exactly
//! the members. A pair that shares a point, or touches, is found iff there is one. All this holds for parts whose boxes
//! contain their members, as lines show them; such a box need not be the least. Lines that show slices are taken, one
//! for each part, as long as each passes for its part. A call returns `AllocError` only if memory runs out.

mod answers;
mod difference;
mod drops;
mod few;
mod form;
mod join;
mod kept;
mod lines;
mod meeting;
mod member;
mod pairs;
mod part;
mod prism;
mod shown;
mod sides;
mod trail;

pub use form::{Form, common, copy, differed, joined, touching};
pub use kept::Kept;
pub use member::holds;
pub use part::made;
pub use prism::prismed;
pub use shown::{Slices, slices};
pub use trail::Trail;
