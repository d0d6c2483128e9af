#![tactic(auto)]
//! Prisms: polygons with whole corners, raised between two heights (extruded). Their inside is that of the even-odd
//! rule. The polygon may cross or touch itself.
//!
//! [`trapezoid`] returns the cell under one edge, as the definition has it; `None` iff both ends have equal x.
//! [`prism_holds`] returns whether a point is a member of a prism: it is in the cube, between the heights, and an odd
//! number of edges are above it. It counts the trapezoids that contain the point, which is proved to be equivalent.

mod line;
mod prism;

pub use prism::{prism_holds, trapezoid};
