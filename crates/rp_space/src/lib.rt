#![tactic(auto)]
//! Half-spaces and points (in homogeneous coordinates) with exact whole numbers. By the sign rule (Thompson, 2007) each
//! point belongs to exactly one of a half-space and its complement.
//!
//! - Four numbers make a half-space in lowest terms. They are refused if one exceeds its bound as given, otherwise if
//!   all are zero.
//! - Four numbers make a point. They are refused if the weight is below 1, otherwise if one exceeds its bound.
//! - `holds` is the sign rule, `side` its value, and `not` the complement. No product needs more than 128 bits.
//! - The half-spaces of a box and of the cube, the points that a box contains, whether two boxes meet, and the least
//!   box around two are those of the definitions. A box contains a point iff its six half-spaces do.
//! - Three planes meet in the point of Cramer's rule, or not in exactly one point.
//! - A set of places in a list is a number whose bits are the places.

mod bounds;
mod corner;
mod divisor;
mod half;
mod meeting;
mod multiples;
mod outside;
mod places;
mod point;
mod system;

pub use bounds::{HALF_EDGE, IntBox, box_halves, cube};
pub use corner::{Corner, Corners};
pub use divisor::{greatest_common_divisor, quotient};
pub use half::{Half, HalfFault, Halves};
pub use meeting::{Meeting, Pair, meet, meeting_of};
pub use multiples::{is_balanced, is_contradiction, is_multiplier};
pub use outside::{Outside, Term};
pub use places::{has_two, lowest_from};
pub use point::{Inside, Point, PointFault};
pub use system::{System, joined, keep_bounds, with_cube};
