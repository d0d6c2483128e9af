#![tactic(auto)]
//! The first certificates of cells that are made of points. The meeting points of three planes are searched in the
//! order of the planes in the list of the cell: the cell's half-spaces and then the domain cube's six.
//!
//! A weak system in the cube that has a point has a vertex. A cell that has a point has at most four vertices whose
//! average is strictly inside (Carathéodory, 1911). The laws are those of `rp_convex`. So the first vertex is the first
//! weak point. The first inside certificate begins with that vertex; as long as a half-space is 0 at all of its points,
//! the first vertex at which such a half-space is positive is appended (it "lifts" the half-space). Each is found iff
//! the weak system, or the cell, has a point, and passes its check. A meeting point is tested against the list before
//! it is reduced to lowest terms: almost all fail, the sign of a side value does not change, and the greatest common
//! divisor costs more than the test.
//!
//! In a cell of many half-spaces the line of two planes is first clipped by the half-spaces of the list (Cyrus and
//! Beck, 1978): to a part between two ends, or to nothing. A third plane is tried only if the two ends are not on the
//! same side of it (`line.rt`). The clipped line is a filter alone: each point that it lets through meets all other
//! tests. So one fact about the ends is enough: a half-space that is not negative at both is not negative at the points
//! between them. It does not matter in which order half-spaces clip a line, or whether all do. The half-space that left
//! nothing of a line clips the next line first (`order.rt`): the same few half-spaces often empty several lines in a
//! row. With 12 half-spaces the search along lines takes a third less time for some kinds of cells and a fourth more
//! for others. So in a cell of fewer than 16 all third planes are tried. A search for a vertex that lifts some
//! half-spaces tries no line on the planes of all of these. Only [`first_inside_over_triples`], with which `bench/run`
//! compares, tries everything.
//!
//! A plane on which a half-space with equal or opposite coefficients is negative has no vertex (`parallel.rt`). So most
//! planes of two boxes side by side are left out before any line on them is tried.
//!
//! [`inside_on_few_lines`] and [`weak_on_few_lines`] look for the first vertex on a few lines of the first plane that
//! is not left out, where it often is. What they find is the first vertex of all. The boxes around all vertices, and
//! around given points, are computed in one pass (`bounds.rt`).

mod bounds;
mod certificate;
mod flat;
mod line;
mod order;
mod parallel;
mod search;

pub use bounds::{box_of_points, box_of_vertices};
pub use certificate::{
    first_inside, first_inside_over_triples, first_weak, inside_on_few_lines, weak_on_few_lines,
};
