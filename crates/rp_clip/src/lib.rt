#![tactic(auto)]
//! The vertices of a weak system, each with the planes that pass through it, by the double description method (Motzkin,
//! Raiffa, Thompson and Thrall, The Double Description Method, 1953). The bodies are in the closed domain cube.
//! Half-spaces are added one after the other, and each updates the vertices.
//!
//! A [`Clip`] begins with the eight corners of the cube. A further half-space drops the vertices on its negative side.
//! If its plane crosses an edge between a vertex that stays and one that is dropped, a new vertex is added
//! (`cross.rt`). The clip has exactly the vertices, each once. A half-space is refused iff there would be more vertices
//! than there is room for, and then nothing changes.
//!
//! A vertex is identified by the set of planes through it, and not by its numbers: vertices with the same planes are
//! one point. Two vertices have an edge if their sets share two planes that meet. In the search over triples of planes,
//! the place of a vertex is that of the first three planes of its set that meet in it. So the first certificates are
//! read from the sets (`first.rt`). Vertices are not in lowest terms: no divisor is computed before a point is
//! returned. A clip has two tables, of which one is in use, so that no table is moved. It also has room for notes while
//! a half-space is added. It takes no memory.
//!
//! For the first certificates of a cell, the vertices on one plane after the other are enough ([`inside_on_polygons`],
//! [`weak_on_polygon`]). The vertices on one plane are a table with a weaker promise: vertices off the plane may be
//! missing (`polygon.rt`). A further half-space preserves the promise by the same steps. A point in which an edge is
//! crossed is on the plane iff both ends of the edge are. A half-space that is positive at all vertices is only
//! appended to the list.
//!
//! The order in which the half-spaces cut a polygon is a guess (`order.rt`): half-spaces that look much to the same
//! side as the plane come first, since they mostly bound the polygon. So the list of places is tested before it is
//! used, and the planes get their own places at the end. The first vertex off some planes is the best row of a table if
//! each vertex that is not a row comes after that row, by its first three planes. The polygon of a plane is such a
//! table as soon as no vertex on an earlier plane is wanted.

mod clip;
mod corners;
mod cross;
mod faces;
mod first;
mod inside;
mod meet;
mod order;
mod planes;
mod polygon;
mod search;
mod table;

pub use clip::Clip;
pub use search::{inside_on_polygons, weak_on_polygon};
