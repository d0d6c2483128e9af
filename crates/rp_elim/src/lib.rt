#![tactic(auto)]
//! The first outside certificate: the first few multiples of half-spaces that show that a cell has no point.
//!
//! Farkas' lemma (1902) says that a list of weak half-spaces has either a solution or multiples that add up to a
//! contradiction, and never both. Motzkin's theorem of the alternative (1936) is the form of this law for strict
//! half-spaces. By Carathéodory's theorem (1911) four multiples are enough. Helly's theorem (1923) is its form for
//! points: if each four of the half-spaces have a common point, all have one. These laws are proved in `rp_convex`, by
//! adding one half-space after the other, and not by eliminating one unknown after the other.
//!
//! So the sets of one, two, three and four half-spaces of a cell and the cube are tried, in the order of their places
//! (`search.rt`). The result is the first certificate, and it passes its check. There is none iff the cell, or its weak
//! system, has a solution. The multipliers of a set are signed minors of the coefficients (`minors.rt`). They are below
//! 2^75 by their form, so each step is exact and within 128 bits. If the multipliers of a set are not determined up to
//! a factor, a smaller set has a certificate, so the set is never the first.
//!
//! Cheap tests come first:
//!
//! - Two: the signs of the coefficients. Two normals that do not oppose each other on each axis never cancel, so most
//!   pairs cost a few comparisons.
//! - Three: the determinant. If it is not 0, the three never cancel, so most sets cost three products of one word each.
//!   Most sets whose determinant is 0 have an axis on which no two coefficients oppose each other.
//! - Four: the signs of the minors, and then the sum of the offsets. Almost all sets that pass both tests refute.
//!
//! A search writes its result to a variable of the caller and returns whether there is one: a list of terms is large,
//! and most sets have none.
//!
//! If all half-spaces but one have a solution, that half-space is in every certificate, and only the sets that contain
//! it are tried: [`first_outside_through`], or [`first_outside_behind`] if the others are in two lists. Of the sets of
//! one size that share a half-space, the first is the set whose other half-spaces come first. So the first of these
//! sets is the first of all. The determinants of the shared half-space and two others are computed once, and their
//! signs are stored as sets of places (`sign_sets.rt`). Three are tried only if their determinant is 0. Four are tried
//! only if three signs fit: these are the places that two sets have in common.
//!
//! A certificate of at most two terms has a search of its own ([`first_outside_of_two`]): two boxes apart always have
//! one. If two cells have solutions, it has one term of each ([`first_outside_between`]). If a cell without its last
//! half-space has a solution, it has a term of the last half-space ([`first_outside_with_last`]).

mod couple;
mod cross;
mod last;
mod lowest;
mod minors;
mod placed;
mod refutation;
mod search;
mod sign_sets;
mod through;
mod triple;

pub use last::first_outside_with_last;
pub use lowest::lowest_terms;
pub use minors::{Axis, minors_of_two, minors_on_axes};
pub use refutation::{are_multipliers, are_negated_multipliers, negated};
pub use search::{first_outside, first_outside_between, first_outside_of_two};
pub use through::{first_outside_behind, first_outside_through};
