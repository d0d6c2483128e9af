#![tactic(auto)]
//! Decisions about cells, slim cells, and the least whole boxes around them. Each result contains the certificates that
//! show it.
//!
//! A cell of at most 64 half-spaces is always decided: by the first inside certificate if it has a point, otherwise by
//! the first outside certificate (Motzkin's theorem of the alternative). Its weak system is decided by the first weak
//! point, otherwise by the first outside certificate that is not strict (Farkas' lemma). There are several ways, and
//! all find the same result (`decide.rt`):
//!
//! - With at most 6 half-spaces, the vertices are searched in their order at once, and then the multiples.
//! - With 16 or more, the polygon of the first plane is made first, and then the next one as long as a point is needed
//!   (`rp_clip`). It costs about as much as the refutations by two half-spaces, which are not needed if the plane has a
//!   vertex.
//! - A weak point of a cell of 10 to 15 is searched first on a few lines of one plane (`rp_vertex`). Whether two parts
//!   touch is tested if their boxes do, and two boxes that touch have their first weak point there.
//! - With 7 to 15, and if the first plane has no vertex, the refutations by at most two half-spaces come next
//!   (`rp_elim`). They come first in the order, they are few, and most pairs of parts that are tested are boxes.
//! - If these leave the cell open, the vertices are searched in their order with fewer than 10. With more, a few lines
//!   of one plane are searched, where the first point often is. If a point is on none of them, all vertices are made:
//!   to search along all lines of a cell without a point may take longer.
//!
//! A cell for several decisions is stored with its vertices ([`Held`]), alone or with further half-spaces after its
//! own. Its decisions have the same results. There is room for 136 vertices: a body of 70 faces, 64 and the cube's six,
//! has no more by Euler's formula. That is not proved, and no result rests on it: a cell with more is decided without
//! stored vertices. The half-space that took the last point away is in all refutations if the others have a point
//! without it. So only the sets with it are tried (`refute.rt`). A function makes room for all its values when it is
//! called, and fills it with zeros. So each function that makes a stored cell, of 28 KB, does nothing else.
//!
//! A cell is slimmed as the definition says, and its members stay (`slimming.rt`). If the vertices on a half-space's
//! plane share no other plane, a point of the plane is strictly inside the others, and so is a point beyond it: the
//! half-space is needed, without a search. For each other half-space, the refutations through its complement are
//! searched, if the vertices show that the cell has a point; otherwise the cell with the complement is decided.
//!
//! The box of a slim cell is that of the vertices of the cell, since cells with the same members have the same least
//! box. Each side of it that is not given is shown by the first certificate through its complement (`bounds.rt`). Calls
//! that return `AllocError` do so only for want of memory.
//!
//! A cell that begins with the half-spaces of a stored cell begins as a copy of it (`beside.rt`). If it has no point,
//! and the half-space that took the last one is not the last of all, the cell of the others is stored in its place.
//! With one more half-space it is first refuted by this half-space alone or with one other, before anything is copied:
//! most pieces that are cut off a part are refuted so.

mod beside;
mod bounds;
mod decide;
mod held;
mod others;
mod refute;
mod slimming;

pub use bounds::{SideProofs, Sides, box_of, sides_of};
pub use decide::{
    Strict, Weak, decide_by_vertices, decide_strict, decide_weak, hold_weak, refute_between,
    refute_by_two, refute_strict, refute_weak, refute_weak_between, try_decide_strict, weak_soon,
};
pub use held::Held;
pub use slimming::{Cell, DroppedHalf, Drops, Slimmed, slim};
