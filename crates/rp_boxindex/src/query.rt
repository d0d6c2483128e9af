//! Which boxes are looked for.
ghost use Rattle.std.specs.Prelude.{◌≡◌, ◌<◌, get_or, pos};
ghost use Rattle.rp_space.specs.Boxes.{integer_box};
ghost use Rattle.rp_boxindex.specs.Bound.{meets_on_x};
ghost use Rattle.rp_boxindex.specs.Meeting.{is_below, do_meet, do_spans_meet};

use crate::place::Entry;
use rp_space::IntBox;

/// The boxes that meet a box, as closed boxes or as half-open ones.
#[derive(Clone, Copy)]
pub(crate) struct Query {
    pub(crate) bounds: IntBox,
    pub(crate) closed: bool,
}

impl Query {
    /// Returns whether a box that ends there on the x axis ends after the one asked about begins.
    pub(crate) fn is_reached_from(&self, high: i32) -> bool
        ensures { result ≡ is_below self.now.closed (integer_box self.now.bounds).x1 high }
    {
        is_below(self.closed, self.bounds.lo[0], high)
    }

    /// Returns whether a box that begins there on the x axis begins before the one asked about ends.
    pub(crate) fn reaches(&self, low: i32) -> bool
        ensures { result ≡ is_below self.now.closed low (integer_box self.now.bounds).x2 }
    {
        is_below(self.closed, low, self.bounds.hi[0])
    }

    /// Returns whether the box of an entry meets the one asked about on the x axis.
    pub(crate) fn is_met_on_x(&self, entry: &Entry) -> bool
        ensures { result ≡ meets_on_x self.now.closed (integer_box self.now.bounds) entry.now }
    {
        self.is_met_on(&entry.1, 0)
    }

    /// Returns whether a box meets the one asked about.
    pub(crate) fn is_met_by(&self, other: &IntBox) -> bool
        ensures { result ≡ do_meet self.now.closed (integer_box self.now.bounds) (integer_box other.now) }
    {
        self.is_met_on(other, 0) && self.is_met_on(other, 1) && self.is_met_on(other, 2)
    }

    /// Returns whether a box meets the one asked about on an axis.
    fn is_met_on(&self, other: &IntBox, axis: usize) -> bool
        requires { axis < 3 }
        ensures { result ≡ do_spans_meet self.now.closed (get_or self.now.bounds.lo axis (pos 0)) (get_or self.now.bounds.hi axis (pos 0)) (get_or other.now.lo axis (pos 0)) (get_or other.now.hi axis (pos 0)) }
    {
        is_below(self.closed, self.bounds.lo[axis], other.hi[axis])
            && is_below(self.closed, other.lo[axis], self.bounds.hi[axis])
    }
}

/// Returns whether a bound lies before another; those of closed boxes may be equal.
fn is_below(closed: bool, a: i32, b: i32) -> bool
    ensures { result ≡ is_below closed a b }
{
    if closed { a <= b } else { a < b }
}
