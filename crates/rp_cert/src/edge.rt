//! The edges and ends of rings.
ghost use Rattle.std.specs.Prelude.{◌≡◌, [], ◌∷◌, ◌++◌, length, ◌<◌, ◌≤◌};

use arrayvec::ArrayVec;
use rp_space::Point;
use std::marker::Model;

/// The trace of a half-space on a horizontal plane: the points with `a x + b y + d > 0`, with part of the line on which
/// the sum is 0.
#[derive(Clone, Copy, PartialEq, Eq, Default)]
pub struct Edge {
    /// The factor of x.
    pub a: i32,
    /// The factor of y.
    pub b: i32,
    /// The offset.
    pub d: i64,
}

impl Model for Edge {
    ghost use Rattle.rp_geometry.specs.sections.Trace.{Trace, trace_of};

    ghost Value = { Trace };

    ghost view = { λ e. trace_of e.a e.b e.d };

    ghost inverse = { λ t. record { a = t.a; b = t.b; d = t.d } };
}

/// A step along a ring: an edge, and the point at which the edge ends.
#[derive(Clone, Copy, PartialEq, Eq, Default)]
pub struct RingStep {
    /// The edge.
    pub edge: Edge,
    /// The end of the edge.
    pub end: Point,
}

impl Model for RingStep {
    ghost use Rattle.rp_geometry.specs.sections.Ring.{RingStep};

    ghost Value = { RingStep };

    ghost view = { λ s. record { edge = s.edge; end = s.end } };

    ghost inverse = { λ s. record { edge = s.edge; end = s.end } };
}

/// A list of at most 36 steps of a ring, which takes no memory: room for the half-spaces of a cell and the cube's four
/// vertical sides.
#[derive(Drop)]
pub struct RingSteps {
    steps: ArrayVec<RingStep, 36>,
}

impl Model for RingSteps {
    ghost use Rattle.std.specs.Prelude.{List};
    ghost use Rattle.rp_geometry.specs.sections.Ring.{RingStep};

    ghost Value = { List RingStep };

    ghost view = { λ a. a.steps.items };
}

impl RingSteps {
    /// Returns the empty list.
    pub fn new() -> RingSteps
        ensures { result ≡ [] }
    {
        RingSteps {
            steps: ArrayVec::new(),
        }
    }

    /// Appends a step. The list has fewer than 36.
    pub fn push(&mut self, x: RingStep)
        requires { length self.old < 36 }
        ensures { self.new ≡ self.old ++ x ∷ [] }
    {
        self.steps.push(x);
    }

    /// Returns the steps in order, at most 36.
    pub fn items(&self) -> &[RingStep]
        ensures value { result.now ≡ self.now }
        ensures fits { length result.now ≤ 36 }
    {
        self.steps.as_slice()
    }

    /// Returns a copy, with equal steps in the same order.
    pub fn copy(&self) -> RingSteps
        ensures { result ≡ self.now }
    {
        let items = self.items();
        let mut copy = RingSteps::new();
        for step in items {
            copy.push(*step);
        }
        copy
    }
}
