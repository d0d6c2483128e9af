//! The two ways in which parts meet, and their tests.
ghost use Rattle.std.specs.Prelude.{◌≡◌, ◌++◌, IfErr};
ghost use Rattle.rp_oracle.specs.Refines.{Refines};
ghost use Rattle.rp_trail.specs.Stops.{IsOfLine};
ghost use Rattle.rp_trail.specs.Pairs.{may_meet_by, test_by};

use crate::kept::Kept;
use crate::trail::Trail;
use rp_oracle::Stopped;

/// The way in which two parts meet.
#[derive(Clone, Copy)]
pub(crate) enum Meeting {
    /// They have a common member: a strict test of both together finds a point.
    Common,
    /// They are in contact: a weak test of both together finds a point.
    Touch,
}

impl Meeting {
    /// Returns whether the boxes of two parts let the parts meet.
    pub(crate) fn may_be(self, first: &Kept, second: &Kept) -> bool
        ensures { result ≡ may_meet_by self first.now second.now }
    {
        match self {
            Meeting::Common => first.bounds.meets(&second.bounds),
            Meeting::Touch => first.bounds.meets_closed(&second.bounds),
        }
    }

    /// Takes the test of two parts together, from the next line.
    pub(crate) fn test(
        self,
        first: &Kept,
        second: &Kept,
        trail: &mut Trail<'_>,
    ) -> Result<bool, Stopped>
        ensures comes { Refines (λ found. found) result trail.new (test_by self (first.now.cell ++ second.now.cell) trail.old) }
        ensures line { IfErr result IsOfLine }
    {
        match self {
            Meeting::Common => trail.strict(first.cell(), second.cell()),
            Meeting::Touch => trail.weak(first.cell(), second.cell()),
        }
    }
}
