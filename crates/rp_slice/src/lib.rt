#![tactic(auto)]
//! Laws of horizontal sections (cross-sections): what a ring and a flat certificate show of the members of a cell at a
//! height, that one of the two exists, and that the searches find it. Each function is a law over the definitions of
//! `rp_geometry`: its contract is the law, and its body is empty.

ghost use Rattle.rp_geometry.specs.laws.SectionLaws.{ClosureIsOnTheLeft, EndsAreTheCorners, FirstFlatIsFirst, FlatIsFound, MemberHasRing, MemberOrFlat, RingHoldsTheMembers, RingIsFound, RingIsKept, RingIsShort, RingIsTheOnlyOne, RingShowsMember, SliceIsFound, SlicesShowTheMembers, TraceIsSmall, TracesMeetWherePlanesDo};

/// States that at a height of the cube the trace of a half-space is within the bounds of traces.
pub fn trace_is_small()
    ensures { TraceIsSmall }
{}

/// States that a cell has at most one ring at a height.
pub fn ring_is_the_only_one()
    ensures { RingIsTheOnlyOne }
{}

/// States that a cell with a ring at a height has a member there.
pub fn ring_shows_member()
    ensures { RingShowsMember }
{}

/// States that if there is a ring, a point of the cube at the height is a member iff all edges hold it.
pub fn ring_holds_the_members()
    ensures { RingHoldsTheMembers }
{}

/// States that the ends of a ring are exactly the corners of the closure of the section.
pub fn ends_are_the_corners()
    ensures { EndsAreTheCorners }
{}

/// States that from each end of a ring to the next the closure lies on the left.
pub fn closure_is_on_the_left()
    ensures { ClosureIsOnTheLeft }
{}

/// States that at a height a cell has either a member or a flat certificate of at most three terms, never both.
pub fn member_or_flat()
    ensures { MemberOrFlat }
{}

/// States that the search for a flat certificate finds one iff the cell has no member at the height.
pub fn flat_is_found()
    ensures { FlatIsFound }
{}

/// States that the search finds the first flat certificate, and that only this one is first.
pub fn first_flat_is_first()
    ensures { FirstFlatIsFirst }
{}

/// States that a cell with a member at a height has a ring there.
pub fn member_has_ring()
    ensures { MemberHasRing }
{}

/// States that the search finds the ring, if the cell has a member at the height.
pub fn ring_is_found()
    ensures { RingIsFound }
{}

/// States that at each height of the cube a cell has exactly one slice, its ring or its first flat certificate, and
/// that the search finds it.
pub fn slice_is_found()
    ensures { SliceIsFound }
{}

/// States that two traces meet where their planes and the plane of the height meet.
pub fn traces_meet_where_planes_do()
    ensures { TracesMeetWherePlanesDo }
{}

/// States that the edges of a ring are within the bounds of traces, and that its ends are points as the program stores
/// them.
pub fn ring_is_kept()
    ensures { RingIsKept }
{}

/// States that a ring has at most four more steps than the cell has half-spaces.
pub fn ring_is_short()
    ensures { RingIsShort }
{}

/// States that slices that pass the test, each for its part, show exactly the members of the parts at the height.
pub fn slices_show_the_members()
    ensures { SlicesShowTheMembers }
{}
