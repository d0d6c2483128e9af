//! The ids that a search of an index returns. Each function is a law over the definitions: its contract is the law, and
//! its body is empty.
ghost use Rattle.rp_boxindex.specs.Laws.{MeetingIdsAreExact, MeetingIdsRise};

/// States that a search returns an id iff the id has a box that meets the box of the search.
pub fn meeting_ids_are_exact()
    ensures { MeetingIdsAreExact }
{}

/// States that the returned ids strictly rise, so no id comes twice.
pub fn meeting_ids_rise()
    ensures { MeetingIdsRise }
{}
