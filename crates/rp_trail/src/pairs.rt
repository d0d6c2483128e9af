//! The first pair of parts of two lists that meet, test by test.
ghost use Rattle.std.specs.Prelude.{IfErr};
ghost use Rattle.rp_semantics.specs.Form.{test_pair_if, first_with_part, first_pair};
ghost use Rattle.rp_oracle.specs.Refines.{Refines};
ghost use Rattle.rp_trail.specs.Stops.{IsOfLine};
ghost use Rattle.rp_trail.specs.Pairs.{may_meet_by, test_by, chosen_pair};

use crate::kept::Kept;
use crate::meeting::Meeting;
use crate::trail::Trail;
use rp_oracle::Stopped;

/// Returns whether a part of `parts` and one of `others` meet, testing pairs up to the first that does. If `near`, only
/// pairs are tested whose boxes let them meet.
pub(crate) fn first_pair(
    meeting: Meeting,
    parts: &[Kept],
    others: &[Kept],
    near: bool,
    trail: &mut Trail<'_>,
) -> Result<bool, Stopped>
    ensures comes { Refines (λ found. found) result trail.new (first_pair (chosen_pair near (may_meet_by meeting)) (test_by meeting) parts.now others.now trail.old) }
    ensures line { IfErr result IsOfLine }
{
    for part in parts {
        if first_with_part(meeting, part, others, near, trail)? {
            return Ok(true);
        }
    }
    Ok(false)
}

/// Returns whether `part` meets one of `others`, testing up to the first that it meets.
fn first_with_part(
    meeting: Meeting,
    part: &Kept,
    others: &[Kept],
    near: bool,
    trail: &mut Trail<'_>,
) -> Result<bool, Stopped>
    ensures comes { Refines (λ found. found) result trail.new (first_with_part (chosen_pair near (may_meet_by meeting)) (test_by meeting) part.now others.now trail.old) }
    ensures line { IfErr result IsOfLine }
{
    for other in others {
        if test_pair(meeting, part, other, near, trail)? {
            return Ok(true);
        }
    }
    Ok(false)
}

/// Takes one test of two parts. If `near` and their boxes do not let them meet, takes none.
fn test_pair(
    meeting: Meeting,
    part: &Kept,
    other: &Kept,
    near: bool,
    trail: &mut Trail<'_>,
) -> Result<bool, Stopped>
    ensures comes { Refines (λ found. found) result trail.new (test_pair_if (chosen_pair near (may_meet_by meeting) part.now other.now) (test_by meeting) part.now other.now trail.old) }
    ensures line { IfErr result IsOfLine }
{
    if near && !meeting.may_be(part, other) {
        return Ok(false);
    }
    meeting.test(part, other, trail)
}
