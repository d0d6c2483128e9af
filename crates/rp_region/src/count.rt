//! The number of pairs of parts of two regions that may meet.
ghost use Rattle.std.specs.Prelude.{◌≡◌, ◌≤◌, ◌*◌, length, sum_by, count_by};
ghost use Rattle.rp_geometry.specs.parts.Parts.{most_parts};
ghost use Rattle.rp_semantics.specs.Form.{near_pair, touching_pair};

use crate::part::Part;
use crate::region::Region;
use crate::witness::Witness;
use rp_space::{Inside, Point};

impl Region {
    /// Returns how many pairs of a part of this region and a part of `other` have boxes that share more than boundary.
    /// These are the pairs that [`Region::first_common`] tests, with `near`, if it finds none.
    pub fn near_pairs(&self, other: &Region) -> u64
        ensures value { result ≡ sum_by (λ p. count_by (λ q. near_pair p q) other.now) self.now }
        ensures few { result ≤ most_parts * most_parts }
    {
        meeting_pairs::<Inside>(self.parts(), other.parts())
    }

    /// Returns how many pairs of a part of this region and a part of `other` have boxes that share a point, the
    /// boundary included. These are the pairs that [`Region::first_touch`] tests, with `near`, if it finds none.
    pub fn touching_pairs(&self, other: &Region) -> u64
        ensures value { result ≡ sum_by (λ p. count_by (λ q. touching_pair p q) other.now) self.now }
        ensures few { result ≤ most_parts * most_parts }
    {
        meeting_pairs::<Point>(self.parts(), other.parts())
    }
}

/// Returns how many pairs of one of `parts` and one of `others` have boxes that let them meet.
fn meeting_pairs<W: Witness>(parts: &[Part], others: &[Part]) -> u64
    requires first { length parts.now ≤ most_parts }
    requires second { length others.now ≤ most_parts }
    ensures value { result ≡ sum_by (λ p. count_by (λ q. W.may_meet p q) others.now) parts.now }
    ensures few { result ≤ most_parts * most_parts }
{
    let mut count = 0;
    for part in parts {
        count += meeting_parts::<W>(part, others);
    }
    count
}

/// Returns how many of `others` have boxes that let them meet `part`.
fn meeting_parts<W: Witness>(part: &Part, others: &[Part]) -> u64
    ensures value { result ≡ count_by (λ q. W.may_meet part.now q) others.now }
    ensures few { result ≤ length others.now }
{
    let mut count = 0;
    for other in others {
        if W::may_meet(part, other) {
            count += 1;
        }
    }
    count
}
