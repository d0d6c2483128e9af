//! The first two planes of a set that meet a third one in one point, and the first three of a set.
ghost use Rattle.std.specs.Prelude.{◌≡◌, ◌<◌, ◌↔◌, true, IfSome, IfNone};
ghost use Rattle.rp_clip.specs.Firsts.{IsBasisBefore};
ghost use Rattle.rp_space.specs.Places.{IsIn};
ghost use Rattle.rp_clip.specs.Masks.{HasHalfSpaces, HasLowPlaces};
ghost use Rattle.rp_clip.specs.Meetings.{IsFirstMet, MeetNowhere, IsFirstMetWith, MeetNowhereWith, IsFirstOfSet, HasNoBasis, IsVertexSet, IsThree};

use crate::planes::Planes;
use rp_space::{Half, Meeting, lowest_from, meeting_of};

/// Two places whose planes meet a third one in one point, and this point.
#[derive(Drop)]
pub(crate) struct Met {
    pub(crate) first: u32,
    pub(crate) second: u32,
    pub(crate) at: Meeting,
}

/// Returns the first two places of `set`, from the place `from` on, whose planes meet that of `h` in one point.
pub(crate) fn first_meeting(planes: &Planes, set: u128, from: u32, h: &Half) -> Option<Met>
    requires places { HasHalfSpaces planes.now set }
    requires from { from < 128 }
    ensures some { IfSome result (λ m. IsFirstMet planes.now set from h.now m) }
    ensures none { IfNone result (MeetNowhere planes.now set from h.now) }
{
    let mut next = lowest_from(set, from);
    while let Some(first) = next {
        let found = meeting_with(planes, set, first, h);
        if found.is_some() {
            return found;
        }
        next = lowest_from(set, first + 1);
    }
    None
}

/// Returns the first place of `set` after `first` whose plane meets the planes at `first` and of `h` in one point.
fn meeting_with(planes: &Planes, set: u128, first: u32, h: &Half) -> Option<Met>
    requires places { HasHalfSpaces planes.now set }
    requires first { IsIn set first }
    ensures some { IfSome result (λ m. IsFirstMetWith planes.now set first h.now m) }
    ensures none { IfNone result (MeetNowhereWith planes.now set first h.now) }
{
    let f = planes.at(first);
    let mut next = lowest_from(set, first + 1);
    while let Some(second) = next {
        let found = meeting_of(&f, &planes.at(second), h);
        if let Some(at) = found {
            return Some(Met { first, second, at });
        }
        next = lowest_from(set, second + 1);
    }
    None
}

/// Three rising places whose planes meet in one point.
#[derive(Clone, Copy)]
pub(crate) struct Basis {
    pub(crate) first: u32,
    pub(crate) second: u32,
    pub(crate) third: u32,
}

impl Basis {
    /// Returns whether this basis has the smaller place at the first position at which it differs from `other`.
    pub(crate) fn is_before(&self, other: &Basis) -> bool
        ensures { (result ≡ true) ↔ IsBasisBefore self.now other.now }
    {
        self.first < other.first
            || (self.first == other.first
                && (self.second < other.second
                    || (self.second == other.second && self.third < other.third)))
    }
}

/// Returns the first three places of `set`, the planes through a vertex, whose planes meet in one point.
pub(crate) fn first_basis(planes: &Planes, set: u128) -> Option<Basis>
    requires { IsVertexSet planes.now set }
    ensures some { IfSome result (λ b. IsFirstOfSet planes.now set b) }
    ensures none { IfNone result (HasNoBasis planes.now set) }
{
    let only = three_places(set);
    if only.is_some() {
        return only;
    }
    let first = lowest_from(set, 0)?;
    let met = first_meeting(planes, set, first + 1, &planes.at(first))?;
    Some(Basis {
        first,
        second: met.first,
        third: met.second,
    })
}

/// Returns the places of `set` if it has exactly three, as most vertices have; otherwise `None`.
fn three_places(set: u128) -> Option<Basis>
    requires { HasLowPlaces set }
    ensures { IfSome result (IsThree set) }
{
    let first = lowest_from(set, 0)?;
    let second = lowest_from(set, first + 1)?;
    let third = lowest_from(set, second + 1)?;
    if lowest_from(set, third + 1).is_some() {
        return None;
    }
    Some(Basis {
        first,
        second,
        third,
    })
}
