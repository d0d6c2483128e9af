//! Sets of places as the bits of a number.
ghost use Rattle.std.specs.Prelude.{◌≡◌, ◌<◌, false, IfSome, IfNone};
ghost use Rattle.rp_space.specs.Places.{IsLowestFrom, HasNoneFrom, HasNoTwo};

/// Returns the lowest of `places` that is at least `from`, which is below 128; `None` iff there is none.
pub fn lowest_from(places: u128, from: u32) -> Option<u32>
    requires { from < 128 }
    ensures some { IfSome result (λ place. IsLowestFrom places from place) }
    ensures none { IfNone result (HasNoneFrom places from) }
{
    let rest = places >> from;
    if rest == 0 {
        return None;
    }
    Some(from + rest.trailing_zeros())
}

/// Returns whether `places` has two places or more.
pub fn has_two(places: u128) -> bool
    ensures { result ≡ false → HasNoTwo places }
{
    places != 0 && places & (places - 1) != 0
}
