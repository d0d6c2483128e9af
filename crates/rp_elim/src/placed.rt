//! The other half-spaces of a list, each with its side of one chosen half-space.
ghost use Rattle.std.specs.Prelude.{◌≡◌, ◌+◌, ◌≤◌, [], ◌++◌, true, false, length, map};
ghost use Rattle.rp_geometry.specs.Geometry.{with_cube};
ghost use Rattle.rp_elim.specs.HeldFast.{placed_at, placed_list};

use arrayvec::ArrayVec;
use rp_space::{Half, cube};

/// A half-space of a list, and whether its place is before that of the chosen half-space.
#[derive(Clone, Copy, Default)]
pub struct Placed {
    pub half: Half,
    pub before: bool,
}

/// Appends to `others`, which is empty, the half-spaces of `before` and of `more` as those before the chosen
/// half-space. Then it appends the half-spaces of `after` and the cube's six as those after it. `others` has room for
/// all.
pub fn place<const MOST: usize>(
    others: &mut ArrayVec<Placed, MOST>,
    before: &[Half],
    more: &[Half],
    after: &[Half],
)
    requires room { length before.now + length more.now + length after.now + 6 ≤ MOST }
    requires empty { others.old.items ≡ [] }
    ensures { others.new.items ≡ placed_list (before.now ++ more.now) (with_cube after.now) }
{
    extend(others, before, true);
    extend(others, more, true);
    extend(others, after, false);
    extend(others, &cube(), false);
}

/// Appends `halves` to `others`, which has room for them. `before` says whether their places are before that of the
/// chosen half-space.
fn extend<const MOST: usize>(others: &mut ArrayVec<Placed, MOST>, halves: &[Half], before: bool)
    requires { length others.old.items + length halves.now ≤ MOST }
    ensures { others.new.items ≡ others.old.items ++ map (placed_at before) halves.now }
{
    for half in halves {
        others.push(Placed {
            half: *half,
            before,
        });
    }
}
