//! Short lists of half-spaces, in little room.
ghost use Rattle.std.specs.Prelude.{◌≡◌, ◌+◌, ◌≤◌, ◌++◌, length};
ghost use Rattle.arrayvec.specs.ArrayVec.{array_vec_len};

use arrayvec::ArrayVec;
use rp_space::Half;

/// The most half-spaces of a short list: more than most pairs of parts have together.
pub(crate) const MOST_FEW: usize = 24;

/// A short list of half-spaces. It is made much faster than a list with room for a whole cell.
pub(crate) type Few = ArrayVec<Half, 24>;

/// Appends `halves`, for which there is room.
pub(crate) fn put(few: &mut Few, halves: &[Half])
    requires { array_vec_len few.old + length halves.now ≤ 24 }
    ensures { few.new.items ≡ few.old.items ++ halves.now }
{
    for half in halves {
        few.push(*half);
    }
}
