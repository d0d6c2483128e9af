//! Lists of half-spaces on the stack.
ghost use Rattle.std.specs.Prelude.{◌≡◌, ◌+◌, ◌≤◌, ◌++◌, length};
ghost use Rattle.arrayvec.specs.ArrayVec.{array_vec_len};
ghost use Rattle.rp_geometry.specs.Geometry.{with_cube};
ghost use Rattle.rp_geometry.specs.laws.CellLaws.{AreHalfSpaces};

use crate::bounds::cube;
use crate::half::Half;
use arrayvec::ArrayVec;

/// A list of at most 70 half-spaces, which takes no memory: room for a cell of 64 and the cube's six.
pub type System = ArrayVec<Half, 70>;

/// Returns the half-spaces of `cell`, at most 64, in order, followed by the cube's six.
pub fn with_cube(cell: &[Half]) -> System
    requires { length cell.now ≤ 64 }
    ensures items { result.items ≡ with_cube cell.now }
    ensures bounds { AreHalfSpaces cell.now }
{
    keep_bounds(cell);
    joined(cell, &cube())
}

/// Does nothing; makes it known that every half-space of `halves` is within its bounds.
pub fn keep_bounds(halves: &[Half])
    ensures { AreHalfSpaces halves.now }
{
    for half in halves {
        let _ = half.numbers();
    }
}

/// Returns the half-spaces of `first` followed by those of `second`, at most 70 together.
pub fn joined(first: &[Half], second: &[Half]) -> System
    requires { length first.now + length second.now ≤ 70 }
    ensures { result.items ≡ first.now ++ second.now }
{
    let mut system = System::new();
    extend(&mut system, first);
    extend(&mut system, second);
    system
}

/// Appends `halves` to `system`, which has room for them.
fn extend(system: &mut System, halves: &[Half])
    requires { array_vec_len system.old + length halves.now ≤ 70 }
    ensures { system.new.items ≡ system.old.items ++ halves.now }
{
    for half in halves {
        system.push(*half);
    }
}
