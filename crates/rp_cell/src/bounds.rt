//! The least whole box around a cell, and the certificates that the cell has no member outside it.
ghost use Rattle.std.specs.Prelude.{◌≡◌, ◌≤◌, [], ◌∷◌, ◌++◌, true, ◌||◌, length, map};
ghost use Rattle.rp_geometry.specs.Geometry.{box_half_spaces, complement, cube_half_spaces, is_box_in_bounds, is_listed};
ghost use Rattle.rp_geometry.specs.sets.Shape.{shape_of_cell};
ghost use Rattle.rp_geometry.specs.sets.Sets.{IsNonempty, IsEmpty, SameMembers};
ghost use Rattle.rp_geometry.specs.parts.LeastBox.{IsLeastBox, least_box};
ghost use Rattle.rp_geometry.specs.parts.PartTest.{side_lines};
ghost use Rattle.rp_geometry.specs.searches.ProofLine.{outside_terms};
ghost use Rattle.rp_space.specs.Boxes.{integer_box};
ghost use Rattle.rp_cell.specs.Lines.{side_line_of};

use crate::held::Held;
use rp_elim::first_outside_through;
use rp_lists::Short;
use rp_space::{Half, IntBox, Outside, box_halves, cube, keep_bounds};

/// A list of at most six outside certificates, one for a side of a box, which takes no memory.
pub type SideProofs = Short<Outside, 6>;

/// The least box of a cell, with certificates that no member is beyond its sides.
#[derive(Drop)]
pub struct Sides {
    /// The least whole box that contains every member of the cell.
    pub bounds: IntBox,
    /// Certificates that the cell has no member outside a side of the box, in the order of the sides. There is one for
    /// each side that is neither in the cell nor one of the cube's.
    pub proofs: SideProofs,
}

/// Returns the least whole box around `cell`, which has a member: on each axis the greatest `lo` and the least `hi`
/// with `lo <= x < hi` for all members. It is the box of the vertices. `cell` has at most 64 half-spaces. Takes no
/// memory.
pub fn box_of(cell: &[Half]) -> IntBox
    requires few { length cell.now ≤ 64 }
    requires member { IsNonempty (shape_of_cell cell.now) }
    ensures value { integer_box result ≡ least_box cell.now }
    ensures least { IsLeastBox cell.now (integer_box result) }
    ensures bounds { is_box_in_bounds (integer_box result) ≡ true }
{
    // The call makes it known that all half-spaces keep their bounds.
    keep_bounds(cell);
    Held::new(cell).bounds()
}

/// Returns the least whole box around `cell`, which has a member, with certificates of its sides. The sides are the
/// lower and the upper one of x, of y and of z. Each side that is neither in the cell nor one of the cube's has one:
/// the first outside certificate of the cell and the complement of the side. `cell` has at most 32 half-spaces here.
/// Takes no memory.
pub fn sides_of(cell: &[Half]) -> Sides
    requires few { length cell.now ≤ 32 }
    requires member { IsNonempty (shape_of_cell cell.now) }
    ensures value { integer_box result.bounds ≡ least_box cell.now }
    ensures least { IsLeastBox cell.now (integer_box result.bounds) }
    ensures bounds { is_box_in_bounds (integer_box result.bounds) ≡ true }
    ensures lines { map side_line_of result.proofs ≡ side_lines cell.now (box_half_spaces (least_box cell.now)) }
{
    sides_in(cell, box_of(cell))
}

impl Held {
    /// Returns the least whole box around `slim`, a slim cell of this cell, with its certificates, as [`sides_of`]
    /// does. It is the box of the stored vertices.
    pub fn sides(&self, slim: &[Half]) -> Sides
        requires few { length slim.now ≤ 32 }
        requires member { IsNonempty (shape_of_cell slim.now) }
        requires same { SameMembers (shape_of_cell slim.now) (shape_of_cell self.now) }
        ensures value { integer_box result.bounds ≡ least_box slim.now }
        ensures least { IsLeastBox slim.now (integer_box result.bounds) }
        ensures bounds { is_box_in_bounds (integer_box result.bounds) ≡ true }
        ensures lines { map side_line_of result.proofs ≡ side_lines slim.now (box_half_spaces (least_box slim.now)) }
    {
        // The two calls make it known that all half-spaces keep their bounds.
        keep_bounds(self.halves());
        keep_bounds(slim);
        sides_in(slim, self.bounds())
    }
}

/// Returns `bounds`, the least box around `cell`, with the certificates of its sides, as [`sides_of`] does.
fn sides_in(cell: &[Half], bounds: IntBox) -> Sides
    requires few { length cell.now ≤ 32 }
    requires member { IsNonempty (shape_of_cell cell.now) }
    requires value { integer_box bounds ≡ least_box cell.now }
    requires least { IsLeastBox cell.now (integer_box bounds) }
    requires bounds { is_box_in_bounds (integer_box bounds) ≡ true }
    ensures value { integer_box result.bounds ≡ least_box cell.now }
    ensures least { IsLeastBox cell.now (integer_box result.bounds) }
    ensures bounds { is_box_in_bounds (integer_box result.bounds) ≡ true }
    ensures lines { map side_line_of result.proofs ≡ side_lines cell.now (box_half_spaces (least_box cell.now)) }
{
    let mut proofs = SideProofs::new();
    for side in &box_halves(&bounds) {
        if !is_given(cell, side) {
            proofs.push(side_proof(cell, side));
        }
    }
    Sides { bounds, proofs }
}

/// Returns whether `side` is one of the half-spaces of `cell` or of the domain cube.
fn is_given(cell: &[Half], side: &Half) -> bool
    ensures { result ≡ (is_listed side.now cell.now || is_listed side.now cube_half_spaces) }
{
    is_listed(side, cell) || is_listed(side, &cube())
}

/// Returns whether `half` is one of `halves`.
fn is_listed(half: &Half, halves: &[Half]) -> bool
    ensures { result ≡ is_listed half.now halves.now }
{
    halves.iter().any(|other| half == other)
}

/// Returns the multiples that show that no member of `cell` is outside `side`. The cell has members, so each refutation
/// contains the complement of `side`.
fn side_proof(cell: &[Half], side: &Half) -> Outside
    requires few { length cell.now ≤ 63 }
    requires member { IsNonempty (shape_of_cell cell.now) }
    requires none { IsEmpty (shape_of_cell (cell.now ++ complement side.now ∷ [])) }
    ensures { result ≡ outside_terms true (cell.now ++ complement side.now ∷ []) }
{
    // The call makes it known that all half-spaces keep their bounds.
    keep_bounds(cell);
    first_outside_through(cell, &side.not(), &[], true).unwrap()
}
