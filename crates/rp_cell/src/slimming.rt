//! Slim cells: cells without redundant half-spaces.
ghost use Rattle.std.specs.Prelude.{◌≡◌, ◌+◌, ◌<◌, ◌≤◌, ◌++◌, true, IfOk, length, map};
ghost use Rattle.rp_geometry.specs.Geometry.{RationalPoint, IsKeptHalfSpace};
ghost use Rattle.rp_geometry.specs.laws.CellLaws.{IsSolution, AreHalfSpaces};
ghost use Rattle.rp_geometry.specs.sets.Shape.{shape_of_cell};
ghost use Rattle.rp_geometry.specs.sets.Sets.{IsNonempty, SameMembers};
ghost use Rattle.rp_geometry.specs.parts.Parts.{IsPart, most_half_spaces};
ghost use Rattle.rp_geometry.specs.parts.PartTest.{part_of, slimmed};
ghost use Rattle.rp_cell.specs.Lines.{drop_line_of};
ghost use Rattle.rp_cell.specs.Slimming.{tested, IsTested, IsDropProof};

use crate::decide::{Strict, decide_strict};
use crate::held::Held;
use crate::others::outside_of;
use rp_elim::first_outside_behind;
use rp_lists::Listed;
use rp_space::{Half, Outside, keep_bounds};
use std::alloc::{AllocError, Global};
use std::marker::Model;

/// A cell, as a list of half-spaces.
pub type Cell = Listed<Half>;

/// A redundant half-space of a cell, with the multiples that show that it adds nothing.
#[derive(Drop)]
pub struct DroppedHalf {
    /// The half-space.
    pub half: Half,
    /// The multiples.
    pub terms: Outside,
}

impl Model for DroppedHalf {
    ghost use Rattle.std.specs.Prelude.{List};
    ghost use Rattle.rp_geometry.specs.Geometry.{HalfSpace};
    ghost use Rattle.rp_geometry.specs.searches.Certificate.{Multiple};

    ghost Value = { HalfSpace × List Multiple };

    ghost view = { λ d. (d.half, d.terms) };
}

/// Redundant half-spaces of a cell.
pub type Drops = Listed<DroppedHalf>;

/// A slim cell, and the half-spaces that were dropped on the way to it.
#[derive(Drop)]
pub struct Slimmed {
    /// The needed half-spaces, in the order of the cell.
    pub kept: Cell,
    /// The dropped half-spaces, in the order of the cell.
    pub dropped: Drops,
}

/// Returns the slim cell of `cell`, which has at most 64 half-spaces. From the first half-space to the last, a
/// half-space is dropped iff no member of the others that are left is outside it. The first outside certificate of
/// these others and its complement shows that. The slim cell has the members of the cell. If there are members, and at
/// most 32 half-spaces are left, the slim cell and its least box are a part.
///
/// # Errors
///
/// `AllocError` for want of memory.
pub fn slim(alloc: Global, cell: &[Half]) -> Result<Slimmed, AllocError>
    requires { length cell.now ≤ 64 }
    ensures kept { IfOk result (λ slim. slim.kept.items ≡ (slimmed cell.now).kept) }
    ensures lines { IfOk result (λ slim. map drop_line_of slim.dropped.items ≡ (slimmed cell.now).lines) }
    ensures members { IfOk result (λ slim. SameMembers (shape_of_cell slim.kept.items) (shape_of_cell cell.now)) }
    ensures part { IfOk result (λ slim. IsNonempty (shape_of_cell cell.now) → length slim.kept.items ≤ most_half_spaces → IsPart (part_of (slimmed cell.now))) }
{
    Held::new(cell).slim(alloc)
}

impl Held {
    /// Returns the slim cell of the stored cell, as [`slim`] does.
    ///
    /// # Errors
    ///
    /// `AllocError` for want of memory.
    pub fn slim(&self, alloc: Global) -> Result<Slimmed, AllocError>
        ensures kept { IfOk result (λ slim. slim.kept.items ≡ (slimmed self.now).kept) }
        ensures lines { IfOk result (λ slim. map drop_line_of slim.dropped.items ≡ (slimmed self.now).lines) }
        ensures members { IfOk result (λ slim. SameMembers (shape_of_cell slim.kept.items) (shape_of_cell self.now)) }
        ensures part { IfOk result (λ slim. IsNonempty (shape_of_cell self.now) → length slim.kept.items ≤ most_half_spaces → IsPart (part_of (slimmed self.now))) }
    {
        let cell = self.halves();
        let mut kept = Cell::new(alloc);
        let mut dropped = Drops::new(alloc);
        for i in 0..cell.len() {
            let half = cell[i];
            match self.drop_proof(i, &half, kept.items(), &cell[i + 1..]) {
                None => kept.push(half)?,
                Some(terms) => dropped.push(DroppedHalf { half, terms })?,
            }
        }
        Ok(Slimmed { kept, dropped })
    }

    /// Returns the multiples that show that no member of the others is outside `half`, which is at `place`; `None` iff
    /// a member is. The others are `kept`, the half-spaces before it that are left, and `rest`, all after it.
    fn drop_proof(&self, place: usize, half: &Half, kept: &[Half], rest: &[Half]) -> Option<Outside>
        requires { IsTested self.now place kept.now half.now rest.now }
        ensures proof { IsDropProof (tested kept.now half.now rest.now) result }
        ensures lowest { IsKeptHalfSpace half.now }
    {
        // The calls make it known that half-spaces keep their bounds and are in lowest terms.
        keep_bounds(self.halves());
        let _ = half.numbers();
        if self.has_side(place) {
            return None;
        }
        if self.has_point() {
            return through_complement(half, kept, rest);
        }
        with_complement(half, kept, rest)
    }
}

/// Returns the multiples that show that no member of `kept` and `rest`, which have a point, is outside `half`; `None`
/// iff a member is.
fn through_complement(half: &Half, kept: &[Half], rest: &[Half]) -> Option<Outside>
    requires few { length kept.now + length rest.now < 64 }
    requires bounds { AreHalfSpaces (tested kept.now half.now rest.now) }
    requires others { (p : RationalPoint) × IsSolution true (kept.now ++ rest.now) p }
    ensures { IsDropProof (tested kept.now half.now rest.now) result }
{
    first_outside_behind(kept, rest, &half.not(), true)
}

/// Returns the multiples that show that no member of `kept` and `rest`, which may have no point, is outside `half`;
/// `None` iff a member is. It is a function of its own so that no other function makes room for the list.
fn with_complement(half: &Half, kept: &[Half], rest: &[Half]) -> Option<Outside>
    requires { length kept.now + length rest.now < 64 }
    ensures { IsDropProof (tested kept.now half.now rest.now) result }
{
    match decide_strict(outside_of(half, kept, rest).as_slice()) {
        Strict::Inside(_) => None,
        Strict::Outside(terms) => Some(terms),
    }
}
