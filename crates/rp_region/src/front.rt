//! A stored cell from which other cells are made.
ghost use Rattle.std.specs.Prelude.{◌≡◌, ◌+◌, ◌<◌, ◌≤◌, [], ◌∷◌, ◌++◌, true, length, IfOk};
ghost use Rattle.rp_geometry.specs.parts.Parts.{IsPart};
ghost use Rattle.rp_semantics.specs.FormLaws.{IsMadeOf};
ghost use Rattle.rp_semantics.specs.Walk.{strict_test, part_test};
ghost use Rattle.rp_geometry.specs.searches.ProofLine.{strict_line, weak_line};
ghost use Rattle.rp_cell.specs.Decisions.{line_of_strict, line_of_weak, DecidesStrict, DecidesWeak};
ghost use Rattle.rp_region.specs.Makes.{op_result, Makes};

use crate::fault::OpFault;
use crate::part::Part;
use crate::work::Work;
use rp_cell::{Held, Strict, Weak};
use rp_cert::Proof;
use rp_space::Half;
use std::alloc::{AllocError, Global};
use std::marker::Model;

/// A stored cell with its vertices, which is tested with further half-spaces after its own: the data that it shares
/// with the longer cells are stored once. A contract sees its half-spaces. It takes no memory. It is large, so a work
/// keeps one and lends it.
#[derive(Drop)]
pub(crate) struct Front {
    cell: Held,
    /// Room for the cell with further half-spaces.
    longer: Held,
}

impl Model for Front {
    ghost use Rattle.std.specs.Prelude.{List};
    ghost use Rattle.rp_geometry.specs.Geometry.{HalfSpace};

    ghost Value = { List HalfSpace };

    ghost view = { λ f. f.cell };
}

impl Front {
    /// Returns a front with the cell without half-spaces.
    pub(crate) fn new() -> Front
        ensures { result ≡ [] }
    {
        Front {
            cell: Held::new(&[]),
            longer: Held::new(&[]),
        }
    }

    /// Stores `cell`, which has at most 64 half-spaces, in place of the stored cell.
    pub(crate) fn hold(&mut self, cell: &[Half])
        requires { length cell.now ≤ 64 }
        ensures { self.new ≡ cell.now }
    {
        self.cell.hold(cell);
    }

    /// Stores `cell`, of at most 64 half-spaces, and decides whether it has a point, as `decide_strict` does.
    pub(crate) fn decide_strict(&mut self, cell: &[Half]) -> Strict
        requires { length cell.now ≤ 64 }
        ensures decides { DecidesStrict cell.now result }
        ensures line { line_of_strict result ≡ strict_line cell.now }
    {
        self.hold(cell);
        self.cell.strict()
    }

    /// Stores `cell`, of at most 64 half-spaces, and decides whether its weak system has a point, as `decide_weak`
    /// does.
    pub(crate) fn decide_weak(&mut self, cell: &[Half]) -> Weak
        requires { length cell.now ≤ 64 }
        ensures decides { DecidesWeak cell.now result }
        ensures line { line_of_weak result ≡ weak_line cell.now }
    {
        self.hold(cell);
        self.cell.weak()
    }

    /// Stores `cell`, of at most 64 half-spaces, and makes a part test of it, as [`Front::part_with`] does.
    pub(crate) fn part_of(
        &mut self,
        alloc: Global,
        cell: &[Half],
        work: &mut Work,
    ) -> Result<Option<Part>, OpFault>
        requires { length cell.now ≤ 64 }
        ensures makes { Makes (λ o. o) result work.old work.new (part_test cell.now) }
        ensures made { IfOk result (λ o. IsMadeOf IsPart cell.now o) }
    {
        self.hold(cell);
        work.held_part(alloc, &self.cell)
    }

    /// Appends `half` to the half-spaces of the cell, of which there are fewer than 64.
    pub(crate) fn push(&mut self, half: Half)
        requires { length self.old < 64 }
        ensures { self.new ≡ self.old ++ half ∷ [] }
    {
        self.cell.push(half);
    }

    /// Returns whether `part` and `other` share a point, by a strict test of both together; if so, the cell of `part`
    /// is then stored. The line of the test is appended to `work`; the test is not counted.
    pub(crate) fn meets(
        &mut self,
        part: &Part,
        other: &Part,
        work: &mut Work,
    ) -> Result<bool, AllocError>
        ensures makes { Makes (λ has_one. has_one) (op_result result) work.old work.new (strict_test (part.now.cell ++ other.now.cell)) }
        ensures held { IfOk result (λ has_one. has_one ≡ true → self.new ≡ part.now.cell) }
    {
        // Two half-spaces separate most neighbours, and then the cell need not be stored.
        if let Some(terms) = part.refute_with(other) {
            work.tell(Proof::Out(terms))?;
            return Ok(false);
        }
        self.hold(part.halves());
        work.held_test(&self.cell, other.halves(), &mut self.longer)
    }

    /// Makes a part test of the cell with `half` after its own half-spaces, of which there are fewer than 64, as
    /// [`Front::part_with`] does. If `half` refutes alone or with one other, the cell is not copied.
    pub(crate) fn part_behind(
        &mut self,
        alloc: Global,
        half: &Half,
        work: &mut Work,
    ) -> Result<Option<Part>, OpFault>
        requires { length self.old < 64 }
        ensures same { self.new ≡ self.old }
        ensures makes { Makes (λ o. o) result work.old work.new (part_test (self.old ++ half.now ∷ [])) }
    {
        if let Some(terms) = self.cell.refute_with_next(half) {
            work.tell(Proof::Out(terms))?;
            return Ok(None);
        }
        self.part_with(alloc, &[*half], work)
    }

    /// Makes a part test of the cell with `more` after its own half-spaces, at most 64 together. Returns the part of
    /// its slim cell; `None` iff it has no point. The lines of the test are appended to `work`; the test is not
    /// counted.
    ///
    /// # Errors
    ///
    /// `Limit` iff the slim cell has more than 32 half-spaces.
    pub(crate) fn part_with(
        &mut self,
        alloc: Global,
        more: &[Half],
        work: &mut Work,
    ) -> Result<Option<Part>, OpFault>
        requires { length self.old + length more.now ≤ 64 }
        ensures same { self.new ≡ self.old }
        ensures makes { Makes (λ o. o) result work.old work.new (part_test (self.old ++ more.now)) }
        ensures made { IfOk result (λ o. IsMadeOf IsPart (self.old ++ more.now) o) }
    {
        self.longer.copy_from(&self.cell);
        self.longer.extend(more);
        work.held_part(alloc, &self.longer)
    }
}
