//! The witnesses that two parts meet, and the search for them.
ghost use Rattle.std.specs.Prelude.{◌≡◌, ◌++◌, Bool, false, List, is_some, IfOk, IfSome};
ghost use Rattle.rp_geometry.specs.Geometry.{RationalPoint, HalfSpace};
ghost use Rattle.rp_geometry.specs.sets.Shape.{Part, shape_of_cell};
ghost use Rattle.rp_geometry.specs.sets.Sets.{IsEmpty};
ghost use Rattle.rp_geometry.specs.laws.CellLaws.{IsSolution};
ghost use Rattle.rp_geometry.specs.searches.ProofLine.{ProofLine, in_line, at_line};
ghost use Rattle.rp_semantics.specs.Walk.{Walk, Work, strict_test, weak_test};
ghost use Rattle.rp_semantics.specs.Form.{near_pair, touching_pair};
ghost use Rattle.rp_region.specs.Makes.{op_result, Makes, OnlyTells};
ghost use Rattle.rp_region.specs.Pairs.{IsLast};
ghost use Rattle.rp_region.specs.Tells.{strict_tells, weak_tells};

use crate::part::Part;
use crate::work::Work;
use rp_space::{Inside, Point};
use std::alloc::AllocError;

/// A witness that two parts meet. An inside certificate of both together shows a common member; a weak point shows that
/// they touch.
pub(crate) trait Witness: Sized {
    ghost may_meet: { Part → Part → Bool };

    ghost test: { List HalfSpace → Walk Work Bool };

    ghost line: { Self → ProofLine };

    ghost has_none: { List HalfSpace → Type 0 };

    /// Returns whether the boxes of `first` and `second` let them meet. Otherwise they have no witness.
    fn may_meet(first: &Part, second: &Part) -> bool
        ensures value { result ≡ may_meet first.now second.now }
        ensures apart { result ≡ false → has_none (first.now.cell ++ second.now.cell) };

    /// Looks for a witness of `first` and `second` together, by one test.
    fn find(work: &mut Work, first: &Part, second: &Part) -> Result<Option<Self>, AllocError>
        ensures makes { Makes is_some (op_result result) work.old work.new (test (first.now.cell ++ second.now.cell)) }
        ensures told { IfOk result (λ o. IfSome o (λ x. IsLast (line x) work.new.proofs)) };

    /// Appends the line of the test of `first` and `second` together, as [`Witness::find`] does. It is known that they
    /// have no witness, so none is looked for.
    fn refute(work: &mut Work, first: &Part, second: &Part) -> Result<(), AllocError>
        requires { has_none (first.now.cell ++ second.now.cell) }
        ensures { Makes (λ _. false) (op_result result) work.old work.new (test (first.now.cell ++ second.now.cell)) };

    ghost only_tells: { (cell : List HalfSpace) → OnlyTells (test cell) };
}

impl Witness for Inside {
    ghost may_meet = { near_pair };

    ghost test = { strict_test };

    ghost line = { in_line };

    ghost has_none = { λ cell. IsEmpty (shape_of_cell cell) };

    ghost only_tells = { strict_tells };

    fn may_meet(first: &Part, second: &Part) -> bool {
        first.may_overlap(second)
    }

    fn find(work: &mut Work, first: &Part, second: &Part) -> Result<Option<Inside>, AllocError> {
        work.strict_test_of(first, second)
    }

    fn refute(work: &mut Work, first: &Part, second: &Part) -> Result<(), AllocError> {
        work.refute_strict_of(first, second)
    }
}

impl Witness for Point {
    ghost may_meet = { touching_pair };

    ghost test = { weak_test };

    ghost line = { at_line };

    ghost has_none = { λ cell. (p : RationalPoint) → ¬ IsSolution false cell p };

    ghost only_tells = { weak_tells };

    fn may_meet(first: &Part, second: &Part) -> bool {
        first.may_touch(second)
    }

    fn find(work: &mut Work, first: &Part, second: &Part) -> Result<Option<Point>, AllocError> {
        work.weak_test_of(first, second)
    }

    fn refute(work: &mut Work, first: &Part, second: &Part) -> Result<(), AllocError> {
        work.refute_weak_of(first, second)
    }
}
