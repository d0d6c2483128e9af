//! The count of tests, and the answers to them.
ghost use Rattle.std.specs.Prelude.{◌≡◌, ◌≤◌, ◌++◌, ◌∷◌, [], List, IfOk, length, map, true};
ghost use Rattle.rp_geometry.specs.Geometry.{is_cube_point};
ghost use Rattle.rp_geometry.specs.sets.Prism.{IsPrism};
ghost use Rattle.rp_geometry.specs.sets.Shape.{Part, passes, shape_of_parts};
ghost use Rattle.rp_geometry.specs.parts.PartTest.{whole_part};
ghost use Rattle.rp_geometry.specs.parts.Parts.{most_parts};
ghost use Rattle.rp_space.specs.Corners.{prism_of};
ghost use Rattle.rp_semantics.specs.Walk.{Tester};
ghost use Rattle.rp_semantics.specs.Form.{if_at_most, join, subtract, common_in_full, touch_in_full, parts_of_cell, prism_form};
ghost use Rattle.rp_oracle.specs.Refines.{counted, Refines};

use crate::stopped::Stopped;
use rp_space::{Corner, Half, Halves, Point};
use std::alloc::{AllocError, Global};

/// An oracle that counts tests and answers them: a search, which writes its certificates, or a report, whose next lines
/// are read.
///
/// A contract sees its definition in `tester`, and in `seen` a part and in `parts_of` a form as the model has them.
pub trait Oracle: Sized {
    /// A part, with the properties of every part.
    type Part: Drop;

    /// A list of parts.
    type Form: Drop;

    ghost tester: { Tester Self };

    ghost seen: { Self.Part → Part };

    ghost parts_of: { Self.Form → List Part };

    /// Returns the parts of `form` in order.
    fn parts(form: &Self::Form) -> &[Self::Part]
        ensures { map seen result.now ≡ parts_of form.now };

    /// Returns the parts of `form` in order. Takes no memory.
    fn into_parts(form: Self::Form) -> Vec<Self::Part>
        ensures { map seen result.items ≡ parts_of form };

    /// Returns the half-spaces of `part`. The points of the part are the points in all of them. Takes no memory.
    fn into_halves(part: Self::Part) -> Halves
        ensures { result.items ≡ (seen part).cell };

    /// Returns the whole cube: one part without half-spaces.
    fn whole(alloc: Global) -> Result<Self::Form, AllocError>
        ensures { IfOk result (λ form. parts_of form ≡ whole_part ∷ []) };

    /// Returns a form without parts. Takes no memory.
    fn none(alloc: Global) -> Self::Form
        ensures { parts_of result ≡ [] };

    /// Returns a copy of `form`, with equal parts in the same order.
    fn copy(alloc: Global, form: &Self::Form) -> Result<Self::Form, AllocError>
        ensures { IfOk result (λ copy. parts_of copy ≡ parts_of form.now) };

    /// Returns whether `point`, of the cube, is in `form`, by signs.
    fn holds(form: &Self::Form, point: &Point) -> bool
        requires { is_cube_point point.now ≡ true }
        ensures { result ≡ passes (shape_of_parts (parts_of form.now)) point.now };

    /// Counts `n` more tests and returns true. Returns false iff their number would be above 65,536; then nothing
    /// changes.
    fn count(&mut self, n: u64) -> bool
        ensures { tester.count n self.old ≡ counted result self.new };

    /// Returns whether `part` has a point, by a strict test, which is not counted.
    fn has_point(&mut self, alloc: Global, part: &Self::Part) -> Result<bool, Stopped>
        ensures { Refines (λ is_so. is_so) result self.new (tester.strict (seen part.now).cell self.old) };

    /// Returns whether `first` and `second` are in contact, by a weak test of both together, which is not counted.
    fn are_in_contact(
        &mut self,
        alloc: Global,
        first: &Self::Part,
        second: &Self::Part,
    ) -> Result<bool, Stopped>
        ensures { Refines (λ is_so. is_so) result self.new (tester.weak ((seen first.now).cell ++ (seen second.now).cell) self.old) };

    /// Returns whether `a` and `b` share a point, by tests of pairs of their parts. All pairs are counted.
    fn overlap(&mut self, alloc: Global, a: &Self::Form, b: &Self::Form) -> Result<bool, Stopped>
        ensures { Refines (λ is_so. is_so) result self.new (common_in_full tester (parts_of a.now) (parts_of b.now) self.old) };

    /// Returns whether `a` and `b` are in contact, by tests of pairs of their parts. All pairs are counted.
    fn contact(&mut self, alloc: Global, a: &Self::Form, b: &Self::Form) -> Result<bool, Stopped>
        ensures { Refines (λ is_so. is_so) result self.new (touch_in_full tester (parts_of a.now) (parts_of b.now) self.old) };

    /// Returns the difference of `a` and `b`: the rest of `a` outside `b`.
    fn minus(
        &mut self,
        alloc: Global,
        a: &Self::Form,
        b: &Self::Form,
    ) -> Result<Self::Form, Stopped>
        ensures { Refines parts_of result self.new (subtract tester (parts_of a.now) (parts_of b.now) self.old) };

    /// Returns the difference of `first` and `other`, as [`Oracle::minus`] does. Parts of `first` that do not change
    /// are moved.
    fn into_minus(
        &mut self,
        alloc: Global,
        first: Self::Form,
        other: &Self::Form,
    ) -> Result<Self::Form, Stopped>
        ensures { Refines parts_of result self.new (subtract tester (parts_of first) (parts_of other.now) self.old) };

    /// Returns the intersection of `a` and `b`, by a part test of each part of `a` with each part of `b`. The tests are
    /// counted.
    fn both(&mut self, alloc: Global, a: &Self::Form, b: &Self::Form) -> Result<Self::Form, Stopped>
        ensures { Refines parts_of result self.new (join tester (parts_of a.now) (parts_of b.now) self.old) };

    /// Returns the union of `first` and `second`: the parts of `first`, and then those of `second`, which are moved.
    ///
    /// # Errors
    ///
    /// `Limit` iff there are more than 1,024 parts together.
    fn either(&mut self, first: Self::Form, second: Self::Form) -> Result<Self::Form, Stopped>
        ensures { Refines parts_of result self.new (if_at_most most_parts (parts_of first ++ parts_of second) self.old) };

    /// Returns the form of `cell`, of at most 64 half-spaces, by one part test, which is not counted.
    fn of_cell(&mut self, alloc: Global, cell: &[Half]) -> Result<Self::Form, Stopped>
        requires { length cell.now ≤ 64 }
        ensures { Refines parts_of result self.new (parts_of_cell tester cell.now self.old) };

    /// Returns the form of the polygon over `corners` raised from `low` to below `high`.
    fn of_prism(
        &mut self,
        alloc: Global,
        low: i32,
        high: i32,
        corners: &[Corner],
    ) -> Result<Self::Form, Stopped>
        requires { IsPrism (prism_of low high corners.now) }
        ensures { Refines parts_of result self.new (prism_form tester (prism_of low high corners.now) self.old) };
}
