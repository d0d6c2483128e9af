//! The results of a command so far: the number of tests counted, and the proof lines of its tests.
ghost use Rattle.std.specs.Prelude.{◌≡◌, ◌+◌, ◌≤◌, ◌↔◌, ◌++◌, ◌∷◌, [], false, length, map, is_some, Some, IfOk, IfSome, OnOk, OnErr, IsNone};
ghost use Rattle.rp_geometry.specs.Geometry.{RationalPoint};
ghost use Rattle.rp_geometry.specs.sets.Shape.{shape_of_cell};
ghost use Rattle.rp_geometry.specs.sets.Sets.{IsNonempty, IsEmpty, SameMembers};
ghost use Rattle.rp_geometry.specs.searches.ProofLine.{in_line, at_line, box_line, strict_line, weak_line};
ghost use Rattle.rp_geometry.specs.searches.Vertex.{first_inside, first_weak_point};
ghost use Rattle.rp_geometry.specs.laws.CellLaws.{IsSolution};
ghost use Rattle.rp_geometry.specs.parts.Parts.{IsPart, most_half_spaces};
ghost use Rattle.rp_geometry.specs.parts.PartTest.{part_of, slimmed};
ghost use Rattle.rp_semantics.specs.FormLaws.{IsMadeOf};
ghost use Rattle.rp_semantics.specs.Walk.{most_tests, no_work, with_lines, count_tests, strict_test, weak_test, part_test};
ghost use Rattle.rp_space.specs.Boxes.{integer_box};
ghost use Rattle.rp_cert.specs.Lines.{line_of};
ghost use Rattle.rp_cell.specs.Decisions.{line_of_strict, line_of_weak, DecidesStrict, DecidesWeak};
ghost use Rattle.rp_cell.specs.Lines.{drop_line_of, side_line_of};
ghost use Rattle.rp_region.specs.Makes.{counted, op_result, telling, Makes};
ghost use Rattle.rp_region.specs.Pairs.{IsLast};
ghost use Rattle.rp_region.specs.Stops.{TakesOver};

use crate::fault::OpFault;
use crate::front::Front;
use crate::part::Part;
use crate::scratch::Scratch;
use rp_cell::{
    Cell, DroppedHalf, Drops, Held, SideProofs, Sides, Slimmed, Strict, Weak, decide_by_vertices,
    hold_weak, refute_strict, refute_weak, try_decide_strict, weak_soon,
};
use rp_cert::{Proof, Proofs};
use rp_lists::Copied;
use rp_oracle::{MAX_HALVES, MAX_TESTS, Stopped};
use rp_space::{Half, Inside, IntBox, Point, joined};
use std::alloc::{AllocError, Global};
use std::marker::Model;

/// The number of tests that a command has counted, at most 65,536, and the proof lines of its tests so far.
///
/// After `Limit` or want of memory, some first lines of the failed call may follow the lines before; the work is not
/// used further.
#[derive(Drop)]
pub struct Work {
    tests: u32,
    proofs: Proofs,
    /// Memory for stored cells with their vertices.
    room: Scratch,
    alloc: Global,
}

impl Model for Work {
    ghost use Rattle.std.specs.Prelude.{◌≤◌, map};
    ghost use Rattle.rp_semantics.specs.Walk.{Work, most_tests};
    ghost use Rattle.rp_cert.specs.Lines.{line_of};

    ghost Value = { Work };

    ghost view = { λ a. record { tests = a.tests; proofs = map line_of a.proofs.items } };

    ghost invariant = { λ a. a.tests ≤ most_tests };
}

impl Work {
    /// Returns a work without tests and lines. Takes no memory.
    pub fn new(alloc: Global) -> Work
        ensures { result ≡ no_work }
    {
        Work::over(alloc, Scratch::new())
    }

    /// Returns a work without tests and lines. Its tests use `room`, which another work has handed on. Takes no memory.
    pub fn over(alloc: Global, room: Scratch) -> Work
        ensures { result ≡ no_work }
    {
        Work {
            tests: 0,
            proofs: Proofs::new(alloc),
            room,
            alloc,
        }
    }

    /// Returns the room of this work, for another work. Oracle and lines stay as they are.
    pub fn hand_on_room(&mut self) -> Scratch
        ensures { self.new ≡ self.old }
    {
        self.room.take()
    }

    /// Returns the number of tests counted, at most 65,536.
    pub fn tests(&self) -> u32
        ensures value { result ≡ self.now.tests }
        ensures few { result ≤ most_tests }
    {
        self.tests
    }

    /// Returns the proof lines in order.
    pub fn proofs(&self) -> &[Proof]
        ensures { map line_of result.now ≡ self.now.proofs }
    {
        self.proofs.items()
    }

    /// Returns the proof lines in order and drops the number of tests. Takes no memory.
    pub fn into_proofs(self) -> Proofs
        ensures { map line_of result.items ≡ self.proofs }
    {
        self.proofs
    }

    /// Counts `n` more tests and returns true. Returns false iff their number would be above 65,536; then nothing
    /// changes.
    pub fn count(&mut self, n: u64) -> bool
        ensures { count_tests n self.old ≡ counted result self.new }
    {
        let left = MAX_TESTS - self.tests;
        if n > left as u64 {
            return false;
        }
        self.tests += n as u32;
        true
    }

    /// Appends a proof line. After `AllocError` nothing has changed.
    pub(crate) fn tell(&mut self, proof: Proof) -> Result<(), AllocError>
        ensures ok { OnOk result (self.new ≡ with_lines self.old (line_of proof ∷ [])) }
        ensures err { OnErr result (self.new ≡ self.old) }
    {
        self.proofs.push(proof)
    }

    /// Reserves memory for `lines` more proof lines. Oracle and lines stay as they are, even after `AllocError`.
    pub fn reserve(&mut self, lines: usize) -> Result<(), AllocError>
        ensures { self.new ≡ self.old }
    {
        self.proofs.reserve(lines)
    }

    /// Adds the tests that `other` has counted, and moves its proof lines here, after the lines of this work. The two
    /// numbers of tests add up to at most 65,536. After `AllocError` nothing has changed.
    pub fn append(&mut self, _alloc: Global, other: Work) -> Result<(), AllocError>
        requires { self.old.tests + other.tests ≤ most_tests }
        ensures ok { OnOk result (self.new ≡ record { tests = self.old.tests + other.tests; proofs = self.old.proofs ++ other.proofs }) }
        ensures err { OnErr result (self.new ≡ self.old) }
    {
        self.proofs.append(other.proofs)?;
        self.tests += other.tests;
        Ok(())
    }

    /// Returns a work with as many tests counted, and without proof lines. Takes no memory.
    pub fn fresh(&self, alloc: Global) -> Work
        ensures { result ≡ record { tests = self.now.tests; proofs = [] } }
    {
        Work {
            tests: self.tests,
            proofs: Proofs::new(alloc),
            room: Scratch::new(),
            alloc,
        }
    }

    /// Lends the room for stored cells with their vertices, and allocates it if there is none. Oracle and lines stay as
    /// they are, even after `AllocError`.
    pub(crate) fn take_room(&mut self) -> Result<Box<Front>, AllocError>
        ensures { self.new ≡ self.old }
    {
        self.room.lend_or_make(self.alloc)
    }

    /// Puts `room` back for further tests.
    pub(crate) fn keep_room(&mut self, room: Box<Front>)
        ensures { self.new ≡ self.old }
    {
        self.room.keep(room);
    }

    /// Returns the result `came` of a row on `walked`, a work that was begun fresh. The count of `walked` replaces the
    /// count here, and its proof lines are moved here, after the lines of this work.
    ///
    /// # Errors
    ///
    /// - `Limit` if `came` is a stop other than `Memory`.
    /// - `Memory` for want of memory, in the row or here. Then nothing has changed.
    pub fn take_over<A: Drop>(
        &mut self,
        walked: Work,
        came: Result<A, Stopped>,
    ) -> Result<A, OpFault>
        ensures { TakesOver came walked result self.old self.new }
    {
        if let Err(Stopped::Memory(fault)) = came {
            return Err(OpFault::Memory(fault));
        }
        self.proofs.append(walked.proofs)?;
        self.tests = walked.tests;
        self.room.take_from(walked.room);
        match came {
            Ok(result) => Ok(result),
            Err(_) => Err(OpFault::Limit),
        }
    }

    /// Makes a strict test of the cell of `first` followed by `second`, at most 64 half-spaces together. Returns the
    /// first inside certificate; `None` iff the cell has no point. The line of the test is appended; the test is not
    /// counted.
    ///
    /// # Errors
    ///
    /// `AllocError` for want of memory.
    pub fn strict(
        &mut self,
        _alloc: Global,
        first: &[Half],
        second: &[Half],
    ) -> Result<Option<Inside>, AllocError>
        requires { length first.now + length second.now ≤ 64 }
        ensures makes { Makes is_some (op_result result) self.old self.new (strict_test (first.now ++ second.now)) }
        ensures first { IfOk result (λ o. o ≡ first_inside (first.now ++ second.now)) }
        ensures none { IfOk result (λ o. IsNone o ↔ IsEmpty (shape_of_cell (first.now ++ second.now))) }
    {
        self.strict_test(joined(first, second).as_slice())
    }

    /// Makes a strict test of `cell`, of at most 64 half-spaces. Returns the first inside certificate; `None` iff the
    /// cell has no point.
    pub(crate) fn strict_test(&mut self, cell: &[Half]) -> Result<Option<Inside>, AllocError>
        requires { length cell.now ≤ 64 }
        ensures makes { Makes is_some (op_result result) self.old self.new (strict_test cell.now) }
        ensures first { IfOk result (λ o. o ≡ first_inside cell.now) }
        ensures none { IfOk result (λ o. IsNone o ↔ IsEmpty (shape_of_cell cell.now)) }
        ensures told { IfOk result (λ o. IfSome o (λ points. IsLast (in_line points) self.new.proofs)) }
    {
        match self.decide_strict(cell) {
            Strict::Inside(points) => {
                let found = points.copy();
                self.tell(Proof::In(points))?;
                Ok(Some(found))
            }
            Strict::Outside(terms) => {
                self.tell(Proof::Out(terms))?;
                Ok(None)
            }
        }
    }

    /// Makes a weak test of the cell of `first` followed by `second`, at most 64 half-spaces together. Returns the
    /// first weak point; `None` iff the weak system of the cell has no point. The line of the test is appended; the
    /// test is not counted.
    ///
    /// # Errors
    ///
    /// `AllocError` for want of memory.
    pub fn weak(
        &mut self,
        _alloc: Global,
        first: &[Half],
        second: &[Half],
    ) -> Result<Option<Point>, AllocError>
        requires { length first.now + length second.now ≤ 64 }
        ensures makes { Makes is_some (op_result result) self.old self.new (weak_test (first.now ++ second.now)) }
        ensures first { IfOk result (λ o. o ≡ first_weak_point (first.now ++ second.now)) }
        ensures none { IfOk result (λ o. IsNone o ↔ ((p : RationalPoint) → ¬ IsSolution false (first.now ++ second.now) p)) }
    {
        self.weak_test(joined(first, second).as_slice())
    }

    /// Makes a weak test of `cell`, of at most 64 half-spaces. Returns the first weak point; `None` iff the weak system
    /// of the cell has no point.
    pub(crate) fn weak_test(&mut self, cell: &[Half]) -> Result<Option<Point>, AllocError>
        requires { length cell.now ≤ 64 }
        ensures makes { Makes is_some (op_result result) self.old self.new (weak_test cell.now) }
        ensures first { IfOk result (λ o. o ≡ first_weak_point cell.now) }
        ensures none { IfOk result (λ o. IsNone o ↔ ((p : RationalPoint) → ¬ IsSolution false cell.now p)) }
        ensures told { IfOk result (λ o. IfSome o (λ p. IsLast (at_line p) self.new.proofs)) }
    {
        match self.decide_weak(cell) {
            Weak::At(point) => {
                self.tell(Proof::At(point))?;
                Ok(Some(point))
            }
            Weak::Outside(terms) => {
                self.tell(Proof::Apart(terms))?;
                Ok(None)
            }
        }
    }

    /// Returns whether `first` and `second` are in contact, by a weak test of them together. If their boxes share no
    /// point, no common point is searched for. The line of the test is appended; the test is not counted.
    ///
    /// # Errors
    ///
    /// `AllocError` for want of memory.
    pub fn are_in_contact(&mut self, first: &Part, second: &Part) -> Result<bool, AllocError>
        ensures { Makes (λ is_so. is_so) (op_result result) self.old self.new (weak_test (first.now.cell ++ second.now.cell)) }
    {
        let cell = joined(first.halves(), second.halves());
        if !first.may_touch(second) {
            self.refute_weak(cell.as_slice())?;
            return Ok(false);
        }
        Ok(self.weak_test(cell.as_slice())?.is_some())
    }

    /// Makes a strict test of `first` and `second` together; returns an inside certificate if they share a point.
    pub(crate) fn strict_test_of(
        &mut self,
        first: &Part,
        second: &Part,
    ) -> Result<Option<Inside>, AllocError>
        ensures makes { Makes is_some (op_result result) self.old self.new (strict_test (first.now.cell ++ second.now.cell)) }
        ensures told { IfOk result (λ o. IfSome o (λ x. IsLast (in_line x) self.new.proofs)) }
    {
        if let Some(terms) = first.refute_with(second) {
            self.tell(Proof::Out(terms))?;
            return Ok(None);
        }
        self.strict_test_joined(first, second)
    }

    /// Joins the cells of `first` and `second` and runs [`Work::strict_test`]. It is a function of its own, as the next
    /// ones are, so that no other function makes room for the joined cell.
    fn strict_test_joined(
        &mut self,
        first: &Part,
        second: &Part,
    ) -> Result<Option<Inside>, AllocError>
        ensures makes { Makes is_some (op_result result) self.old self.new (strict_test (first.now.cell ++ second.now.cell)) }
        ensures told { IfOk result (λ o. IfSome o (λ x. IsLast (in_line x) self.new.proofs)) }
    {
        self.strict_test(joined(first.halves(), second.halves()).as_slice())
    }

    /// Makes a strict test of `first` and `second` together. It is known that they share no point, so none is searched
    /// for.
    pub(crate) fn refute_strict_of(&mut self, first: &Part, second: &Part) -> Result<(), AllocError>
        requires { IsEmpty (shape_of_cell (first.now.cell ++ second.now.cell)) }
        ensures { Makes (λ _. false) (op_result result) self.old self.new (strict_test (first.now.cell ++ second.now.cell)) }
    {
        if let Some(terms) = first.refute_with(second) {
            return self.tell(Proof::Out(terms));
        }
        self.refute_strict_joined(first, second)
    }

    /// Joins the cells of `first` and `second`, which share no point, and runs [`Work::refute_strict`].
    fn refute_strict_joined(&mut self, first: &Part, second: &Part) -> Result<(), AllocError>
        requires { IsEmpty (shape_of_cell (first.now.cell ++ second.now.cell)) }
        ensures { Makes (λ _. false) (op_result result) self.old self.new (strict_test (first.now.cell ++ second.now.cell)) }
    {
        self.refute_strict(joined(first.halves(), second.halves()).as_slice())
    }

    /// Makes a weak test of `first` and `second` together; returns a weak point if they are in contact.
    pub(crate) fn weak_test_of(
        &mut self,
        first: &Part,
        second: &Part,
    ) -> Result<Option<Point>, AllocError>
        ensures makes { Makes is_some (op_result result) self.old self.new (weak_test (first.now.cell ++ second.now.cell)) }
        ensures told { IfOk result (λ o. IfSome o (λ x. IsLast (at_line x) self.new.proofs)) }
    {
        if let Some(terms) = first.refute_contact_with(second) {
            self.tell(Proof::Apart(terms))?;
            return Ok(None);
        }
        self.weak_test_joined(first, second)
    }

    /// Joins the cells of `first` and `second` and runs [`Work::weak_test`].
    fn weak_test_joined(&mut self, first: &Part, second: &Part) -> Result<Option<Point>, AllocError>
        ensures makes { Makes is_some (op_result result) self.old self.new (weak_test (first.now.cell ++ second.now.cell)) }
        ensures told { IfOk result (λ o. IfSome o (λ x. IsLast (at_line x) self.new.proofs)) }
    {
        self.weak_test(joined(first.halves(), second.halves()).as_slice())
    }

    /// Makes a weak test of `first` and `second` together. It is known that their weak systems have no common point, so
    /// none is searched for.
    pub(crate) fn refute_weak_of(&mut self, first: &Part, second: &Part) -> Result<(), AllocError>
        requires { (p : RationalPoint) → ¬ IsSolution false (first.now.cell ++ second.now.cell) p }
        ensures { Makes (λ _. false) (op_result result) self.old self.new (weak_test (first.now.cell ++ second.now.cell)) }
    {
        if let Some(terms) = first.refute_contact_with(second) {
            return self.tell(Proof::Apart(terms));
        }
        self.refute_weak_joined(first, second)
    }

    /// Joins the cells of `first` and `second`, whose weak systems have no common point, and runs
    /// [`Work::refute_weak`].
    fn refute_weak_joined(&mut self, first: &Part, second: &Part) -> Result<(), AllocError>
        requires { (p : RationalPoint) → ¬ IsSolution false (first.now.cell ++ second.now.cell) p }
        ensures { Makes (λ _. false) (op_result result) self.old self.new (weak_test (first.now.cell ++ second.now.cell)) }
    {
        self.refute_weak(joined(first.halves(), second.halves()).as_slice())
    }

    /// Makes a strict test of `cell`, of at most 64 half-spaces. It is known that it has no point, so none is searched
    /// for.
    pub(crate) fn refute_strict(&mut self, cell: &[Half]) -> Result<(), AllocError>
        requires few { length cell.now ≤ 64 }
        requires empty { IsEmpty (shape_of_cell cell.now) }
        ensures { Makes (λ _. false) (op_result result) self.old self.new (strict_test cell.now) }
    {
        self.tell(Proof::Out(refute_strict(cell)))
    }

    /// Makes a weak test of `cell`, of at most 64 half-spaces. It is known that its weak system has no point, so none
    /// is searched for.
    pub(crate) fn refute_weak(&mut self, cell: &[Half]) -> Result<(), AllocError>
        requires few { length cell.now ≤ 64 }
        requires empty { (p : RationalPoint) → ¬ IsSolution false cell.now p }
        ensures { Makes (λ _. false) (op_result result) self.old self.new (weak_test cell.now) }
    {
        self.tell(Proof::Apart(refute_weak(cell)))
    }

    /// Decides whether `cell`, of at most 64 half-spaces, has a point, as `decide_strict` does, in the room if there is
    /// one. Oracle and lines stay as they are.
    fn decide_strict(&mut self, cell: &[Half]) -> Strict
        requires { length cell.now ≤ 64 }
        ensures same { self.new ≡ self.old }
        ensures decides { DecidesStrict cell.now result }
        ensures line { line_of_strict result ≡ strict_line cell.now }
    {
        if let Some(found) = try_decide_strict(cell) {
            return found;
        }
        let Some(mut room) = self.room.lend() else {
            return decide_by_vertices(cell);
        };
        let found = room.decide_strict(cell);
        self.keep_room(room);
        found
    }

    /// Decides whether the weak system of `cell`, of at most 64 half-spaces, has a point, as `decide_weak` does, in the
    /// room if there is one. Oracle and lines stay as they are.
    fn decide_weak(&mut self, cell: &[Half]) -> Weak
        requires { length cell.now ≤ 64 }
        ensures same { self.new ≡ self.old }
        ensures decides { DecidesWeak cell.now result }
        ensures line { line_of_weak result ≡ weak_line cell.now }
    {
        if let Some(found) = weak_soon(cell) {
            return found;
        }
        let Some(mut room) = self.room.lend() else {
            return hold_weak(cell);
        };
        let found = room.decide_weak(cell);
        self.keep_room(room);
        found
    }

    /// Returns whether `cell` with `more` after its own half-spaces, at most 64 together, has a point, by a strict
    /// test. The test overwrites `room`. Its line is appended; it is not counted.
    pub(crate) fn held_test(
        &mut self,
        cell: &Held,
        more: &[Half],
        room: &mut Held,
    ) -> Result<bool, AllocError>
        requires { length cell.now + length more.now ≤ 64 }
        ensures { Makes (λ has_one. has_one) (op_result result) self.old self.new (strict_test (cell.now ++ more.now)) }
    {
        match room.strict_beside(cell, more) {
            Strict::Inside(points) => {
                self.tell(Proof::In(points))?;
                Ok(true)
            }
            Strict::Outside(terms) => {
                self.tell(Proof::Out(terms))?;
                Ok(false)
            }
        }
    }

    /// Makes a part test of `cell`, of at most 64 half-spaces, as [`Work::held_part`] does.
    pub(crate) fn part_test(
        &mut self,
        alloc: Global,
        cell: &[Half],
    ) -> Result<Option<Part>, OpFault>
        requires { length cell.now ≤ 64 }
        ensures makes { Makes (λ o. o) result self.old self.new (part_test cell.now) }
        ensures made { IfOk result (λ o. IsMadeOf IsPart cell.now o) }
    {
        let mut room = self.take_room()?;
        let part = room.part_of(alloc, cell, self)?;
        self.keep_room(room);
        Ok(part)
    }

    /// Makes a part test of the stored cell `cell`. Returns the part of its slim cell; `None` iff the cell has no
    /// point. The lines of the test are appended; the test is not counted.
    ///
    /// # Errors
    ///
    /// `Limit` iff the slim cell has more than 32 half-spaces.
    pub(crate) fn held_part(&mut self, alloc: Global, cell: &Held) -> Result<Option<Part>, OpFault>
        ensures makes { Makes (λ o. o) result self.old self.new (part_test cell.now) }
        ensures made { IfOk result (λ o. IsMadeOf IsPart cell.now o) }
    {
        match cell.strict() {
            Strict::Inside(points) => {
                let part = self.slim_part(alloc, cell, points)?;
                Ok(Some(part))
            }
            Strict::Outside(terms) => {
                self.tell(Proof::Out(terms))?;
                Ok(None)
            }
        }
    }

    /// Returns the part of the slim cell of `cell`, in which a strict test has found `points`. The lines of the test
    /// and of the part are appended.
    ///
    /// # Errors
    ///
    /// `Limit` iff the slim cell has more than 32 half-spaces.
    fn slim_part(&mut self, alloc: Global, cell: &Held, points: Inside) -> Result<Part, OpFault>
        requires found { first_inside cell.now ≡ Some points }
        requires line { in_line points ≡ strict_line cell.now }
        requires member { IsNonempty (shape_of_cell cell.now) }
        ensures makes { Makes Some result self.old self.new (part_test cell.now) }
        ensures made { IfOk result (λ part. IsMadeOf IsPart cell.now (Some part)) }
    {
        let Slimmed { kept, dropped } = slim_exactly(alloc, cell)?;
        if kept.items().len() > MAX_HALVES {
            return Err(OpFault::Limit);
        }
        self.tell_found(points, dropped)?;
        let Sides { bounds, proofs } = cell.sides(kept.items());
        self.tell_box(bounds, proofs)?;
        Ok(Part::of_slim(kept, bounds))
    }

    /// Appends the line of the `points` that were found in a cell, and then a line for each redundant half-space of
    /// `dropped`.
    fn tell_found(&mut self, points: Inside, dropped: Drops) -> Result<(), AllocError>
        ensures { Makes (λ x. x) (op_result result) self.old self.new (telling (in_line points ∷ map drop_line_of dropped.items)) }
    {
        self.tell(Proof::In(points))?;
        for DroppedHalf { half, terms } in dropped.into_items() {
            self.tell(Proof::Dropped(half, terms))?;
        }
        Ok(())
    }

    /// Appends the line of the box `bounds`, and then the lines `proofs` of its sides.
    fn tell_box(&mut self, bounds: IntBox, proofs: SideProofs) -> Result<(), AllocError>
        ensures { Makes (λ x. x) (op_result result) self.old self.new (telling (box_line (integer_box bounds) ∷ map side_line_of proofs)) }
    {
        self.tell(Proof::Bounds(bounds))?;
        for terms in proofs.into_items() {
            self.tell(Proof::Out(terms))?;
        }
        Ok(())
    }
}

/// Returns the slim cell of `cell`, as `Held::slim` does, in a list with room for no more half-spaces: a part is stored
/// for long.
fn slim_exactly(alloc: Global, cell: &Held) -> Result<Slimmed, AllocError>
    ensures kept { IfOk result (λ slim. slim.kept.items ≡ (slimmed cell.now).kept) }
    ensures lines { IfOk result (λ slim. map drop_line_of slim.dropped.items ≡ (slimmed cell.now).lines) }
    ensures members { IfOk result (λ slim. SameMembers (shape_of_cell slim.kept.items) (shape_of_cell cell.now)) }
    ensures part { IfOk result (λ slim. IsNonempty (shape_of_cell cell.now) → length slim.kept.items ≤ most_half_spaces → IsPart (part_of (slimmed cell.now))) }
{
    let Slimmed { kept, dropped } = cell.slim(alloc)?;
    Ok(Slimmed {
        kept: Cell::copy_of(alloc, kept.items())?,
        dropped,
    })
}
