//! Regions and their algebra.
ghost use Rattle.std.specs.Prelude.{◌≡◌, ◌≤◌, ◌∷◌, [], ◌++◌, ◌↔◌, length, is_some, IsSome, IfOk, IfSome};
ghost use Rattle.std.specs.List.{list_any};
ghost use Rattle.rp_geometry.specs.Geometry.{all_hold};
ghost use Rattle.rp_geometry.specs.sets.Shape.{Shape, is_member, shape_of_cell, shape_of_parts};
ghost use Rattle.rp_geometry.specs.sets.Sets.{SameMembers, Overlaps};
ghost use Rattle.rp_geometry.specs.sets.Contact.{IsInContact};
ghost use Rattle.rp_geometry.specs.searches.ProofLine.{in_line, at_line};
ghost use Rattle.rp_geometry.specs.parts.PartTest.{whole_part};
ghost use Rattle.rp_geometry.specs.parts.Parts.{IsRegion, most_parts};
ghost use Rattle.rp_semantics.specs.Walk.{first_tester};
ghost use Rattle.rp_semantics.specs.Form.{if_at_most, join, subtract, subtract_from_whole, parts_of_cell};
ghost use Rattle.rp_region.specs.Makes.{Makes};
ghost use Rattle.rp_region.specs.Pairs.{common_by, touch_by, first_pair_by, IsLast};

use crate::difference::subtract;
use crate::fault::OpFault;
use crate::join::join_each;
use crate::pairs::first_pair;
use crate::part::Part;
use crate::witness::Witness;
use crate::work::Work;
use rp_lists::Listed;
use rp_oracle::MAX_PARTS;
use rp_space::{Half, Inside, Point};
use std::alloc::{AllocError, Global};
use std::marker::Model;

/// A region of space: a list of at most 1,024 parts. Its members are the members of all parts.
#[derive(Drop)]
pub struct Region {
    parts: Listed<Part>,
}

impl Model for Region {
    ghost use Rattle.std.specs.Prelude.{List};
    ghost use Rattle.rp_geometry.specs.sets.Shape.{Part};
    ghost use Rattle.rp_geometry.specs.parts.Parts.{IsRegion};

    ghost Value = { List Part };

    ghost view = { λ a. a.parts.items };

    ghost invariant = { λ a. IsRegion a.parts.items };
}

impl Region {
    /// Returns the region without parts. Takes no memory.
    pub fn none(alloc: Global) -> Region
        ensures { result ≡ [] }
    {
        Region {
            parts: Listed::new(alloc),
        }
    }

    /// Returns the whole cube: one part without half-spaces.
    ///
    /// # Errors
    ///
    /// `AllocError` for want of memory.
    pub fn all(alloc: Global) -> Result<Region, AllocError>
        ensures { IfOk result (λ region. region ≡ whole_part ∷ []) }
    {
        let mut parts = Listed::new(alloc);
        parts.push(Part::whole(alloc))?;
        Ok(Region { parts })
    }

    /// Returns the region of one part.
    pub(crate) fn of_part(alloc: Global, part: Part) -> Result<Region, AllocError>
        ensures { IfOk result (λ region. region ≡ part ∷ []) }
    {
        let mut parts = Listed::new(alloc);
        parts.push(part)?;
        Ok(Region { parts })
    }

    /// Returns the region of `cell`, of at most 64 half-spaces: the part that one part test of `work` makes of it, or
    /// no part if the cell has no point. The test is not counted.
    ///
    /// # Errors
    ///
    /// - `Limit` iff more than 32 half-spaces are left of the cell without the redundant ones.
    /// - `Memory` for want of memory.
    pub fn of_cell(alloc: Global, cell: &[Half], work: &mut Work) -> Result<Region, OpFault>
        requires { length cell.now ≤ 64 }
        ensures makes { Makes (λ region. region) result work.old work.new (parts_of_cell first_tester cell.now) }
        ensures members { IfOk result (λ region. SameMembers (shape_of_parts region) (shape_of_cell cell.now)) }
    {
        let mut parts = Listed::new(alloc);
        if let Some(part) = work.part_test(alloc, cell)? {
            parts.push(part)?;
        }
        Ok(Region { parts })
    }

    /// Returns the intersection of the region and `other`, by a part test of `work` of each part of the region with
    /// each part of `other`. As many tests are counted as there are pairs.
    ///
    /// # Errors
    ///
    /// - `Limit` iff too many tests are counted, a part would have more than 32 half-spaces, or more than 1,024 parts
    ///   are made.
    /// - `Memory` for want of memory.
    pub fn both(&self, alloc: Global, other: &Region, work: &mut Work) -> Result<Region, OpFault>
        ensures makes { Makes (λ region. region) result work.old work.new (join first_tester self.now other.now) }
        ensures members { IfOk result (λ region. SameMembers (shape_of_parts region) (Shape.intersection (shape_of_parts self.now) (shape_of_parts other.now))) }
    {
        let first = self.parts.items();
        let second = other.parts.items();
        if !work.count(first.len() as u64 * second.len() as u64) {
            return Err(OpFault::Limit);
        }
        let mut parts = Listed::new(alloc);
        join_each(alloc, &mut parts, first, second, work)?;
        Ok(Region { parts })
    }

    /// Returns the union of the region and `other`: the parts of the region, and then the parts of `other`. No test of
    /// `work` is made.
    ///
    /// # Errors
    ///
    /// - `Limit` iff the two have more than 1,024 parts together.
    /// - `Memory` for want of memory.
    pub fn either(&self, alloc: Global, other: &Region, work: &mut Work) -> Result<Region, OpFault>
        ensures makes { Makes (λ region. region) result work.old work.new (if_at_most most_parts (self.now ++ other.now)) }
        ensures members { IfOk result (λ region. SameMembers (shape_of_parts region) (Shape.union (shape_of_parts self.now) (shape_of_parts other.now))) }
    {
        let first = self.copy(alloc)?;
        first.into_either(other.copy(alloc)?, work)
    }

    /// Returns the union of the region and `other`, as [`Region::either`] does, with the parts of both moved. No test
    /// of `work` is made.
    ///
    /// # Errors
    ///
    /// - `Limit` iff the two have more than 1,024 parts together.
    /// - `Memory` for want of memory.
    pub fn into_either(self, other: Region, work: &mut Work) -> Result<Region, OpFault>
        ensures makes { Makes (λ region. region) result work.old work.new (if_at_most most_parts (self ++ other)) }
        ensures members { IfOk result (λ region. SameMembers (shape_of_parts region) (Shape.union (shape_of_parts self) (shape_of_parts other))) }
    {
        // No test is made, so the work stays as it is.
        let _ = work;
        let mut parts = self.parts;
        let more = other.parts;
        if parts.items().len() + more.items().len() > MAX_PARTS {
            return Err(OpFault::Limit);
        }
        parts.append(more)?;
        Ok(Region { parts })
    }

    /// Returns the difference of the region and `other`: each part of `other` is subtracted in turn, by tests of
    /// `work`.
    ///
    /// # Errors
    ///
    /// - `Limit` iff too many tests are counted, a part would have more than 32 half-spaces, or more than 1,024 parts
    ///   are left after a part of `other`.
    /// - `Memory` for want of memory.
    pub fn minus(&self, alloc: Global, other: &Region, work: &mut Work) -> Result<Region, OpFault>
        ensures makes { Makes (λ region. region) result work.old work.new (subtract first_tester self.now other.now) }
        ensures members { IfOk result (λ region. SameMembers (shape_of_parts region) (Shape.difference (shape_of_parts self.now) (shape_of_parts other.now))) }
    {
        let first = self.copy(alloc)?;
        first.into_minus(alloc, other, work)
    }

    /// Returns the difference of the region and `other`, by tests of `work`, as [`Region::minus`] does. Parts of the
    /// region that do not change are moved.
    ///
    /// # Errors
    ///
    /// The errors of [`Region::minus`].
    pub fn into_minus(
        self,
        alloc: Global,
        other: &Region,
        work: &mut Work,
    ) -> Result<Region, OpFault>
        ensures makes { Makes (λ region. region) result work.old work.new (subtract first_tester self other.now) }
        ensures members { IfOk result (λ region. SameMembers (shape_of_parts region) (Shape.difference (shape_of_parts self) (shape_of_parts other.now))) }
    {
        let parts = subtract(alloc, self.parts, other.parts.items(), work)?;
        Ok(Region { parts })
    }

    /// Returns the complement of the region: the rest of the cube outside it, by tests of `work`.
    ///
    /// # Errors
    ///
    /// The errors of [`Region::minus`] for the cube and the region.
    pub fn outside(&self, alloc: Global, work: &mut Work) -> Result<Region, OpFault>
        ensures makes { Makes (λ region. region) result work.old work.new (subtract_from_whole first_tester self.now) }
        ensures members { IfOk result (λ region. SameMembers (shape_of_parts region) (Shape.complement (shape_of_parts self.now))) }
    {
        let whole = Region::all(alloc)?;
        whole.into_minus(alloc, self, work)
    }

    /// Returns an inside certificate of the first pair of parts that share a point; `None` iff the region and `other`
    /// share none. Each part of the region is tested with each part of `other`, up to the first pair that is found.
    ///
    /// With `near`, only the pairs are tested whose boxes share more than boundary, and nothing is counted. Otherwise
    /// as many tests are counted as there are pairs.
    ///
    /// # Errors
    ///
    /// - `Limit` iff too many tests are counted.
    /// - `Memory` for want of memory.
    pub fn first_common(
        &self,
        _alloc: Global,
        other: &Region,
        near: bool,
        work: &mut Work,
    ) -> Result<Option<Inside>, OpFault>
        ensures makes { Makes is_some result work.old work.new (common_by near self.now other.now) }
        ensures told { IfOk result (λ o. IfSome o (λ points. IsLast (in_line points) work.new.proofs)) }
        ensures found { IfOk result (λ o. IsSome o ↔ Overlaps (shape_of_parts self.now) (shape_of_parts other.now)) }
    {
        self.first_pair(other, near, work)
    }

    /// Returns a weak point of the first pair of parts that are in contact; `None` iff the region and `other` are not
    /// in contact. Each part of the region is tested with each part of `other`, up to the first pair that is found.
    ///
    /// With `near`, only the pairs are tested whose boxes share a point, the boundary included, and nothing is counted.
    /// Otherwise as many tests are counted as there are pairs.
    ///
    /// # Errors
    ///
    /// - `Limit` iff too many tests are counted.
    /// - `Memory` for want of memory.
    pub fn first_touch(
        &self,
        _alloc: Global,
        other: &Region,
        near: bool,
        work: &mut Work,
    ) -> Result<Option<Point>, OpFault>
        ensures makes { Makes is_some result work.old work.new (touch_by near self.now other.now) }
        ensures told { IfOk result (λ o. IfSome o (λ p. IsLast (at_line p) work.new.proofs)) }
        ensures found { IfOk result (λ o. IsSome o ↔ IsInContact (shape_of_parts self.now) (shape_of_parts other.now)) }
    {
        self.first_pair(other, near, work)
    }

    /// Returns a witness of the first pair of a part of the region and a part of `other` that meet, if there is one.
    ///
    /// # Errors
    ///
    /// `Limit` iff, without `near`, too many tests are counted: as many as there are pairs.
    fn first_pair<W: Witness>(
        &self,
        other: &Region,
        near: bool,
        work: &mut Work,
    ) -> Result<Option<W>, OpFault>
        ensures first { IsRegion self.now }
        ensures second { IsRegion other.now }
        ensures makes { Makes is_some result work.old work.new (first_pair_by near W.may_meet W.test self.now other.now) }
        ensures told { IfOk result (λ o. IfSome o (λ x. IsLast (W.line x) work.new.proofs)) }
    {
        let first = self.parts.items();
        let second = other.parts.items();
        if !near && !work.count(first.len() as u64 * second.len() as u64) {
            return Err(OpFault::Limit);
        }
        first_pair(first, second, near, work)
    }

    /// Returns a copy, with equal parts in the same order.
    ///
    /// # Errors
    ///
    /// `AllocError` for want of memory.
    pub fn copy(&self, alloc: Global) -> Result<Region, AllocError>
        ensures { IfOk result (λ region. region ≡ self.now) }
    {
        let mut parts = Listed::new(alloc);
        for part in self.parts.items() {
            parts.push(part.copy(alloc)?)?;
        }
        Ok(Region { parts })
    }

    /// Returns the parts in order, at most 1,024.
    pub fn parts(&self) -> &[Part]
        ensures value { result.now ≡ self.now }
        ensures few { length result.now ≤ most_parts }
        ensures kept { IsRegion self.now }
    {
        self.parts.items()
    }

    /// Returns the parts in order. Takes no memory.
    pub fn into_parts(self) -> Vec<Part>
        ensures { result.items ≡ self }
    {
        self.parts.into_items()
    }

    /// Returns whether `p` is a member: it is in the cube and in a part.
    pub fn holds(&self, p: &Point) -> bool
        ensures { result ≡ is_member (shape_of_parts self.now) p.now }
    {
        p.is_in_cube() && is_in_some(self.parts.items(), p)
    }
}

/// Returns whether `p` is in all half-spaces of one of `parts`.
fn is_in_some(parts: &[Part], p: &Point) -> bool
    ensures { result ≡ list_any (λ part. all_hold part.cell p.now) parts.now }
{
    parts.iter().any(|part| all_hold(part.halves(), p))
}

/// Returns whether `p` is in all of `halves`.
fn all_hold(halves: &[Half], p: &Point) -> bool
    ensures { result ≡ all_hold halves.now p.now }
{
    halves.iter().all(|half| half.holds(p))
}
