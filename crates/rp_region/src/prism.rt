//! The region of a prism. The trapezoids of its edges are combined one after the other by symmetric difference.
ghost use Rattle.std.specs.Prelude.{◌≡◌, ◌∷◌, [], IfOk};
ghost use Rattle.rp_geometry.specs.sets.Prism.{IsPrism};
ghost use Rattle.rp_geometry.specs.sets.Shape.{Shape, shape_of_parts};
ghost use Rattle.rp_geometry.specs.sets.Sets.{SameMembers};
ghost use Rattle.rp_semantics.specs.Walk.{first_tester};
ghost use Rattle.rp_semantics.specs.Form.{prism_form, exchange_cell, exchange_lists};
ghost use Rattle.rp_space.specs.Corners.{prism_of};
ghost use Rattle.rp_region.specs.Makes.{Makes};

use crate::fault::OpFault;
use crate::region::Region;
use crate::work::Work;
use rp_footprint::trapezoid;
use rp_space::{Corner, Half};
use std::alloc::Global;

impl Region {
    /// Returns the region of the polygon over `corners` raised from `z1` to below `z2`, by tests of `work`. There are
    /// from 1 to 256 corners, and all numbers are within their bounds.
    ///
    /// A part test makes the part of the trapezoid of each edge whose ends differ in x. Then the parts so far are
    /// replaced by their symmetric difference with this part: first the rest of them outside it, and then its rest
    /// outside them. The part tests are not counted; the tests of the differences are.
    ///
    /// # Errors
    ///
    /// - `Limit` iff too many tests are counted, a part would have more than 32 half-spaces, or more than 1,024 parts
    ///   are left: after an edge, or in the course of a difference.
    /// - `Memory` for want of memory.
    pub fn of_prism(
        alloc: Global,
        z1: i32,
        z2: i32,
        corners: &[Corner],
        work: &mut Work,
    ) -> Result<Region, OpFault>
        requires { IsPrism (prism_of z1 z2 corners.now) }
        ensures makes { Makes (λ region. region) result work.old work.new (prism_form first_tester (prism_of z1 z2 corners.now)) }
        ensures members { IfOk result (λ region. SameMembers (shape_of_parts region) (Shape.prism (prism_of z1 z2 corners.now))) }
    {
        let mut current = Region::none(alloc);
        for k in 0..corners.len() {
            let cell = trapezoid(z1, z2, corners, k);
            current = current.exchange_cell(alloc, cell, work)?;
        }
        Ok(current)
    }

    /// Returns the symmetric difference of the region and the part of `cell`. If there is no `cell`, or it has no
    /// point, the region stays as it is.
    fn exchange_cell(
        self,
        alloc: Global,
        cell: Option<[Half; 6]>,
        work: &mut Work,
    ) -> Result<Region, OpFault>
        ensures { Makes (λ region. region) result work.old work.new (exchange_cell first_tester self cell) }
    {
        let Some(halves) = cell else {
            return Ok(self);
        };
        let Some(part) = work.part_test(alloc, &halves)? else {
            return Ok(self);
        };
        let made = Region::of_part(alloc, part)?;
        self.exchange(alloc, made, work)
    }

    /// Returns the symmetric difference of the region and `made`: first the rest of the region outside `made`, and then
    /// the rest of `made` outside the region.
    fn exchange(self, alloc: Global, made: Region, work: &mut Work) -> Result<Region, OpFault>
        ensures { Makes (λ region. region) result work.old work.new (exchange_lists first_tester self made) }
    {
        let outside = self.minus(alloc, &made, work)?;
        let added = made.into_minus(alloc, &self, work)?;
        outside.into_either(added, work)
    }
}
