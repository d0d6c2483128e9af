//! The answers of a search to the tests of a row.
ghost use Rattle.rp_semantics.specs.Walk.{first_tester};

use crate::fault::OpFault;
use crate::part::Part;
use crate::region::Region;
use crate::work::Work;
use rp_oracle::{Oracle, Stopped};
use rp_space::{Corner, Half, Halves, Point};
use std::alloc::{AllocError, Global};

impl From<OpFault> for Stopped {
    ghost use Rattle.std.specs.Prelude.{◌≡◌};
    ghost use Rattle.rp_region.specs.Stops.{stop_of};

    ghost from_gives = { λ x e. e ≡ stop_of x };

    fn from(fault: OpFault) -> Stopped {
        match fault {
            OpFault::Limit => Stopped::Limit,
            OpFault::Memory(fault) => Stopped::Memory(fault),
        }
    }
}

impl Oracle for Work {
    type Part = Part;

    type Form = Region;

    ghost tester = { first_tester };

    ghost seen = { λ part. part };

    ghost parts_of = { λ form. form };

    fn parts(form: &Region) -> &[Part] {
        form.parts()
    }

    fn into_parts(form: Region) -> Vec<Part> {
        form.into_parts()
    }

    fn into_halves(part: Part) -> Halves {
        part.into_halves()
    }

    fn whole(alloc: Global) -> Result<Region, AllocError> {
        Region::all(alloc)
    }

    fn none(alloc: Global) -> Region {
        Region::none(alloc)
    }

    fn copy(alloc: Global, form: &Region) -> Result<Region, AllocError> {
        form.copy(alloc)
    }

    fn holds(form: &Region, point: &Point) -> bool {
        form.holds(point)
    }

    fn count(&mut self, n: u64) -> bool {
        self.count(n)
    }

    fn has_point(&mut self, alloc: Global, part: &Part) -> Result<bool, Stopped> {
        Ok(self.strict(alloc, part.halves(), &[])?.is_some())
    }

    fn are_in_contact(
        &mut self,
        _alloc: Global,
        first: &Part,
        second: &Part,
    ) -> Result<bool, Stopped> {
        Ok(self.are_in_contact(first, second)?)
    }

    fn overlap(&mut self, alloc: Global, a: &Region, b: &Region) -> Result<bool, Stopped> {
        Ok(a.first_common(alloc, b, false, self)?.is_some())
    }

    fn contact(&mut self, alloc: Global, a: &Region, b: &Region) -> Result<bool, Stopped> {
        Ok(a.first_touch(alloc, b, false, self)?.is_some())
    }

    fn minus(&mut self, alloc: Global, a: &Region, b: &Region) -> Result<Region, Stopped> {
        Ok(a.minus(alloc, b, self)?)
    }

    fn into_minus(
        &mut self,
        alloc: Global,
        first: Region,
        other: &Region,
    ) -> Result<Region, Stopped> {
        Ok(first.into_minus(alloc, other, self)?)
    }

    fn both(&mut self, alloc: Global, a: &Region, b: &Region) -> Result<Region, Stopped> {
        Ok(a.both(alloc, b, self)?)
    }

    fn either(&mut self, first: Region, second: Region) -> Result<Region, Stopped> {
        Ok(first.into_either(second, self)?)
    }

    fn of_cell(&mut self, alloc: Global, cell: &[Half]) -> Result<Region, Stopped> {
        Ok(Region::of_cell(alloc, cell, self)?)
    }

    fn of_prism(
        &mut self,
        alloc: Global,
        low: i32,
        high: i32,
        corners: &[Corner],
    ) -> Result<Region, Stopped> {
        Ok(Region::of_prism(alloc, low, high, corners, self)?)
    }
}
