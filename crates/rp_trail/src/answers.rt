//! The tests of a row, answered by the next lines of a report.
ghost use Rattle.std.specs.Prelude.{◌≡◌, ◌∷◌, [], IfOk, map, true};
ghost use Rattle.rp_geometry.specs.Geometry.{is_cube_point};
ghost use Rattle.rp_geometry.specs.sets.Shape.{passes, shape_of_parts};
ghost use Rattle.rp_geometry.specs.parts.PartTest.{whole_part};
ghost use Rattle.rp_reports.specs.Check.{line_tester};

use crate::difference::subtract;
use crate::form::{Form, common, copy, differed, joined, touching};
use crate::kept::Kept;
use crate::member::passes_form;
use crate::part::made;
use crate::prism::prismed;
use crate::trail::Trail;
use rp_oracle::{MAX_PARTS, Oracle, Stopped};
use rp_space::{Corner, Half, Halves, IntBox, Point};
use std::alloc::{AllocError, Global};

impl<'a> Oracle for Trail<'a> {
    type Part = Kept;

    type Form = Form;

    ghost tester = { line_tester };

    ghost seen = { λ part. part };

    ghost parts_of = { λ form. form.items };

    fn parts(form: &Form) -> &[Kept]
        ensures { map (λ part. part) result.now ≡ form.now.items }
    {
        form.items()
    }

    fn into_parts(form: Form) -> Vec<Kept>
        ensures { map (λ part. part) result.items ≡ form.items }
    {
        form.into_items()
    }

    fn into_halves(part: Kept) -> Halves
        ensures { result.items ≡ part.cell }
    {
        part.halves
    }

    fn whole(alloc: Global) -> Result<Form, AllocError>
        ensures { IfOk result (λ form. form.items ≡ whole_part ∷ []) }
    {
        let mut form = Form::new(alloc);
        form.push(whole_part(alloc))?;
        Ok(form)
    }

    fn none(alloc: Global) -> Form
        ensures { result.items ≡ [] }
    {
        Form::new(alloc)
    }

    fn copy(alloc: Global, form: &Form) -> Result<Form, AllocError>
        ensures { IfOk result (λ again. again.items ≡ form.now.items) }
    {
        copy(alloc, form)
    }

    fn holds(form: &Form, point: &Point) -> bool
        requires { is_cube_point point.now ≡ true }
        ensures { result ≡ passes (shape_of_parts form.now.items) point.now }
    {
        passes_form(form, point)
    }

    fn count(&mut self, n: u64) -> bool {
        self.count(n)
    }

    fn has_point(&mut self, _alloc: Global, part: &Kept) -> Result<bool, Stopped> {
        self.strict(part.cell(), &[])
    }

    fn are_in_contact(
        &mut self,
        _alloc: Global,
        first: &Kept,
        second: &Kept,
    ) -> Result<bool, Stopped> {
        self.weak(first.cell(), second.cell())
    }

    fn overlap(&mut self, _alloc: Global, a: &Form, b: &Form) -> Result<bool, Stopped> {
        common(a, b, false, self)
    }

    fn contact(&mut self, _alloc: Global, a: &Form, b: &Form) -> Result<bool, Stopped> {
        touching(a, b, false, self)
    }

    fn minus(&mut self, alloc: Global, a: &Form, b: &Form) -> Result<Form, Stopped> {
        differed(alloc, a, b, self)
    }

    fn into_minus(&mut self, alloc: Global, first: Form, other: &Form) -> Result<Form, Stopped> {
        subtract(alloc, first, other.items(), self)
    }

    fn both(&mut self, alloc: Global, a: &Form, b: &Form) -> Result<Form, Stopped> {
        joined(alloc, a, b, self)
    }

    fn either(&mut self, first: Form, second: Form) -> Result<Form, Stopped> {
        if first.items().len() + second.items().len() > MAX_PARTS {
            return Err(Stopped::Limit);
        }
        let mut form = first;
        form.append(second)?;
        Ok(form)
    }

    fn of_cell(&mut self, alloc: Global, cell: &[Half]) -> Result<Form, Stopped> {
        let mut form = Form::new(alloc);
        if let Some(part) = made(alloc, cell, self)? {
            form.push(part)?;
        }
        Ok(form)
    }

    fn of_prism(
        &mut self,
        alloc: Global,
        low: i32,
        high: i32,
        corners: &[Corner],
    ) -> Result<Form, Stopped> {
        prismed(alloc, low, high, corners, self)
    }
}

/// Returns the whole cube as a part, which has no half-space. Takes no memory.
fn whole_part(alloc: Global) -> Kept
    ensures { result ≡ whole_part }
{
    Kept {
        halves: Halves::new(alloc),
        bounds: IntBox::cube(),
    }
}
