//! The form of a prism, followed line by line.
ghost use Rattle.std.specs.Prelude.{IfOk};
ghost use Rattle.rp_geometry.specs.sets.Prism.{IsPrism};
ghost use Rattle.rp_geometry.specs.sets.Shape.{Shape};
ghost use Rattle.rp_geometry.specs.parts.Parts.{AreOf, IsCheckedPart};
ghost use Rattle.rp_space.specs.Corners.{prism_of};
ghost use Rattle.rp_reports.specs.Check.{line_tester};
ghost use Rattle.rp_semantics.specs.Form.{prism_form, exchange_cell, exchange_lists};
ghost use Rattle.rp_oracle.specs.Refines.{Refines};

use crate::form::{Form, differed};
use crate::part::made;
use crate::trail::Trail;
use rp_footprint::trapezoid;
use rp_oracle::{MAX_PARTS, Stopped};
use rp_space::{Corner, Half};
use std::alloc::Global;

/// Returns the form of the polygon over `corners` raised from `z1` to below `z2`, on the next lines of `trail`. For
/// each edge whose ends have two x, a part test of its trapezoid is taken, and the two differences that exchange its
/// part with the parts so far. The tests of the differences are counted, the part tests are not. There are from 1 to
/// 256 corners, and all numbers are within their bounds.
///
/// # Errors
///
/// * `Limit` iff too many tests are counted, a part would have more than 32 half-spaces, or more than 1,024 parts are
///   left after an edge or during a difference;
/// * `LimitReported` or `Wrong` if the next line is not the one that is due;
/// * `Memory` if memory runs out.
pub fn prismed(
    alloc: Global,
    z1: i32,
    z2: i32,
    corners: &[Corner],
    trail: &mut Trail<'_>,
) -> Result<Form, Stopped>
    requires { IsPrism (prism_of z1 z2 corners.now) }
    ensures comes { Refines (λ form. form.items) result trail.new (prism_form line_tester (prism_of z1 z2 corners.now) trail.old) }
    ensures members { IfOk result (λ form. AreOf IsCheckedPart (Shape.prism (prism_of z1 z2 corners.now)) form.items) }
{
    let mut current = Form::new(alloc);
    for k in 0..corners.len() {
        let cell = trapezoid(z1, z2, corners, k);
        current = exchange_cell(alloc, current, cell, trail)?;
    }
    Ok(current)
}

/// Exchanges the part of `cell`, if it has a point, with the parts so far.
fn exchange_cell(
    alloc: Global,
    current: Form,
    cell: Option<[Half; 6]>,
    trail: &mut Trail<'_>,
) -> Result<Form, Stopped>
    ensures { Refines (λ form. form.items) result trail.new (exchange_cell line_tester current.items cell trail.old) }
{
    let Some(halves) = cell else {
        return Ok(current);
    };
    let Some(part) = made(alloc, &halves, trail)? else {
        return Ok(current);
    };
    let mut new = Form::new(alloc);
    new.push(part)?;
    exchange(alloc, &current, &new, trail)
}

/// Returns the symmetric difference of two lists of parts: the first without the second, and then the second without
/// the first.
fn exchange(
    alloc: Global,
    current: &Form,
    new: &Form,
    trail: &mut Trail<'_>,
) -> Result<Form, Stopped>
    ensures { Refines (λ form. form.items) result trail.new (exchange_lists line_tester current.now.items new.now.items trail.old) }
{
    let mut form = differed(alloc, current, new, trail)?;
    let added = differed(alloc, new, current, trail)?;
    if form.items().len() + added.items().len() > MAX_PARTS {
        return Err(Stopped::Limit);
    }
    form.append(added)?;
    Ok(form)
}
