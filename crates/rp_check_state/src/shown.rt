//! Forms that the lines of a report show are kept.
ghost use Rattle.std.specs.Prelude.{◌≡◌, map};
ghost use Rattle.rp_model.specs.commands.Parts.{is_in_parts};
ghost use Rattle.rp_space.specs.Boxes.{integer_box};

use rp_space::{IntBox, Point};
use rp_store::Forms;
use rp_trail::{Form, Kept, holds};

/// Forms as the lines of a report show them, as they are kept under names and of lots.
#[derive(Drop)]
pub(crate) struct Shown;

impl Forms for Shown {
    type Part = Kept;

    type Form = Form;

    ghost seen = { λ part. part };

    ghost parts_of = { λ form. form.items };

    fn parts(form: &Form) -> &[Kept]
        ensures { map (λ part. part) result.now ≡ form.now.items }
    {
        form.items()
    }

    fn bounds(part: &Kept) -> &IntBox
        ensures { integer_box result.now ≡ part.now.bounds }
    {
        &part.bounds
    }

    fn holds(form: &Form, point: &Point) -> bool
        ensures { result ≡ is_in_parts form.now.items point.now }
    {
        holds(form, point)
    }
}
