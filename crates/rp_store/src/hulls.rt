//! The boxes around forms.
ghost use Rattle.std.specs.Prelude.{◌≡◌, map};
ghost use Rattle.rp_space.specs.Boxes.{integer_box};
ghost use Rattle.rp_proximity.specs.Hulls.{joined};
ghost use Rattle.rp_lotindex.specs.Indexed.{hull_of_parts};

use crate::forms::Forms;
use rp_space::IntBox;

/// Returns the least box around the boxes of a form's parts; around none it is that of the cube.
pub(crate) fn hull_of<F: Forms>(form: &F::Form) -> IntBox
    ensures { integer_box result ≡ hull_of_parts (F.parts_of form.now) }
{
    match F::parts(form) {
        [] => IntBox::cube(),
        [first, rest @ ..] => joined::<F>(first, rest),
    }
}

/// Returns the least box around the boxes of a part and of further ones.
fn joined<F: Forms>(first: &F::Part, rest: &[F::Part]) -> IntBox
    ensures { integer_box result ≡ joined (F.seen first.now).bounds (map (λ p. (F.seen p).bounds) rest.now) }
{
    let mut hull = *F::bounds(first);
    for part in rest {
        hull = hull.union(F::bounds(part));
    }
    hull
}
