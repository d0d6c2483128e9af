//! The boxes of forms, as an index of lots keeps them.
ghost use Rattle.std.specs.Prelude.{◌≡◌, ◌+◌, ◌≤◌, map, length, OnOk, OnErr};
ghost use Rattle.rp_model.specs.states.State.{most_kept_parts};
ghost use Rattle.rp_history.specs.Parts.{new_lots};
ghost use Rattle.rp_lotindex.specs.Indexed.{boxes_of_parts, index_of, AreFree, AreBorn, AllStay};

use crate::forms::Forms;
use crate::hulls::hull_of;
use rp_history::Birth;
use rp_lotindex::{Bounded, LotBoxes};
use rp_space::IntBox;
use std::alloc::{AllocError, Global};

/// A form of at most so many parts has the box of each; one of more has the box around them.
const FEW: usize = 16;

/// The boxes of a form.
#[derive(Drop)]
pub(crate) struct FormBoxes<'a, F: Forms> {
    pub(crate) form: &'a F::Form,
}

impl<F: Forms> Bounded for FormBoxes<'_, F> {
    ghost boxes = { λ s. boxes_of_parts (F.parts_of s.form.now) };

    fn count(&self) -> usize {
        let parts = F::parts(self.form).len();
        if parts <= FEW { parts } else { 1 }
    }

    fn bounds(&self, number: usize) -> IntBox {
        let parts = F::parts(self.form);
        if parts.len() <= FEW {
            *F::bounds(&parts[number])
        } else {
            hull_of::<F>(self.form)
        }
    }
}

/// Takes the boxes of new lots with these forms into the indexes of their layers, in order: at the places from `first`
/// on, which have none yet. After `AllocError` all is as before.
pub(crate) fn add_all<F: Forms>(
    boxes: &mut LotBoxes,
    alloc: Global,
    first: usize,
    births: &[Birth],
    forms: &[F::Form],
) -> Result<(), AllocError>
    requires each { length births.now ≡ length forms.now }
    requires small { first + length forms.now ≤ most_kept_parts }
    requires free { AreFree (index_of boxes.old) first }
    ensures ok { OnOk result (AreBorn (index_of boxes.old) (index_of boxes.new) first (new_lots births.now (map F.parts_of forms.now))) }
    ensures err { OnErr result (AllStay (index_of boxes.old) (index_of boxes.new)) }
{
    for i in 0..forms.len() {
        let added = FormBoxes::<F> { form: &forms[i] };
        if let Err(error) = boxes.add(alloc, first + i, &births[i].layer, &added) {
            boxes.remove_all(first, &births[..i]);
            return Err(error);
        }
    }
    Ok(())
}
