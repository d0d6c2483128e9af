//! The boxes of lots that end, moved into the cube for the lines in which they lived.
ghost use Rattle.std.specs.Prelude.{◌≡◌, ◌≤◌, length, map};
ghost use Rattle.rp_language.specs.Name.{label_eq, is_among};
ghost use Rattle.rp_model.specs.states.State.{most_kept_parts};
ghost use Rattle.rp_history.specs.Parts.{lots_with_parts};
ghost use Rattle.rp_lotindex.specs.Indexed.{index_of, AreSettled};

use crate::boxes::FormBoxes;
use crate::forms::Forms;
use rp_history::History;
use rp_lists::Name;
use rp_lotindex::LotBoxes;

/// Moves the boxes of the lots `ids`, as far as they have boxes. `forms` are the forms of all lots. Takes no memory.
pub(crate) fn settle_all<F: Forms>(
    boxes: &mut LotBoxes,
    history: &History,
    forms: &[F::Form],
    ids: &[Name],
)
    requires each { length history.now ≡ length forms.now }
    requires few { length history.now ≤ most_kept_parts }
    ensures { AreSettled (lots_with_parts history.now (map F.parts_of forms.now)) (λ y. is_among y ids.now) (index_of boxes.old) (index_of boxes.new) }
{
    for id in ids {
        settle::<F>(boxes, history, forms, id);
    }
}

/// Moves the boxes of the lot `id`.
fn settle<F: Forms>(boxes: &mut LotBoxes, history: &History, forms: &[F::Form], id: &Name)
    requires each { length history.now ≡ length forms.now }
    requires few { length history.now ≤ most_kept_parts }
    ensures { AreSettled (lots_with_parts history.now (map F.parts_of forms.now)) (λ y. label_eq y id.now) (index_of boxes.old) (index_of boxes.new) }
{
    if let Some(place) = history.place_of(id) {
        let form = &forms[place];
        boxes.settle(place, &history.lots()[place], &FormBoxes::<F> { form });
    }
}
