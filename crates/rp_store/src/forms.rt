//! What is kept under a name, or of a lot.
ghost use Rattle.std.specs.Prelude.{◌≡◌, List, map};
ghost use Rattle.rp_geometry.specs.sets.Shape.{Part};
ghost use Rattle.rp_model.specs.commands.Parts.{is_in_parts};
ghost use Rattle.rp_space.specs.Boxes.{integer_box};

use rp_space::{IntBox, Point};

/// Forms that are kept: lists of parts, each with a box, which need not hold its members.
///
/// A contract sees in `seen` a part and in `parts_of` a form as the model has it.
pub trait Forms: Sized {
    /// A part.
    type Part: Drop;

    /// A list of parts.
    type Form: Drop;

    ghost seen: { Self.Part → Part };

    ghost parts_of: { Self.Form → List Part };

    /// Returns the parts in order.
    fn parts(form: &Self::Form) -> &[Self::Part]
        ensures { map seen result.now ≡ parts_of form.now };

    /// Returns the box of a part.
    fn bounds(part: &Self::Part) -> &IntBox
        ensures { integer_box result.now ≡ (seen part.now).bounds };

    /// Returns whether a point lies in the cube and in one of the parts.
    fn holds(form: &Self::Form, point: &Point) -> bool
        ensures { result ≡ is_in_parts (parts_of form.now) point.now };
}
