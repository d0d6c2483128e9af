//! Things that have boxes.
ghost use Rattle.std.specs.Prelude.{◌≡◌, ◌<◌, ◌≤◌, List, length, slice_get, Some};
ghost use Rattle.rp_geometry.specs.Geometry.{IntegerBox};
ghost use Rattle.rp_space.specs.Boxes.{integer_box};

use rp_space::IntBox;

/// A thing with at most 16 boxes that together contain it: those of the parts of a form, or one box around all parts.
pub trait Bounded {
    ghost boxes: { Self → List IntegerBox };

    /// Returns the number of boxes, at most 16.
    fn count(&self) -> usize
        ensures value { result ≡ length (boxes self.now) }
        ensures few { result ≤ 16 };

    /// Returns the box with the index `number`, from 0 on.
    fn bounds(&self, number: usize) -> IntBox
        requires { number < length (boxes self.now) }
        ensures { slice_get (boxes self.now) number ≡ Some (integer_box result) };
}
