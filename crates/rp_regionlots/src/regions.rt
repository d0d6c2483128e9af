//! Regions are kept.
ghost use Rattle.std.specs.Prelude.{◌≡◌};
ghost use Rattle.rp_model.specs.commands.Parts.{is_in_parts};

use rp_region::{Part, Region};
use rp_space::{IntBox, Point};
use rp_store::Forms;

/// Regions, as they are kept under names and of lots.
#[derive(Drop)]
pub struct Regions;

impl Forms for Regions {
    type Part = Part;

    type Form = Region;

    ghost seen = { λ part. part };

    ghost parts_of = { λ form. form };

    fn parts(form: &Region) -> &[Part] {
        form.parts()
    }

    fn bounds(part: &Part) -> &IntBox {
        part.bounds()
    }

    fn holds(form: &Region, point: &Point) -> bool
        ensures { result ≡ is_in_parts form.now point.now }
    {
        form.holds(point)
    }
}
