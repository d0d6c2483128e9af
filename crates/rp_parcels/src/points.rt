//! The parcel that has a point.
ghost use Rattle.std.specs.Prelude.{◌≡◌, filter};
ghost use Rattle.rp_model.specs.states.State.{live_lots, lots_of_layer, alive_after};
ghost use Rattle.rp_model.specs.commands.At.{owner_line};
ghost use Rattle.rp_proximity.specs.There.{is_there, owner_verdict};
ghost use Rattle.rp_parcels.specs.Kept.{AreSound};
ghost use Rattle.rp_parcels.specs.Points.{IsOnlyOwner};

use crate::parcels::Parcels;
use rp_boxindex::Quiet;
use rp_lists::Name;
use rp_proximity::Moment;
use rp_space::Point;

impl Parcels {
    /// Returns the one live parcel of `layer` that has `p`; `None` iff there is none. Takes no memory.
    pub fn at(&self, layer: Name, p: &Point) -> Option<Name>
        ensures row { owner_verdict result ≡ owner_line (lots_of_layer layer (live_lots self.now)) p.now }
        ensures only { IsOnlyOwner (lots_of_layer layer (live_lots self.now)) p.now result }
    {
        self.owner(&layer, Moment::Now, p)
    }

    /// Returns the first parcel of `layer` that is alive after `line` and has `p`; `None` iff there is none. Takes no
    /// memory.
    pub fn at_line(&self, layer: Name, line: u32, p: &Point) -> Option<Name>
        ensures { owner_verdict result ≡ owner_line (lots_of_layer layer (alive_after line self.now)) p.now }
    {
        self.owner(&layer, Moment::After(line), p)
    }

    /// Returns the first parcel of `layer` that is there at `moment` and has `p`. No walk over all parcels is made.
    fn owner(&self, layer: &Name, moment: Moment, p: &Point) -> Option<Name>
        ensures sound { AreSound self.now }
        ensures row { owner_verdict result ≡ owner_line (lots_of_layer layer.now (filter (is_there moment) self.now)) p.now }
    {
        self.lots().owner(&Quiet, layer, moment, p)
    }
}
