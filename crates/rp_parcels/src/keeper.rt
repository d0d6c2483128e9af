//! The parcels as what keeps lots, for the rows that are written once.
ghost use Rattle.std.specs.Prelude.{◌≡◌, ◌<◌, ◌≤◌, ℕ, ◌+◌, [], IfOk, length, map, filter, drop, nat_le};
ghost use Rattle.std.specs.List.{AllByRecursion};
ghost use Rattle.rp_geometry.specs.parts.Parts.{most_parts};
ghost use Rattle.rp_semantics.specs.Walk.{Work as ModelWork, stopped, limit_met, most_tests, count_tests, first_tester};
ghost use Rattle.rp_semantics.specs.Form.{common_nearby};
ghost use Rattle.rp_space.specs.Boxes.{integer_box};
ghost use Rattle.rp_oracle.specs.Refines.{Refines};
ghost use Rattle.rp_model.specs.states.State.{bare_lot, parts_under_lots, most_kept_parts};
ghost use Rattle.rp_model.specs.commands.Parts.{lot_parts};
ghost use Rattle.rp_history.specs.Lots.{lots_in};
ghost use Rattle.rp_proximity.specs.Near.{others_in, is_near, lots_at, AreWithin};

use crate::parcels::Parcels;
use rp_boxindex::VisitCount;
use rp_history::History;
use rp_lists::{Listed, Name};
use rp_lots::{Keeper, Overlaps};
use rp_oracle::Stopped;
use rp_proximity::Reach;
use rp_region::{Part, Region, Work};
use rp_space::IntBox;
use std::alloc::{AllocError, Global};

/// The parcels, and where it is counted how many nodes of their index are visited.
#[derive(Drop)]
pub(crate) struct ParcelKeeper<'a> {
    pub parcels: &'a Parcels,
    pub visits: &'a VisitCount,
}

impl Keeper<Work> for ParcelKeeper<'_> {
    ghost state = { λ s. lots_in [] s.parcels.now };

    fn keep_limit(&self)
        ensures { (n : ℕ) (w : ModelWork) → most_tests < n → count_tests n w ≡ stopped limit_met w }
    {}

    fn bounds(part: &Part) -> &IntBox
        ensures { integer_box result.now ≡ part.now.bounds }
    {
        part.bounds()
    }

    fn history(&self) -> &History
        ensures value { result.now ≡ map bare_lot self.now.parcels.now }
        ensures few { length self.now.parcels.now ≤ most_kept_parts }
        ensures short { AllByRecursion (λ l. length l.parts ≤ most_parts) self.now.parcels.now }
    {
        self.parcels.history()
    }

    fn forms(&self) -> &[Region]
        ensures { map (λ form. form) result.now ≡ lot_parts self.now.parcels.now }
    {
        self.parcels.lots().forms()
    }

    fn near(
        &self,
        alloc: Global,
        form: &Region,
        layer: &Name,
        id: &Name,
        from: usize,
        reach: Reach,
    ) -> Result<Listed<usize>, AllocError>
        requires { from ≤ length self.now.parcels.now }
        ensures near { IfOk result (λ places. filter (is_near reach form.now) (lots_at self.now.parcels.now places.items) ≡ filter (is_near reach form.now) (others_in layer.now id.now (drop from self.now.parcels.now))) }
        ensures within { IfOk result (λ places. AreWithin self.now.parcels.now places.items) }
        ensures few { IfOk result (λ places. length places.items ≤ most_kept_parts) }
    {
        let lots = self.parcels.lots();
        lots.near(alloc, self.visits, form, layer, id, from, reach)
    }

    fn have_room_for(&self, parts: usize) -> bool
        ensures { result ≡ nat_le (parts_under_lots self.now.parcels.now + parts) most_kept_parts }
    {
        self.parcels.lots().have_room_for(parts)
    }
}

impl Overlaps<Work> for ParcelKeeper<'_> {
    fn overlap(
        alloc: Global,
        form: &Region,
        other: &Region,
        tests: &mut Work,
    ) -> Result<bool, Stopped>
        ensures { Refines (λ found. found) result tests.new (common_nearby first_tester form.now other.now tests.old) }
    {
        Ok(form.first_common(alloc, other, true, tests)?.is_some())
    }
}
