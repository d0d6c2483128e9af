//! The register as what keeps names, lots and the present layer, for the rows that stand once.
ghost use Rattle.std.specs.Prelude.{◌≡◌, ◌<◌, ◌≤◌, ℕ, ◌+◌, ◌&&◌, IfOk, length, map, filter, drop, nat_le, option_copied, option_map};
ghost use Rattle.std.specs.List.{AllByRecursion};
ghost use Rattle.rp_geometry.specs.parts.Parts.{most_parts};
ghost use Rattle.rp_semantics.specs.Walk.{stopped, limit_met, most_tests};
ghost use Rattle.rp_semantics.specs.Form.{common_nearby};
ghost use Rattle.rp_oracle.specs.Refines.{Refines};
ghost use Rattle.rp_reports.specs.Check.{Trail as ModelTrail, follow_count, line_tester};
ghost use Rattle.rp_space.specs.Boxes.{integer_box};
ghost use Rattle.rp_model.specs.states.State.{bare_lot, lots_of_layer, parts_in, parts_under_names, parts_under_lots, most_names, most_kept_parts};
ghost use Rattle.rp_model.specs.commands.Parts.{lot_parts};
ghost use Rattle.rp_model.specs.commands.At.{owner_line};
ghost use Rattle.rp_proximity.specs.Near.{others_in, is_near, lots_at, AreWithin};
ghost use Rattle.rp_proximity.specs.There.{is_there, owner_verdict};
ghost use Rattle.rp_oracle.specs.Short.{StandShort};

use crate::register::Register;
use rp_history::History;
use rp_lists::{Listed, Name};
use rp_lots::{Keeper, Overlaps, Registry};
use rp_oracle::{Named, Stopped};
use rp_proximity::{Moment, Reach};
use rp_space::{IntBox, Point};
use rp_trail::{Form, Kept, Trail, common};
use std::alloc::{AllocError, Global};

impl<'a> Named<Trail<'a>> for Register {
    ghost meaning = { parts_in };

    fn keep_short(&self)
        ensures { StandShort (parts_in self.now) }
    {
        self.register_state().keep_short();
    }

    fn form_named(&self, name: &Name) -> Option<&Form>
        ensures { option_map (λ f. f.items) (option_copied result) ≡ (parts_in self.now).of_name name.now }
    {
        self.register_state().form_named(name)
    }

    fn form_of_lot(&self, lot: &Name) -> Option<&Form>
        ensures { option_map (λ f. f.items) (option_copied result) ≡ (parts_in self.now).of_lot lot.now }
    {
        self.register_state().form_of_lot(lot)
    }
}

impl<'a> Keeper<Trail<'a>> for Register {
    ghost state = { λ s. s };

    fn keep_limit(&self)
        ensures { (n : ℕ) (w : ModelTrail) → most_tests < n → follow_count n w ≡ stopped limit_met w }
    {}

    fn bounds(part: &Kept) -> &IntBox
        ensures { integer_box result.now ≡ part.now.bounds }
    {
        &part.bounds
    }

    fn history(&self) -> &History
        ensures value { result.now ≡ map bare_lot self.now.lots }
        ensures few { length self.now.lots ≤ most_kept_parts }
        ensures short { AllByRecursion (λ l. length l.parts ≤ most_parts) self.now.lots }
    {
        self.register_state().history()
    }

    fn forms(&self) -> &[Form]
        ensures { map (λ f. f.items) result.now ≡ lot_parts self.now.lots }
    {
        self.register_state().forms()
    }

    fn near(
        &self,
        alloc: Global,
        form: &Form,
        layer: &Name,
        id: &Name,
        from: usize,
        reach: Reach,
    ) -> Result<Listed<usize>, AllocError>
        requires { from ≤ length self.now.lots }
        ensures near { IfOk result (λ places. filter (is_near reach form.now.items) (lots_at self.now.lots places.items) ≡ filter (is_near reach form.now.items) (others_in layer.now id.now (drop from self.now.lots))) }
        ensures within { IfOk result (λ places. AreWithin self.now.lots places.items) }
        ensures few { IfOk result (λ places. length places.items ≤ most_kept_parts) }
    {
        self.register_state()
            .near(alloc, form, layer, id, from, reach)
    }

    fn have_room_for(&self, parts: usize) -> bool
        ensures { result ≡ nat_le (parts_under_lots self.now.lots + parts) most_kept_parts }
    {
        self.register_state().have_room_for(parts)
    }
}

impl<'a> Overlaps<Trail<'a>> for Register {
    fn overlap(
        _alloc: Global,
        form: &Form,
        other: &Form,
        tests: &mut Trail<'a>,
    ) -> Result<bool, Stopped>
        ensures { Refines (λ found. found) result tests.new (common_nearby line_tester form.now.items other.now.items tests.old) }
    {
        common(form, other, true, tests)
    }
}

impl<'a> Registry<Trail<'a>> for Register {
    fn keep_meaning(&self)
        ensures { parts_in self.now ≡ parts_in self.now }
    {}

    fn layer(&self) -> Name
        ensures { result ≡ self.now.layer }
    {
        self.register_state().layer()
    }

    fn owner(&self, moment: Moment, point: &Point) -> Option<Name>
        ensures { owner_verdict result ≡ owner_line (lots_of_layer self.now.layer (filter (is_there moment) self.now.lots)) point.now }
    {
        self.register_state().owner(moment, point)
    }

    fn have_room_for_name(&self, form: &Form) -> bool
        ensures { result ≡ (nat_le (length self.now.names + 1) most_names && nat_le (parts_under_names self.now.names + length form.now.items) most_kept_parts) }
    {
        self.register_state().have_room_for_name(form)
    }
}
