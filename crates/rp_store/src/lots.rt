//! All lots that were ever registered, with their forms.
ghost use Rattle.std.specs.Prelude.{◌≡◌, ◌+◌, ◌<◌, ◌≤◌, [], ◌∷◌, length, map, filter, drop, nat_le, slice_get, sum_by, option_copied, option_map, Some, IsTrue, IfOk, OnOk, OnErr};
ghost use Rattle.rp_model.specs.states.State.{live_lot, lots_of_layer, parts_of_lot, bare_lot, ids_of, lots_replaced, parts_under_lots, most_kept_parts};
ghost use Rattle.rp_model.specs.states.Sound.{are_distinct};
ghost use Rattle.rp_model.specs.commands.Parts.{lot_parts};
ghost use Rattle.rp_model.specs.commands.At.{owner_line};
ghost use Rattle.rp_history.specs.Lots.{new_lot_of, lots_after, AreBornBefore, AreKeptWell, AreNew};
ghost use Rattle.rp_history.specs.Parts.{new_lots};
ghost use Rattle.rp_lotindex.specs.Indexed.{index_of, AreFree, AreBorn, AllStay};
ghost use Rattle.rp_proximity.specs.Near.{others_in, is_near, lots_at, AreWithin};
ghost use Rattle.rp_proximity.specs.There.{is_there, owner_verdict, BoxesHold};
ghost use Rattle.rp_store.specs.Kept.{AreFew, has_point};

use crate::boxes::{FormBoxes, add_all};
use crate::forms::Forms;
use crate::settle::settle_all;
use rp_boxindex::Watch;
use rp_history::{Birth, History};
use rp_lists::{Listed, Name};
use rp_lotindex::{Holder, LotBoxes};
use rp_oracle::MAX_KEPT_PARTS;
use rp_proximity::{Moment, Reach};
use rp_space::Point;
use std::alloc::{AllocError, Global};
use std::fmt;
use std::marker::Model;

/// All lots that were ever registered, in the order of registration, with their forms: at most 65,536 lots, with at
/// most 65,536 parts together. Their ids are distinct, and the boxes of each are in the index of its layer.
#[derive(Drop)]
pub struct Lots<F: Forms> {
    history: History,
    // The forms of the lots in the order of the lots, ended ones included.
    forms: Listed<F::Form>,
    // The number of parts that the forms have together.
    parts: usize,
    // The boxes of all lots.
    boxes: LotBoxes,
}

impl<F: Forms> fmt::Debug for Lots<F> {
    fn fmt<W: fmt::Write>(&self, f: &mut fmt::Formatter<W>) -> fmt::Result {
        f.debug_struct("Lots").finish_non_exhaustive()
    }
}

impl<F: Forms> Model for Lots<F> {
    ghost use Rattle.std.specs.Prelude.{List, map};
    ghost use Rattle.rp_model.specs.states.State.{Lot};
    ghost use Rattle.rp_history.specs.Parts.{lots_with_parts};
    ghost use Rattle.rp_lotindex.specs.Indexed.{index_of};
    ghost use Rattle.rp_store.specs.Kept.{AreLots};

    ghost Value = { List (Lot (Unit {0})) };

    ghost view = { λ a. lots_with_parts a.history (map F.parts_of a.forms.items) };

    ghost invariant = { λ a. AreLots a.history (map F.parts_of a.forms.items) a.parts (index_of a.boxes) };
}

impl<F: Forms> Lots<F> {
    /// Returns the list of no lots. Takes no memory.
    pub fn new(alloc: Global) -> Lots<F>
        ensures { result ≡ [] }
    {
        Lots {
            history: History::new(alloc),
            forms: Listed::new(alloc),
            parts: 0,
            boxes: LotBoxes::new(alloc),
        }
    }

    /// Returns the births and ends of all lots, ended ones included.
    pub fn history(&self) -> &History
        ensures value { result.now ≡ map bare_lot self.now }
        ensures few { length self.now ≤ most_kept_parts }
        ensures distinct { IsTrue (are_distinct (ids_of self.now)) }
    {
        // This makes the invariant known, which says that the ids are distinct.
        let _ = &self.forms;
        &self.history
    }

    /// Returns the number of lots, ended ones included.
    pub fn count(&self) -> usize
        ensures value { result ≡ length self.now }
        ensures few { result ≤ most_kept_parts }
    {
        self.forms.items().len()
    }

    /// Returns the form of the live lot `id`, without a walk over all lots; `None` iff `id` is not live.
    pub fn find(&self, id: &Name) -> Option<&F::Form>
        ensures { option_map F.parts_of (option_copied result) ≡ parts_of_lot (live_lot id.now self.now) }
    {
        let place = self.history().live_place(id)?;
        Some(self.form_at(place))
    }

    /// Returns the form of the lot at `place`, ended or not.
    pub fn form_at(&self, place: usize) -> &F::Form
        requires { place < length self.now }
        ensures { option_map (λ l. l.parts) (slice_get self.now place) ≡ Some (F.parts_of result.now) }
    {
        &self.forms.items()[place]
    }

    /// Returns the forms of all lots, in the order of the lots.
    pub fn forms(&self) -> &[F::Form]
        ensures { map F.parts_of result.now ≡ lot_parts self.now }
    {
        self.forms.items()
    }

    /// Returns rising places at or after `from`. Every live lot of `layer`, other than `id`, with a part that may meet
    /// one of `form`'s, as `reach` says, is at one of these places. `watch` is called at each visited node.
    ///
    /// # Errors
    ///
    /// `AllocError` if memory runs out.
    pub fn near<W: Watch>(
        &self,
        alloc: Global,
        watch: &W,
        form: &F::Form,
        layer: &Name,
        id: &Name,
        from: usize,
        reach: Reach,
    ) -> Result<Listed<usize>, AllocError>
        requires { from ≤ length self.now }
        ensures near { IfOk result (λ places. filter (is_near reach (F.parts_of form.now)) (lots_at self.now places.items) ≡ filter (is_near reach (F.parts_of form.now)) (others_in layer.now id.now (drop from self.now))) }
        ensures within { IfOk result (λ places. AreWithin self.now places.items) }
        ensures few { IfOk result (λ places. length places.items ≤ most_kept_parts) }
    {
        let boxes = FormBoxes::<F> { form };
        self.boxes.near(alloc, watch, &self.history, &boxes, layer, id, from, reach)
    }

    /// Returns the first lot of `layer` that is there at `moment` and has `point`; `None` iff there is none. No walk
    /// over all lots is made, and no memory taken. The box of each part must contain its members. `watch` is called at
    /// each visited node.
    pub fn owner<W: Watch>(
        &self,
        watch: &W,
        layer: &Name,
        moment: Moment,
        point: &Point,
    ) -> Option<Name>
        requires { BoxesHold self.now }
        ensures { owner_verdict result ≡ owner_line (lots_of_layer layer.now (filter (is_there moment) self.now)) point.now }
    {
        let holder = HasPoint::<F> {
            forms: self.forms.items(),
            point,
        };
        self.boxes
            .owner(watch, &self.history, layer, moment, point, &holder)
    }

    /// Returns whether all lots together may have `parts` more parts.
    pub fn have_room_for(&self, parts: usize) -> bool
        ensures { result ≡ nat_le (parts_under_lots self.now + parts) most_kept_parts }
    {
        parts <= MAX_KEPT_PARTS - self.parts
    }

    /// Ends the lots `ends` at `line`, each if it is live, and appends a lot for each of `births`, with its form of
    /// `forms`. All lots were born before the line. The new ids are new and distinct, their origins are known, and
    /// there is room for the new lots.
    ///
    /// # Errors
    ///
    /// `AllocError` if memory runs out. All is then as before.
    pub fn replace(
        &mut self,
        alloc: Global,
        line: u32,
        ends: &[Name],
        births: &[Birth],
        forms: Listed<F::Form>,
    ) -> Result<(), AllocError>
        requires each { length births.now ≡ length forms.items }
        requires later { AreBornBefore line self.old }
        requires new { AreNew self.old (new_lots births.now (map F.parts_of forms.items)) }
        requires few { AreFew (lots_after line self.old (lots_replaced ends.now (new_lots births.now (map F.parts_of forms.items)))) }
        ensures ok { OnOk result (self.new ≡ lots_after line self.old (lots_replaced ends.now (new_lots births.now (map F.parts_of forms.items)))) }
        ensures err { OnErr result (self.new ≡ self.old) }
    {
        let added = forms.items();
        let parts = count_parts::<F>(added);
        take_in::<F>(
            &mut self.history,
            &mut self.forms,
            &mut self.boxes,
            alloc,
            line,
            ends,
            births,
            added,
        )?;
        self.forms.append(forms).unwrap();
        self.parts += parts;
        settle_all::<F>(&mut self.boxes, &self.history, self.forms.items(), ends);
        Ok(())
    }

    /// Ends the lot `id` at `line`, if it is live. All lots were born before `line`. Takes no memory.
    pub fn end(&mut self, line: u32, id: Name)
        requires { AreBornBefore line self.old }
        ensures { self.new ≡ lots_after line self.old (lots_replaced (id ∷ []) []) }
    {
        self.history.end(line, id);
        settle_all::<F>(&mut self.boxes, &self.history, self.forms.items(), &[id]);
    }
}

/// The forms of lots, in the order of the lots, and a point.
#[derive(Drop)]
struct HasPoint<'a, F: Forms> {
    forms: &'a [F::Form],
    point: &'a Point,
}

impl<F: Forms> Holder for HasPoint<'_, F> {
    ghost has = { λ s k. has_point (map F.parts_of s.forms.now) s.point.now k };

    fn has(&self, place: usize) -> bool {
        match self.forms.get(place) {
            None => false,
            Some(form) => F::holds(form, self.point),
        }
    }
}

/// Ends the lots `ends` of a history and adds `births`, adds the boxes of these, and makes room for their forms in
/// `kept`. After `AllocError` history and boxes are as before.
fn take_in<F: Forms>(
    history: &mut History,
    kept: &mut Listed<F::Form>,
    boxes: &mut LotBoxes,
    alloc: Global,
    line: u32,
    ends: &[Name],
    births: &[Birth],
    forms: &[F::Form],
) -> Result<(), AllocError>
    requires each { length births.now ≡ length forms.now }
    requires small { length kept.old.items + length forms.now ≤ most_kept_parts }
    requires free { AreFree (index_of boxes.old) (length kept.old.items) }
    requires later { AreBornBefore line history.old }
    requires new { AreNew history.old (map new_lot_of births.now) }
    ensures kept { kept.new.items ≡ kept.old.items }
    ensures room { OnOk result (length forms.now ≤ kept.new.spare) }
    ensures lots { OnOk result (history.new ≡ lots_after line history.old (lots_replaced ends.now (map new_lot_of births.now))) }
    ensures well { OnOk result (AreKeptWell history.new) }
    ensures put { OnOk result (AreBorn (index_of boxes.old) (index_of boxes.new) (length kept.old.items) (new_lots births.now (map F.parts_of forms.now))) }
    ensures stays { OnErr result (history.new ≡ history.old) }
    ensures same { OnErr result (AllStay (index_of boxes.old) (index_of boxes.new)) }
{
    let first = kept.items().len();
    kept.reserve(forms.len())?;
    add_all::<F>(boxes, alloc, first, births, forms)?;
    if let Err(error) = history.note(alloc, line, births, ends) {
        boxes.remove_all(first, births);
        return Err(error);
    }
    Ok(())
}

/// Returns the number of parts that `forms` have together.
fn count_parts<F: Forms>(forms: &[F::Form]) -> usize
    requires { sum_by (λ f. length (F.parts_of f)) forms.now ≤ most_kept_parts }
    ensures { result ≡ sum_by (λ f. length (F.parts_of f)) forms.now }
{
    let mut count = 0;
    for form in forms {
        count += F::parts(form).len();
    }
    count
}
