//! The forms of expressions.
ghost use Rattle.std.specs.Prelude.{◌≡◌, Err, IfSome, IfOk, IsNone};
ghost use Rattle.rp_command.specs.Views.{expression_of};
ghost use Rattle.rp_geometry.specs.sets.Shape.{shape_of_parts};
ghost use Rattle.rp_geometry.specs.sets.Sets.{SameMembers};
ghost use Rattle.rp_language.specs.Expression.{IsKeptExpression, resolve_names, first_unknown};
ghost use Rattle.rp_semantics.specs.Walk.{first_tester};
ghost use Rattle.rp_semantics.specs.Form.{form};
ghost use Rattle.rp_model.specs.states.State.{parts_in, state_of_parts};
ghost use Rattle.rp_model.specs.states.Sound.{IsSound};
ghost use Rattle.rp_model.specs.commands.Parts.{shapes_of_parts};
ghost use Rattle.rp_machine.specs.Forms.{MakesForm};

use crate::fault::FormFault;
use crate::state::State;
use rp_command::Expr;
use rp_eval::{first_unknown, formed};
use rp_region::{Region, Work};
use std::alloc::Global;

impl State {
    /// Returns the form of an expression: its parts, made test by test in reading order, with the parts kept for names.
    /// The members of the parts are those of the expression, in which each name stands for its region.
    ///
    /// Every number of the expression keeps the bounds of half-spaces and boxes, as those of a line that was read do.
    /// `Unknown` exactly for the first name or lot, in reading order, that isn't there; it comes before any test.
    /// `Limit` exactly where the operations on regions say so.
    pub(crate) fn form(
        &self,
        alloc: Global,
        region: &Expr,
        work: &mut Work,
    ) -> Result<Region, FormFault>
        requires { IsKeptExpression (expression_of region.now) }
        ensures unknown { IfSome (first_unknown (parts_in self.now) (expression_of region.now)) (λ x. (result ≡ Err (FormFault.Unknown x)) × (work.new ≡ work.old)) }
        ensures makes { IsNone (first_unknown (parts_in self.now) (expression_of region.now)) → MakesForm (λ form. form) result work.old work.new (form first_tester (parts_in self.now) (expression_of region.now)) }
        ensures members { IfOk result (λ form. SameMembers (shape_of_parts form) (resolve_names (shapes_of_parts (parts_in self.now)) (expression_of region.now))) }
        ensures sound { IsSound (state_of_parts self.now) }
    {
        self.keep_sound();
        if let Some(name) = first_unknown::<Work, State>(self, region) {
            return Err(FormFault::Unknown(name));
        }
        let mut walked = work.fresh(alloc);
        let form = formed(alloc, self, region, &mut walked);
        Ok(work.take_over(walked, form)?)
    }
}
