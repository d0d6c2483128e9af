//! The row of a horizontal section.
ghost use Rattle.std.specs.Prelude.{◌≡◌, ◌≤◌, IfOk, IfErr, OnOk, length, map};
ghost use Rattle.rp_geometry.specs.parts.Parts.{most_parts};
ghost use Rattle.rp_geometry.specs.sections.Trace.{IsHeight};
ghost use Rattle.rp_model.specs.commands.Section.{row_section};
ghost use Rattle.rp_reports.specs.Text.{verdict_text};
ghost use Rattle.rp_reports.specs.Check.{taken, slices_told, follow_line, line_tester};
ghost use Rattle.rp_cert.specs.Section.{slice_shown};
ghost use Rattle.rp_oracle.specs.Refines.{Refines};
ghost use Rattle.rp_trail.specs.Stops.{IsWrongOrMemory};
ghost use Rattle.rp_answer.specs.Views.{verdict_of};
ghost use Rattle.rp_check_state.specs.Slices.{follow_section_lines};
ghost use Rattle.rp_check_state.specs.Followed.{IsFollowed};

use crate::followed::Followed;
use rp_answer::{RowEnd, Verdict};
use rp_oracle::Stopped;
use rp_register_state::Reply;
use rp_rows::slice_lines;
use rp_text::write_verdict;
use rp_trail::{Form, Slices, Trail, slices};
use std::alloc::Global;

/// Answers `section`: the slices of the parts of `form` at the height `z`. Which these are the next lines of `trail`
/// say, behind the one that tells how many there are; none of them is taken. `Unshown` where one of them is missing, or
/// shows no slice that passes.
pub fn section(alloc: Global, form: &Form, z: i32, trail: &Trail<'_>) -> Result<Followed, RowEnd>
    requires few { length form.now.items ≤ most_parts }
    requires height { IsHeight z }
    ensures { IsFollowed result trail.now (row_section line_tester z form.now.items trail.now) }
{
    let mut ahead = trail.ahead();
    match follow_slices(alloc, form, z, &mut ahead) {
        Ok(slices) => Ok(Followed::Replied(Reply::Told(slice_lines(alloc, slices)?))),
        Err(Stopped::Wrong) => Ok(Followed::Unshown(ahead.number())),
        Err(stopped) => Err(RowEnd::Stopped(stopped)),
    }
}

/// Returns the slices of the parts of a form, on the lines behind the next one, which tells how many there are.
fn follow_slices(
    alloc: Global,
    form: &Form,
    z: i32,
    trail: &mut Trail<'_>,
) -> Result<Slices, Stopped>
    requires few { length form.now.items ≤ most_parts }
    requires height { IsHeight z }
    ensures comes { Refines (λ _. tt) result trail.new (follow_section_lines z form.now.items trail.old) }
    ensures told { IfOk result (λ list. map slice_shown list.items ≡ slices_told z form.now.items (taken trail.old).lines) }
    ensures ends { IfErr result IsWrongOrMemory }
{
    let count = Verdict::Sections(form.items().len() as u32);
    follow_verdict(alloc, &count, trail)?;
    slices(alloc, form, z, trail)
}

/// Takes the next line, which must be that of the verdict.
fn follow_verdict(alloc: Global, verdict: &Verdict, trail: &mut Trail<'_>) -> Result<(), Stopped>
    ensures comes { Refines (λ x. x) result trail.new (follow_line (verdict_text (verdict_of verdict.now)) trail.old.lines trail.old) }
    ensures takes { OnOk result (trail.new ≡ taken trail.old) }
    ensures ends { IfErr result IsWrongOrMemory }
{
    let mut text = Vec::new(alloc);
    write_verdict(verdict, &mut text)?;
    let Some(line) = trail.peek() else {
        return Err(Stopped::Wrong);
    };
    if text.as_slice() != line {
        return Err(Stopped::Wrong);
    }
    trail.take();
    Ok(())
}
