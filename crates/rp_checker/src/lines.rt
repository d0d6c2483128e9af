//! Lines of a report that must be those of verdicts.
ghost use Rattle.std.specs.Prelude.{◌∷◌, [], map};
ghost use Rattle.rp_model.specs.states.State.{PlainState};
ghost use Rattle.rp_reports.specs.Check.{tells_limit, follow_line, follow_lines, follow_limit};
ghost use Rattle.rp_reports.specs.Text.{verdict_text};
ghost use Rattle.rp_answer.specs.Views.{verdict_of};
ghost use Rattle.rp_checker.specs.Answers.{Answers};

use crate::halt::Halt;
use rp_answer::Verdict;
use rp_text::write_verdict;
use rp_trail::Trail;
use std::alloc::Global;

/// Takes the next line, which must be `want`.
fn follow_line(want: &[u8], trail: &mut Trail<'_>) -> Result<(), Halt>
    ensures { Answers (λ x. x) result trail.new (follow_line want.now trail.old.lines trail.old) }
{
    let wrong = Halt::Wrong(trail.number());
    let Some(line) = trail.peek() else {
        return Err(wrong);
    };
    if want != line {
        return Err(wrong);
    }
    trail.take();
    Ok(())
}

/// Takes the next lines, which must be those of `verdicts`.
pub(crate) fn follow_verdicts(
    alloc: Global,
    verdicts: &[Verdict],
    trail: &mut Trail<'_>,
) -> Result<(), Halt>
    ensures { Answers (λ x. x) result trail.new (follow_lines (map verdict_text (map verdict_of verdicts.now)) trail.old) }
{
    let mut text = Vec::new(alloc);
    for verdict in verdicts {
        text.clear();
        write_verdict(verdict, &mut text)?;
        follow_line(&text, trail)?;
    }
    Ok(())
}

/// Takes the next line, which must be that of `verdict`.
pub(crate) fn follow_verdict(
    alloc: Global,
    verdict: &Verdict,
    trail: &mut Trail<'_>,
) -> Result<(), Halt>
    ensures { Answers (λ x. x) result trail.new (follow_lines (verdict_text (verdict_of verdict.now) ∷ []) trail.old) }
{
    let mut text = Vec::new(alloc);
    write_verdict(verdict, &mut text)?;
    follow_line(&text, trail)
}

/// Takes the next line, which must report a limit.
pub(crate) fn follow_limit(trail: &mut Trail<'_>) -> Result<(), Halt>
    ensures answers { (s : PlainState) → Answers (λ _. s) result trail.new (follow_limit s trail.old) }
{
    if !trail.tells_limit() {
        return Err(Halt::Wrong(trail.number()));
    }
    trail.take();
    Ok(())
}
