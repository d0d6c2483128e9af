//! Which verdicts refuse a line.
ghost use Rattle.std.specs.Prelude.{◌≡◌, Bool, count_by};
ghost use Rattle.std.specs.List.{list_any};
ghost use Rattle.rp_reports.specs.Made.{is_refusal};
ghost use Rattle.rp_reports.specs.Output.{is_refused_line};
ghost use Rattle.rp_reports.specs.Text.{answer_lines, verdict_text};
ghost use Rattle.rp_answer.specs.Views.{answer_of, verdict_of};

use rp_answer::{Answer, Verdict};

/// Returns whether a verdict refuses its line.
fn is_refusal(verdict: &Verdict) -> bool
    ensures verdict { result ≡ is_refusal (verdict_of verdict.now) }
    ensures line { result ≡ is_refused_line (verdict_text (verdict_of verdict.now)) }
{
    matches!(verdict, Verdict::Refused(_))
}

/// Returns whether some of the verdicts refuses its line.
fn any_refusal(verdicts: &[Verdict]) -> bool
    ensures { result ≡ list_any (λ v. is_refused_line (verdict_text (verdict_of v))) verdicts.now }
{
    verdicts.iter().any(|verdict| is_refusal(verdict))
}

/// Returns how many of the verdicts refuse their line.
pub fn count_refusals(verdicts: &[Verdict]) -> usize
    ensures { result ≡ count_by (λ v. is_refusal (verdict_of v)) verdicts.now }
{
    verdicts
        .iter()
        .filter(|verdict| is_refusal(verdict))
        .count()
}

/// Returns whether some report line of an answer is a refusal, in a full report and in a brief one: no echo and no
/// proof line is one.
pub fn has_refusal(answer: &Answer) -> bool
    ensures { (brief : Bool) → result ≡ list_any is_refused_line (answer_lines brief (answer_of answer.now)) }
{
    any_refusal(answer.verdicts.items())
}
