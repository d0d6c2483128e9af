//! The whole text of an answer.
ghost use Rattle.rp_reports.specs.Text.{text_of_lines, answer_lines};
ghost use Rattle.rp_text.specs.Fronts.{Writes};
ghost use Rattle.rp_answer.specs.Views.{answer_of};

use crate::echo::Echo;
use crate::items::{write_line, write_lines};
use crate::proof::write_told_proofs;
use rp_answer::Answer;
use std::alloc::AllocError;

/// Appends the report lines of `a` to `out`, each with its line end: the echo, the proof lines and the verdicts. If
/// `brief`, the proof lines are left out. An answer without verdicts has no text.
///
/// # Errors
///
/// `AllocError` if memory runs out. `out` then has what it had, and a prefix of the text.
pub fn write_answer(a: &Answer, brief: bool, out: &mut Vec<u8>) -> Result<(), AllocError>
    ensures { Writes result out.old.items out.new.items (text_of_lines (answer_lines brief (answer_of a.now))) }
{
    let verdicts = a.verdicts.items();
    if verdicts.is_empty() {
        return Ok(());
    }
    let echo = Echo {
        number: a.n,
        line: a.echo.items(),
    };
    write_line(&echo, out)?;
    write_told_proofs(a.proofs.items(), brief, out)?;
    write_lines(verdicts, out)
}
