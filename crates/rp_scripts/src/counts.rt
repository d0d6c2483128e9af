//! What is counted in the report of a script, answer by answer, and the lines that tell it.
ghost use Rattle.std.specs.Prelude.{◌≡◌, ◌+◌, ◌^◌, ◌<◌, ◌++◌, OnOk};
ghost use Rattle.rp_answer.specs.Views.{answer_of};
ghost use Rattle.rp_reports.specs.Text.{text_of_lines};
ghost use Rattle.rp_scripts.specs.Trial.{AreBounded, counted, summary_lines};

use crate::refusal::count_refusals;
use crate::text::write_count;
use rp_answer::Answer;
use std::alloc::AllocError;

/// What is counted in a report, as far as it has come.
#[derive(Clone, Copy)]
pub struct Counts {
    /// The lines that were answered.
    pub lines: u32,
    /// The verdicts that are refusals.
    pub refused: u128,
    /// The proof lines.
    pub proofs: u128,
}

/// What is counted in a whole report, and in the state behind it.
#[derive(Clone, Copy)]
pub struct Summary {
    /// What is counted in the report.
    pub counts: Counts,
    /// The live lots at the end.
    pub live: u32,
}

impl Counts {
    /// Counts one more answer. It can't have 2^64 verdicts or proof lines.
    pub fn add(&mut self, answer: &Answer)
        requires few { self.old.lines + 1 < 2 ^ 32 }
        requires bounded { AreBounded self.old }
        ensures counted { self.new ≡ counted self.old (answer_of answer.now) }
        ensures bounded { AreBounded self.new }
    {
        self.lines += 1;
        self.refused += count_refusals(answer.verdicts.items()) as u128;
        self.proofs += answer.proofs.items().len() as u128;
    }
}

/// Appends the lines of `summary` to `text`.
pub fn write_summary(summary: &Summary, text: &mut Vec<u8>) -> Result<(), AllocError>
    ensures { OnOk result (text.new.items ≡ text.old.items ++ text_of_lines (summary_lines summary.now)) }
{
    write_count(b"lines ", summary.counts.lines, text)?;
    write_count(b"refused ", summary.counts.refused, text)?;
    write_count(b"live ", summary.live, text)?;
    write_count(b"proofs ", summary.counts.proofs, text)
}
