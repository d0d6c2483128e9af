//! Whole reports.
ghost use Rattle.std.specs.Prelude.{◌≡◌, ◌≤◌, ℕ, List, length, IfOk};
ghost use Rattle.rp_command.specs.Versions.{version_of};
ghost use Rattle.rp_model.specs.states.State.{opening};
ghost use Rattle.rp_reports.specs.Check.{finding};
ghost use Rattle.rp_reports.specs.Output.{most_report_bytes, most_script_bytes, report_lines};
ghost use Rattle.rp_reports.specs.Report.{IsReport, report_mark, version_by};
ghost use Rattle.rp_reports.specs.Text.{text_of_lines};
ghost use Rattle.rp_checker.specs.Found.{found_of, TellsRight};
ghost use Rattle.rp_checker.specs.Marks.{behind_mark};

use crate::answer::follow_answer;
use crate::halt::Halt;
use rp_check_state::Register;
use rp_command::Version;
use rp_correctness::every_report_is_accepted;
use rp_text::REPORT_MARK;
use rp_trail::Trail;
use std::alloc::{AllocError, Global};

/// The result of the check of a report.
#[derive(Clone, Copy, Debug, PartialEq, Eq)]
pub enum Found {
    /// The report is accepted.
    Accepted,
    /// The line with this number, from 1, is the first at which no accepted report continues. If every line fits and
    /// the report breaks off, this is the number of lines plus 1.
    Wrong(u32),
}

/// Returns the version of a report of which no line was taken yet. If the first line is the mark of version 2, it is
/// taken.
fn take_mark(trail: &mut Trail<'_>) -> Version
    ensures version { version_of result ≡ version_by report_mark trail.old.lines }
    ensures behind { trail.new ≡ behind_mark (version_of result) trail.old }
{
    if trail
        .peek()
        .is_some_and(|line| line == &REPORT_MARK[..REPORT_MARK.len() - 1])
    {
        trail.take();
        return Version::Two;
    }
    Version::One
}

/// Checks `report`, of at most 67,108,864 bytes. Returns whether it is accepted, and otherwise its first wrong line.
///
/// No certificate is searched for: each certificate of the report is checked, and every verdict must follow from those
/// that pass. If the first line is exactly `> 0 rp 2`, it is no answer, and the echoed lines are read in version 2;
/// otherwise in version 1. An accepted report is true of the regions that the echoed commands give, whoever wrote it.
/// The report of every script is accepted.
///
/// # Errors
///
/// `AllocError` if memory runs out.
pub fn check_report(alloc: Global, report: &[u8]) -> Result<Found, AllocError>
    requires { length report.now ≤ most_report_bytes }
    ensures found { IfOk result (λ found. found_of found ≡ finding (report_lines report.now)) }
    ensures right { IfOk result (λ found. TellsRight found (report_lines report.now)) }
    ensures whole { IfOk result (λ found. (script : List ℕ) → length script ≤ most_script_bytes → (told : List (List ℕ)) → IsReport script told → report.now ≡ text_of_lines told → found ≡ Found.Accepted) }
{
    let mut register = Register::new(alloc);
    let found = check_report_in(alloc, &mut register, report);
    drop(register);
    found
}

/// Checks `report` as [`check_report`] does, and stores in `register`, which is empty at first, what the answers store.
///
/// # Errors
///
/// `AllocError` if memory runs out.
pub fn check_report_in(
    alloc: Global,
    register: &mut Register,
    report: &[u8],
) -> Result<Found, AllocError>
    requires few { length report.now ≤ most_report_bytes }
    requires empty { register.old ≡ opening }
    ensures found { IfOk result (λ found. found_of found ≡ finding (report_lines report.now)) }
    ensures right { IfOk result (λ found. TellsRight found (report_lines report.now)) }
    ensures whole { IfOk result (λ found. (script : List ℕ) → length script ≤ most_script_bytes → (told : List (List ℕ)) → IsReport script told → report.now ≡ text_of_lines told → found ≡ Found.Accepted) }
{
    every_report_is_accepted();
    let mut trail = Trail::new(report);
    let version = take_mark(&mut trail);
    let mut last = 0;
    while trail.peek().is_some() {
        match follow_answer(alloc, register, version, last, &mut trail) {
            Ok(n) => last = n,
            Err(Halt::Wrong(n)) => return Ok(Found::Wrong(n)),
            Err(Halt::Memory(fault)) => return Err(fault),
        }
    }
    Ok(Found::Accepted)
}
