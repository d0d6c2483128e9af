#![tactic(auto)]
//! Laws over whole runs: the right report of a script, sound states, and what the check of a report shows.
//!
//! * the rows are right, and each step keeps a state sound;
//! * the computed report is the one that the sets need;
//! * every report that the check accepts is true, whoever wrote it;
//! * the check accepts every report of a script.
//!
//! Each function is a law over the definitions of `rp_model` and `rp_reports`: its contract is the law, and its body is
//! empty.

ghost use Rattle.rp_geometry.specs.parts.Parts.{IsCheckedPart, IsPart};
ghost use Rattle.rp_reports.specs.Check.{line_tester};
ghost use Rattle.rp_reports.specs.laws.CheckLaws.{AcceptedIsTrue, FollowedRowTellsTruth, ReportIsAccepted, ReportsAreToldOnce, WrittenReportIsAccepted};
ghost use Rattle.rp_reports.specs.laws.RowLaws.{RowIsRight};
ghost use Rattle.rp_reports.specs.laws.RunLaws.{AnswersDependOnMembers, AsOfInRuns, AsOfNow, BriefReportIsOne, ReportIsComputed, ReportIsOne, ReshapingStepsKeepPoints, RunsAreSound, SetsFollowVerdicts, StepIsComputed, StepsKeepSoundness};
ghost use Rattle.rp_reports.specs.laws.UpgradeLaws.{UpgradeKeepsTheReport};
ghost use Rattle.rp_semantics.specs.Walk.{first_tester};

/// States, for the first certificates and for the lines of a report: in a sound state a row that is not stopped has the
/// verdict lines that the rule of sets needs, and a change that the state accepts.
pub fn rows_are_right()
    ensures of_first { RowIsRight IsPart first_tester }
    ensures of_lines { RowIsRight IsCheckedPart line_tester }
{}

/// States that every step from a sound state leads to a sound state, and that the next line is later.
pub fn steps_keep_soundness()
    ensures { StepsKeepSoundness }
{}

/// States that the sets after a command depend on its right verdict alone. After one ok they are those that the command
/// gives; after any other verdict the state is as before.
pub fn sets_follow_verdicts()
    ensures { SetsFollowVerdicts }
{}

/// States that in a sound state the answer computed from the parts is the only one, and the parts after it too.
pub fn step_is_computed()
    ensures { StepIsComputed }
{}

/// States that two sound states of the same layer, names, lots, parts and members give the same answers, and lead to
/// two such states.
pub fn answers_depend_on_members()
    ensures { AnswersDependOnMembers }
{}

/// States that the report computed from the parts is the only one, in full and brief.
pub fn report_is_computed()
    ensures { ReportIsComputed }
{}

/// States that a script has exactly one report.
pub fn report_is_one()
    ensures { ReportIsOne }
{}

/// States that a script has exactly one brief report.
pub fn brief_report_is_one()
    ensures { BriefReportIsOne }
{}

/// States that every state of a run is sound, and that the next line is later than all births and ends in it.
pub fn runs_are_sound()
    ensures { RunsAreSound }
{}

/// States that after an accepted cut, subdivision or consolidation, the lots born at its line have together exactly the
/// points of those that ended at it.
pub fn reshaping_steps_keep_points()
    ensures { ReshapingStepsKeepPoints }
{}

/// States that a question as of a line, after any further lines, has the verdict that was right for the point after
/// that line, in the layer present now.
pub fn as_of_in_runs()
    ensures { AsOfInRuns }
{}

/// States that a question as of a line that has not come yet has the verdict that is right for the point now.
pub fn as_of_now()
    ensures { AsOfNow }
{}

/// States what a row does that is followed on the lines of a report, from the parts of a sound state: it tells the
/// truth about the state's sets and leads to the parts of a sound state.
pub fn followed_row_tells_truth()
    ensures { FollowedRowTellsTruth }
{}

/// States that the report of an upgraded script is that of the script, without the answers of bad lines and with every
/// command echoed in its spelling of version 2.
pub fn upgrade_keeps_the_report()
    ensures { UpgradeKeepsTheReport }
{}

/// States that what the check accepts is true of the sets that the echoed commands give.
pub fn accepted_is_true()
    ensures { AcceptedIsTrue }
{}

/// States that report lines can be divided into answers in one way only, so no false line hides in another division.
pub fn reports_are_told_once()
    ensures { ReportsAreToldOnce }
{}

/// States that every report of a script is accepted, and its text too.
pub fn every_report_is_accepted()
    ensures of_lines { ReportIsAccepted }
    ensures of_text { WrittenReportIsAccepted }
{}
