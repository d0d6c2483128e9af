#![tactic(auto)]
//! The verdict of a row: the lines of a row, walked with a tester that answers rightly, are exactly those that the rule
//! of sets needs. The lines of a report answer rightly. Each function is a law over the definitions of `rp_model`: its
//! contract is the law, and its body is empty.

ghost use Rattle.rp_semantics.specs.Walk.{first_tester};
ghost use Rattle.rp_reports.specs.Check.{line_tester};
ghost use Rattle.rp_semantics.specs.FormLaws.{WalksAreRight};
ghost use Rattle.rp_geometry.specs.parts.Parts.{IsPart, IsCheckedPart};
ghost use Rattle.rp_row_soundness.specs.Limits.{LimitComesAfterRefusals};
ghost use Rattle.rp_reports.specs.laws.RowLaws.{FormHasTheMembers, LineTesterIsRight, RowMeetsRule, NewPartsAreRight, VerdictsAreTrue, VerdictsMeetRule};

/// States that the lines of a report that the check takes answer rightly, whoever wrote them.
pub fn line_tester_is_right()
    ensures { LineTesterIsRight }
{}

/// States that on the lines of a report, whoever wrote them, joins, differences, pair loops, relations, pieces and
/// forms are right.
pub fn walks_on_lines_are_right()
    ensures { WalksAreRight IsCheckedPart line_tester }
{}

/// States that in a sound state the form of an expression has exactly the members of its set.
pub fn form_has_the_members()
    ensures { FormHasTheMembers }
{}

/// States, for the first certificates and for the lines of a report: in a sound state the verdict lines of a row that
/// is not stopped are those that the rule of sets needs.
pub fn verdicts_meet_rule()
    ensures of_first { VerdictsMeetRule IsPart first_tester }
    ensures of_lines { VerdictsMeetRule IsCheckedPart line_tester }
{}

/// States that in a sound state the verdict lines of a row that is not stopped are true by sets alone, as a report has
/// them.
pub fn verdicts_are_true()
    ensures of_first { VerdictsAreTrue IsPart first_tester }
    ensures of_lines { VerdictsAreTrue IsCheckedPart line_tester }
{}

/// States, for the first certificates and for the lines of a report: in a sound state the new parts of a row that is
/// not stopped have the members of the new sets.
pub fn new_parts_are_right()
    ensures of_first { NewPartsAreRight IsPart first_tester }
    ensures of_lines { NewPartsAreRight IsCheckedPart line_tester }
{}

/// States that in a sound state the verdict of the row is the one that the rule of sets needs, and the only one.
pub fn row_meets_rule()
    ensures { RowMeetsRule }
{}

/// States that in a sound state, if the row of a command meets a limit, the refusals that come before the limit do not
/// hold of the sets.
pub fn limit_comes_after_refusals()
    ensures { LimitComesAfterRefusals }
{}
