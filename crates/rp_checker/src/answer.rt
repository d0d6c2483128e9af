//! The check of whole answers of a report, and the change of each.
ghost use Rattle.std.specs.Prelude.{◌≡◌, ◌+◌, ◌<◌, ◌∷◌, [], ℕ, false, Ok, length, map, IfOk, is_none, option_map};
ghost use Rattle.std.specs.List.{AllByRecursion, flat_map};
ghost use Rattle.rp_command.specs.Versions.{version_of};
ghost use Rattle.rp_command.specs.Views.{child_of, command_of, expression_of, fault_of, line_of};
ghost use Rattle.rp_geometry.specs.parts.Parts.{IsCheckedPart};
ghost use Rattle.rp_geometry.specs.sections.Trace.{IsHeight};
ghost use Rattle.rp_language.specs.Expression.{IsKeptExpression, expressions_of, first_unknown_among, heights_of, HasFewChildren};
ghost use Rattle.rp_language.specs.Grammar.{bad, reading};
ghost use Rattle.rp_model.specs.commands.Reply.{Reply as ModelReply, accepted};
ghost use Rattle.rp_model.specs.states.State.{PlainState, changed, parts_in, state_of_parts};
ghost use Rattle.rp_model.specs.states.Sound.{IsLaterThan};
ghost use Rattle.rp_reports.specs.Check.{Trail as ModelTrail, limit_allowed, follow_walk, follow_reply, follow_command, follow_fault, follow_text, follow_echo, next_echo, follow_answer};
ghost use Rattle.rp_semantics.specs.Walk.{Outcome};
ghost use Rattle.rp_oracle.specs.Refines.{StopsBy};
ghost use Rattle.rp_checker.specs.Answers.{Answers, IsRead, echo_with};
ghost use Rattle.rp_checker.specs.Limits.{can_meet_limit, expressions_of_operand};
ghost use Rattle.rp_register_state.specs.Taken.{IsTaken};
ghost use Rattle.rp_check_state.specs.Followed.{change_followed, shown_change, IsFollowed};

use crate::halt::Halt;
use crate::lines::{follow_limit, follow_verdict, follow_verdicts};
use crate::rows::carried_out;
use rp_answer::{Refusal, RowEnd, Verdict, one_line};
use rp_check_state::{Followed, Register};
use rp_command::{Command, Expr, Line, Operand, Verb, Version, Why};
use rp_lists::Name;
use rp_lots::Change;
use rp_oracle::Stopped;
use rp_register_state::Reply;
use rp_syntax::read_line;
use rp_text::read_echo;
use rp_trail::{Form, Trail};
use std::alloc::Global;

/// Follows an answer whose row is stopped. If `allowed`, the next line may report a limit, which the row met or which
/// is in place of a test.
fn follow_stopped(allowed: bool, stopped: Stopped, trail: &mut Trail<'_>) -> Result<(), Halt>
    ensures { (n : ℕ) (s : PlainState) (o : Outcome ModelTrail ModelReply) → StopsBy stopped trail.old o → Answers (λ _. s) result trail.new (follow_walk n s allowed o) }
{
    match stopped {
        Stopped::Wrong => Err(Halt::Wrong(trail.number())),
        Stopped::TakenWrong => Err(Halt::Wrong(trail.number().saturating_sub(1))),
        Stopped::LimitReported | Stopped::Limit => {
            if allowed {
                return follow_limit(trail);
            }
            Err(Halt::Wrong(trail.number()))
        }
        Stopped::Memory(fault) => Err(Halt::Memory(fault)),
    }
}

/// Follows the answer to a line that is no command, after its echo.
fn follow_fault(alloc: Global, why: Why, trail: &mut Trail<'_>) -> Result<(), Halt>
    ensures { (s : PlainState) → Answers (λ _. s) result trail.new (follow_fault s (fault_of why) trail.old) }
{
    follow_verdict(alloc, &Verdict::Refused(Refusal::Bad(why)), trail)
}

/// Follows the answer to an echo, the next line, whose text is no command. The line is wrong if its text is too long.
fn follow_bad(alloc: Global, why: Why, trail: &mut Trail<'_>) -> Result<(), Halt>
    requires { 0 < length trail.old.lines }
    ensures { (n : ℕ) (s : PlainState) → Answers (λ _. s) result trail.new (follow_text n s (bad (fault_of why)) trail.old) }
{
    match why {
        Why::Long => Err(Halt::Wrong(trail.number())),
        Why::Syntax | Why::Range | Why::Zero | Why::Nodes => {
            trail.take();
            follow_fault(alloc, why, trail)
        }
    }
}

/// Returns the echo in the next line: its number and its text. `None` if the next line is no echo, or no line is left.
fn next_echo<'a>(trail: &Trail<'a>) -> Option<(u32, Option<&'a [u8]>)>
    ensures { option_map echo_with result ≡ next_echo trail.now.lines }
{
    let line = trail.peek()?;
    match read_echo(line)? {
        (n, Some(place)) => Some((n, Some(&line[place..]))),
        (n, None) => Some((n, None)),
    }
}

/// Returns whether all names and lots of `region` are there.
fn knows(register: &Register, region: &Expr) -> bool
    ensures { result ≡ is_none (first_unknown_among (parts_in register.now) (expression_of region.now ∷ [])) }
{
    register.first_unknown(region).is_none()
}

/// Returns whether all names and lots of the children of a subdivision are there.
fn knows_children(register: &Register, entries: &[(Name, Expr)]) -> bool
    ensures { result ≡ is_none (first_unknown_among (parts_in register.now) (map (λ c. c.shape) (map child_of entries.now))) }
{
    for (_, region) in entries {
        if !knows(register, region) {
            return false;
        }
    }
    true
}

/// Returns whether all names and lots of `operand` are there.
fn knows_operand(register: &Register, operand: Operand<'_>) -> bool
    ensures { result ≡ is_none (first_unknown_among (parts_in register.now) (expressions_of_operand operand.entry)) }
{
    match operand {
        Operand::Region(region) => knows(register, region),
        Operand::Children(children) => knows_children(register, children.items()),
        Operand::Name(_)
        | Operand::Point(_)
        | Operand::Height(_)
        | Operand::Line(_)
        | Operand::Equals
        | Operand::Names(_)
        | Operand::Missing => true,
    }
}

/// Returns whether all names and lots of `operands` are there.
fn knows_operands(register: &Register, operands: &[Operand<'_>]) -> bool
    ensures { result ≡ is_none (first_unknown_among (parts_in register.now) (flat_map expressions_of_operand operands.now)) }
{
    for operand in operands {
        if !knows_operand(register, *operand) {
            return false;
        }
    }
    true
}

/// Returns whether a command of `verb` can meet a limit.
fn may_meet_limit(verb: Verb) -> bool
    ensures { result ≡ can_meet_limit verb }
{
    match verb {
        Verb::Member
        | Verb::Retire
        | Verb::History
        | Verb::At
        | Verb::Asof
        | Verb::List
        | Verb::Layer => false,
        _ => true,
    }
}

/// Returns whether the report may have a limit in place of the first verdict line of `command`. It may if the command
/// can meet a limit, and all names and lots of its expressions are there.
fn limit_allowed(register: &Register, command: &Command) -> bool
    ensures { result ≡ limit_allowed register.now (command_of command.now) }
{
    may_meet_limit(command.verb()) && knows_operands(register, &command.operands())
}

/// Takes the verdict lines of a reply, and then makes its change. If `allowed`, it takes instead a line that reports a
/// limit, and changes nothing.
fn follow_reply(
    alloc: Global,
    register: &mut Register,
    n: u32,
    allowed: bool,
    followed: Followed,
    trail: &mut Trail<'_>,
) -> Result<(), Halt>
    requires later { IsLaterThan n (state_of_parts register.old) }
    requires taken { IsTaken IsCheckedPart n register.old (change_followed followed) }
    ensures { (o : Outcome ModelTrail ModelReply) → IsFollowed (Ok followed) trail.old o → Answers (λ _. register.new) result trail.new (follow_walk n register.old allowed o) }
{
    if allowed && trail.tells_limit() {
        drop(followed);
        return follow_limit(trail);
    }
    follow_shown(alloc, register, n, followed, trail)
}

/// Takes the verdict lines of a reply without a limit in their place, and then makes its change.
fn follow_shown(
    alloc: Global,
    register: &mut Register,
    n: u32,
    followed: Followed,
    trail: &mut Trail<'_>,
) -> Result<(), Halt>
    requires later { IsLaterThan n (state_of_parts register.old) }
    requires taken { IsTaken IsCheckedPart n register.old (change_followed followed) }
    ensures { (o : Outcome ModelTrail ModelReply) → IsFollowed (Ok followed) trail.old o → Answers (λ _. register.new) result trail.new (follow_walk n register.old false o) }
{
    match followed {
        Followed::Replied(Reply::Told(lines)) => follow_verdicts(alloc, lines.items(), trail),
        Followed::Unshown(number) => Err(Halt::Wrong(number)),
        Followed::Replied(Reply::Changed(change)) => {
            follow_change(alloc, register, n, change, trail)
        }
    }
}

/// Takes the verdict line of a change, and then makes it.
fn follow_change(
    alloc: Global,
    register: &mut Register,
    n: u32,
    change: Change<Form>,
    trail: &mut Trail<'_>,
) -> Result<(), Halt>
    requires later { IsLaterThan n (state_of_parts register.old) }
    requires taken { IsTaken IsCheckedPart n register.old (shown_change change) }
    ensures { Answers (λ _. register.new) result trail.new (follow_reply n register.old (accepted (shown_change change)) trail.old) }
{
    if let Err(halt) = follow_verdict(alloc, &Verdict::Ok, trail) {
        drop(change);
        return Err(halt);
    }
    register.apply(alloc, n, change)?;
    Ok(())
}

/// Follows the rest of an answer, after the row of its command.
fn follow_row(
    alloc: Global,
    register: &mut Register,
    n: u32,
    allowed: bool,
    row: Result<Followed, RowEnd>,
    trail: &mut Trail<'_>,
) -> Result<(), Halt>
    requires later { IsLaterThan n (state_of_parts register.old) }
    requires taken { IfOk row (λ followed. IsTaken IsCheckedPart n register.old (change_followed followed)) }
    ensures { (o : Outcome ModelTrail ModelReply) → IsFollowed row trail.old o → Answers (λ _. register.new) result trail.new (follow_walk n register.old allowed o) }
{
    match row {
        Ok(followed) => follow_reply(alloc, register, n, allowed, followed, trail),
        Err(RowEnd::Refused(refusal)) => {
            register.keep_sound();
            let lines = one_line(alloc, Verdict::Refused(refusal))?;
            let told = Followed::Replied(Reply::Told(lines));
            follow_reply(alloc, register, n, allowed, told, trail)
        }
        Err(RowEnd::Stopped(stopped)) => follow_stopped(allowed, stopped, trail),
    }
}

/// Follows the answer to `command`, after its echo.
fn follow_command(
    alloc: Global,
    register: &mut Register,
    n: u32,
    command: &Command,
    trail: &mut Trail<'_>,
) -> Result<(), Halt>
    requires later { IsLaterThan n (state_of_parts register.old) }
    requires kept { AllByRecursion IsKeptExpression (expressions_of (command_of command.now)) }
    requires heights { AllByRecursion IsHeight (heights_of (command_of command.now)) }
    requires few { HasFewChildren (command_of command.now) }
    ensures { Answers (λ _. register.new) result trail.new (follow_command n register.old (command_of command.now) trail.old) }
{
    register.keep_sound();
    let allowed = limit_allowed(register, command);
    let row = carried_out(alloc, register, command, trail);
    follow_row(alloc, register, n, allowed, row, trail)
}

/// Follows the answer to an echo, the next line, whose text reads as `line`. The echo is wrong if its text is blank or
/// too long.
fn follow_read(
    alloc: Global,
    register: &mut Register,
    n: u32,
    line: &Line,
    trail: &mut Trail<'_>,
) -> Result<(), Halt>
    requires later { IsLaterThan n (state_of_parts register.old) }
    requires left { 0 < length trail.old.lines }
    requires read { IsRead (line_of line.now) }
    ensures { Answers (λ _. register.new) result trail.new (follow_text n register.old (line_of line.now) trail.old) }
{
    match line {
        Line::Blank => Err(Halt::Wrong(trail.number())),
        Line::Bad(why) => follow_bad(alloc, *why, trail),
        Line::Cmd(command) => {
            trail.take();
            follow_command(alloc, register, n, command, trail)
        }
    }
}

/// Follows the answer to an echo, the next line, with `text`, which is read in `version`. The echo is wrong if its text
/// is blank or too long.
fn follow_text(
    alloc: Global,
    register: &mut Register,
    version: Version,
    n: u32,
    text: &[u8],
    trail: &mut Trail<'_>,
) -> Result<(), Halt>
    requires later { IsLaterThan n (state_of_parts register.old) }
    requires left { 0 < length trail.old.lines }
    ensures { Answers (λ _. register.new) result trail.new (follow_text n register.old (reading (version_of version) text.now) trail.old) }
{
    let line = read_line(alloc, version, text)?;
    let followed = follow_read(alloc, register, n, &line, trail);
    drop(line);
    followed
}

/// Follows the answer to an echo, the next line, with or without `text`.
fn follow_echo(
    alloc: Global,
    register: &mut Register,
    version: Version,
    n: u32,
    text: Option<&[u8]>,
    trail: &mut Trail<'_>,
) -> Result<(), Halt>
    requires later { IsLaterThan n (state_of_parts register.old) }
    requires left { 0 < length trail.old.lines }
    ensures { Answers (λ _. register.new) result trail.new (follow_echo (version_of version) n register.old (option_map (λ t. t.now) text.entry) trail.old) }
{
    match text {
        Some(text) => follow_text(alloc, register, version, n, text, trail),
        None => {
            trail.take();
            follow_fault(alloc, Why::Long, trail)
        }
    }
}

/// Takes the lines of the next answer, whose number must be above `last` and whose text is read in `version`, and makes
/// its change. Returns its number.
///
/// # Errors
///
/// `Wrong` with the number of the first line that does not fit; `Memory` if memory runs out.
pub(crate) fn follow_answer(
    alloc: Global,
    register: &mut Register,
    version: Version,
    last: u32,
    trail: &mut Trail<'_>,
) -> Result<u32, Halt>
    requires { IsLaterThan (last + 1) (state_of_parts register.old) }
    ensures { Answers (λ n. record { last = n; state = register.new }) result trail.new (follow_answer (version_of version) (record { last = last; state = register.old }) trail.old) }
{
    let wrong = Halt::Wrong(trail.number());
    let Some((n, text)) = next_echo(trail) else {
        return Err(wrong);
    };
    if n <= last {
        return Err(wrong);
    }
    trail.begin();
    follow_echo(alloc, register, version, n, text, trail)?;
    Ok(n)
}
