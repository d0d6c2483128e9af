//! The result of a question: verdict lines, or the reason why it ends.
ghost use Rattle.std.specs.Prelude.{◌≡◌, ◌∷◌, [], map, IfOk};
ghost use Rattle.rp_model.specs.commands.Reply.{reply_lines, yes_or_no};
ghost use Rattle.rp_answer.specs.Views.{verdict_of};

use crate::answer::{Refusal, Verdict, Verdicts};
use rp_history::NameFault;
use rp_oracle::Stopped;
use std::alloc::{AllocError, Global};
use std::fmt;
use thiserror::Error;

/// The reason why a row has no reply.
#[derive(Clone, Copy, Drop, Error)]
pub enum RowEnd {
    /// The row refuses the command.
    #[error("the command is refused")]
    Refused(Refusal),
    /// A limit, a wrong report line or want of memory stops the row.
    #[error("the row is stopped")]
    Stopped(Stopped),
}

impl fmt::Debug for RowEnd {
    fn fmt<W: fmt::Write>(&self, f: &mut fmt::Formatter<W>) -> fmt::Result {
        fmt::Display::fmt(self, f)
    }
}

impl From<Stopped> for RowEnd {
    ghost use Rattle.std.specs.Prelude.{◌≡◌};
    ghost use Rattle.rp_answer.specs.declared.reply.RowEnd.TheVariants.{Stopped as StoppedEnd};

    ghost from_gives = { λ x e. e ≡ StoppedEnd x };

    fn from(stopped: Stopped) -> RowEnd {
        RowEnd::Stopped(stopped)
    }
}

impl From<AllocError> for RowEnd {
    ghost use Rattle.std.specs.Prelude.{◌≡◌};
    ghost use Rattle.rp_answer.specs.declared.reply.RowEnd.TheVariants.{Stopped as StoppedEnd};
    ghost use Rattle.rp_oracle.specs.declared.stopped.Stopped.TheVariants.{Memory};

    ghost from_gives = { λ x e. e ≡ StoppedEnd (Memory x) };

    fn from(fault: AllocError) -> RowEnd {
        RowEnd::Stopped(Stopped::Memory(fault))
    }
}

impl From<NameFault> for RowEnd {
    ghost use Rattle.std.specs.Prelude.{◌≡◌};
    ghost use Rattle.rp_answer.specs.Replies.{end_of_names};

    ghost from_gives = { λ x e. e ≡ end_of_names x };

    fn from(fault: NameFault) -> RowEnd {
        match fault {
            NameFault::Known(id) => RowEnd::Refused(Refusal::Known(id)),
            NameFault::Unknown(id) => RowEnd::Refused(Refusal::Unknown(id)),
            NameFault::Repeated(id) => RowEnd::Refused(Refusal::Repeated(id)),
            NameFault::Layers(id) => RowEnd::Refused(Refusal::Layers(id)),
            NameFault::Same => RowEnd::Refused(Refusal::Same),
            NameFault::Few => RowEnd::Refused(Refusal::Few),
            NameFault::Memory(fault) => RowEnd::Stopped(Stopped::Memory(fault)),
        }
    }
}

/// Returns the one verdict line of `verdict`.
///
/// # Errors
///
/// `AllocError` if memory runs out.
pub fn one_line(alloc: Global, verdict: Verdict) -> Result<Verdicts, AllocError>
    ensures { IfOk result (λ lines. map verdict_of lines.items ≡ verdict_of verdict ∷ []) }
{
    let mut lines = Verdicts::new(alloc);
    lines.push(verdict)?;
    Ok(lines)
}

/// Returns the one verdict line `yes` if `is_so`, otherwise `no`.
///
/// # Errors
///
/// `AllocError` if memory runs out.
pub fn yes_or_no(alloc: Global, is_so: bool) -> Result<Verdicts, AllocError>
    ensures { IfOk result (λ lines. reply_lines (map verdict_of lines.items) ≡ yes_or_no is_so) }
{
    if is_so {
        one_line(alloc, Verdict::Yes)
    } else {
        one_line(alloc, Verdict::No)
    }
}
