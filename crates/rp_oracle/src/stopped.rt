//! The reasons why a walk has no result.

use std::alloc::AllocError;
use thiserror::Error;

/// The reason why a walk has no result. A search returns `Limit` and `Memory` alone.
#[derive(Clone, Copy, Debug, PartialEq, Eq, Drop, Error)]
pub enum Stopped {
    /// The next line of a report does not fit the proof line that is due, or no line is left.
    #[error("the next line is wrong")]
    Wrong,
    /// The last line of a report that was read shows something impossible.
    #[error("the line taken last is wrong")]
    TakenWrong,
    /// The next line of a report states a limit in place of the proof line that is due.
    #[error("the report tells of a limit")]
    LimitReported,
    /// More tests than a command may count, or more parts than a form or more half-spaces than a part may have.
    #[error("a limit of tests, parts or half-spaces is passed")]
    Limit,
    /// There was no memory. The oracle of the tests is not used further.
    #[error("out of memory")]
    Memory(AllocError),
}

impl From<AllocError> for Stopped {
    ghost use Rattle.std.specs.Prelude.{◌≡◌};
    ghost use Rattle.rp_oracle.specs.declared.stopped.Stopped.TheVariants.{Memory};

    ghost from_gives = { λ x e. e ≡ Memory x };

    fn from(fault: AllocError) -> Stopped {
        Stopped::Memory(fault)
    }
}
