//! The reasons why no further answer of a report is read.

use std::alloc::AllocError;
use thiserror::Error;

/// The reason why no further answer of a report is read. The trail and the register are not used afterwards.
#[derive(Clone, Copy, Debug, Drop, Error)]
pub(crate) enum Halt {
    /// The line with this number is wrong, or no line is left where one is due. The number is then the number of lines
    /// plus 1.
    #[error("line {0} is wrong")]
    Wrong(u32),
    /// Memory ran out.
    #[error("out of memory")]
    Memory(AllocError),
}

impl From<AllocError> for Halt {
    ghost use Rattle.std.specs.Prelude.{◌≡◌};
    ghost use Rattle.rp_checker.specs.declared.halt.Halt.TheVariants.{Memory};

    ghost from_gives = { λ x e. e ≡ Memory x };

    fn from(fault: AllocError) -> Halt {
        Halt::Memory(fault)
    }
}
