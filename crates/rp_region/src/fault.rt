//! The reasons why an operation has no result.

use std::alloc::AllocError;
use thiserror::Error;

/// The reason why an operation on regions has no result.
#[derive(Clone, Copy, Debug, PartialEq, Eq, Drop, Error)]
pub enum OpFault {
    /// More tests than a command may count, or more parts than a region or more half-spaces than a part may have.
    #[error("a limit of tests, parts or half-spaces is passed")]
    Limit,
    /// There was no memory.
    #[error("out of memory")]
    Memory(AllocError),
}

impl From<AllocError> for OpFault {
    ghost use Rattle.std.specs.Prelude.{◌≡◌};
    ghost use Rattle.rp_region.specs.declared.fault.OpFault.TheVariants.{Memory};

    ghost from_gives = { λ x e. e ≡ Memory x };

    fn from(fault: AllocError) -> OpFault {
        OpFault::Memory(fault)
    }
}
