//! The reasons why a command is not read.
ghost use Rattle.std.specs.Prelude.{◌≡◌};
ghost use Rattle.rp_syntax.specs.declared.fault.ReadFault.TheVariants.{Memory};

use rp_command::Why;
use std::alloc::{AllocError, AllocFailed};

/// The reason why a command was not read.
#[derive(Clone, Copy)]
pub enum ReadFault {
    /// The line is no command, for the reason `Why`.
    Bad(Why),
    /// Memory ran out.
    Memory(AllocError),
}

impl From<AllocError> for ReadFault {
    ghost from_gives = { λ error e. e ≡ Memory error };

    fn from(error: AllocError) -> ReadFault {
        ReadFault::Memory(error)
    }
}

impl<T: Drop> From<AllocFailed<T>> for ReadFault {
    ghost use Rattle.std.specs.Prelude.{alloc_error};

    ghost from_gives = { λ _ e. e ≡ Memory alloc_error };

    fn from(_failed: AllocFailed<T>) -> ReadFault {
        ReadFault::Memory(AllocError)
    }
}
