//! Why an output was not put whole.
ghost use Rattle.std.specs.Prelude.{◌≡◌};
ghost use Rattle.rp_scripts.specs.declared.fault.OutputFault.TheVariants.{Put, Memory};

use rp_io::Failed;
use std::alloc::AllocError;

/// Why an output was not put whole.
#[derive(Clone, Copy, Debug, PartialEq, Eq)]
pub enum OutputFault {
    /// A put failed.
    Put,
    /// Memory ran out.
    Memory(AllocError),
}

impl From<Failed> for OutputFault {
    ghost from_gives = { λ _ e. e ≡ Put };

    fn from(_failed: Failed) -> Self {
        OutputFault::Put
    }
}

impl From<AllocError> for OutputFault {
    ghost from_gives = { λ d e. e ≡ Memory d };

    fn from(error: AllocError) -> Self {
        OutputFault::Memory(error)
    }
}
