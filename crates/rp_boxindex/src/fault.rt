//! Why a box is not taken into an index.
ghost use Rattle.std.specs.Prelude.{◌≡◌};

use std::alloc::{AllocError, AllocFailed};
use thiserror::Error;

/// Why a box is not taken into an index.
#[derive(Clone, Copy, Debug, PartialEq, Eq, Drop, Error)]
pub enum IndexFault {
    /// There is a box under the id.
    #[error("there is a box under the id")]
    Known,
    /// There was no memory.
    #[error("out of memory")]
    Memory(AllocError),
}

impl From<AllocError> for IndexFault {
    ghost use Rattle.rp_boxindex.specs.declared.fault.IndexFault.TheVariants.{Memory};

    ghost from_gives = { λ error e. e ≡ Memory error };

    fn from(error: AllocError) -> IndexFault {
        IndexFault::Memory(error)
    }
}

impl<T: Drop> From<AllocFailed<T>> for IndexFault {
    ghost use Rattle.std.specs.Prelude.{alloc_error};
    ghost use Rattle.rp_boxindex.specs.declared.fault.IndexFault.TheVariants.{Memory};

    ghost from_gives = { λ _ e. e ≡ Memory alloc_error };

    fn from(_failed: AllocFailed<T>) -> IndexFault {
        IndexFault::Memory(AllocError)
    }
}
