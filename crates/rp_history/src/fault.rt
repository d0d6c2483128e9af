//! The reasons why a check on names fails.

use rp_lists::Name;
use std::alloc::AllocError;

/// The reason why a check on names failed.
#[derive(Drop)]
pub enum NameFault {
    /// An id that must be new was registered before.
    Known(Name),
    /// An id that must be live is not.
    Unknown(Name),
    /// An id is given twice.
    Repeated(Name),
    /// A lot is not of the layer of the first one.
    Layers(Name),
    /// Both new ids are one name.
    Same,
    /// Fewer than two ids are given.
    Few,
    /// Memory ran out.
    Memory(AllocError),
}

impl From<AllocError> for NameFault {
    ghost use Rattle.std.specs.Prelude.{◌≡◌};
    ghost use Rattle.rp_history.specs.declared.fault.NameFault.TheVariants.{Memory};

    ghost from_gives = { λ x e. e ≡ Memory x };

    fn from(fault: AllocError) -> NameFault {
        NameFault::Memory(fault)
    }
}
