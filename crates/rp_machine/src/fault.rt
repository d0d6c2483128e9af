//! Why an expression has no form.

use rp_lists::Name;
use rp_region::OpFault;
use std::alloc::AllocError;
use thiserror::Error;

/// Why an expression has no form.
#[derive(Clone, Copy, Debug, PartialEq, Eq, Drop, Error)]
pub enum FormFault {
    /// The first name or lot, in reading order, that isn't there.
    #[error("a name or a lot is not there")]
    Unknown(Name),
    /// More tests than a command may count, more parts than a region, or more half-spaces than a part may have.
    #[error("a limit of tests, parts or half-spaces is passed")]
    Limit,
    /// There was no memory.
    #[error("out of memory")]
    Memory(AllocError),
}

impl From<AllocError> for FormFault {
    ghost use Rattle.std.specs.Prelude.{◌≡◌};
    ghost use Rattle.rp_machine.specs.declared.fault.FormFault.TheVariants.{Memory};

    ghost from_gives = { λ x e. e ≡ Memory x };

    fn from(fault: AllocError) -> FormFault {
        FormFault::Memory(fault)
    }
}

impl From<OpFault> for FormFault {
    ghost use Rattle.std.specs.Prelude.{◌≡◌};
    ghost use Rattle.rp_machine.specs.Forms.{fault_of_form};

    ghost from_gives = { λ x e. e ≡ fault_of_form x };

    fn from(fault: OpFault) -> FormFault {
        match fault {
            OpFault::Limit => FormFault::Limit,
            OpFault::Memory(fault) => FormFault::Memory(fault),
        }
    }
}
