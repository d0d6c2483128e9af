//! Why a call of the register is refused.

use rp_lists::Name;
use rp_region::OpFault;
use rp_space::Inside;
use std::alloc::AllocError;
use std::error::Error;
use std::fmt;

/// Why a call of the register is refused. Points that are carried are those of the last proof line of the call's work.
#[derive(Drop)]
pub enum ParcelFault {
    /// A new id was registered before.
    Known(Name),
    /// An old id isn't live.
    Unknown(Name),
    /// An id stands twice.
    Repeated(Name),
    /// An old id isn't of the layer of the first.
    Layers(Name),
    /// Both new ids are one name.
    Same,
    /// There are fewer than two.
    Few,
    /// The region has no part.
    Empty,
    /// More tests than a command may count, more parts than a region or all parcels, or more half-spaces than a part
    /// may have.
    Limit,
    /// The first live parcel of the layer that shares a point with the region, and what shows it.
    Overlaps(Name, Inside),
    /// The side, 1 or 2, has no point.
    EmptySide(u8),
    /// The child of this number has no point.
    EmptyChild(u32),
    /// The child of this number has a point outside the parcel, and what shows it.
    Outside(u32, Inside),
    /// The children of these numbers share a point, and what shows it.
    ChildrenOverlap(u32, u32, Inside),
    /// The parcel has a point that no child has, and what shows it.
    Gap(Inside),
    /// There was no memory.
    Memory(AllocError),
}

impl ParcelFault {
    /// Returns the fault in words, without the numbers that it carries.
    fn words(&self) -> &'static str {
        match self {
            ParcelFault::Known(_) => "an id was registered before",
            ParcelFault::Unknown(_) => "an id is not live",
            ParcelFault::Repeated(_) => "an id stands twice",
            ParcelFault::Layers(_) => "an id is of another layer",
            ParcelFault::Same => "two new ids are one name",
            ParcelFault::Few => "there are fewer than two",
            ParcelFault::Empty => "the region is empty",
            ParcelFault::Limit => "a limit of tests, parts or half-spaces is passed",
            ParcelFault::Overlaps(_, _) => "a live parcel shares a point",
            ParcelFault::EmptySide(_) => "a side is empty",
            ParcelFault::EmptyChild(_) => "a child is empty",
            ParcelFault::Outside(_, _) => "a child is not within the parcel",
            ParcelFault::ChildrenOverlap(_, _, _) => "two children share a point",
            ParcelFault::Gap(_) => "the children leave a gap",
            ParcelFault::Memory(_) => "out of memory",
        }
    }
}

impl fmt::Debug for ParcelFault {
    fn fmt<W: fmt::Write>(&self, f: &mut fmt::Formatter<W>) -> fmt::Result {
        f.write_str(self.words())
    }
}

impl fmt::Display for ParcelFault {
    fn fmt<W: fmt::Write>(&self, f: &mut fmt::Formatter<W>) -> fmt::Result {
        f.write_str(self.words())
    }
}

impl Error for ParcelFault {}

impl From<AllocError> for ParcelFault {
    ghost use Rattle.std.specs.Prelude.{◌≡◌};
    ghost use Rattle.rp_parcels.specs.declared.fault.ParcelFault.TheVariants.{Memory};

    ghost from_gives = { λ x e. e ≡ Memory x };

    fn from(fault: AllocError) -> ParcelFault {
        ParcelFault::Memory(fault)
    }
}

impl From<OpFault> for ParcelFault {
    ghost use Rattle.std.specs.Prelude.{◌≡◌};
    ghost use Rattle.rp_parcels.specs.Faults.{fault_of_parcels};

    ghost from_gives = { λ x e. e ≡ fault_of_parcels x };

    fn from(fault: OpFault) -> ParcelFault {
        match fault {
            OpFault::Limit => ParcelFault::Limit,
            OpFault::Memory(fault) => ParcelFault::Memory(fault),
        }
    }
}
