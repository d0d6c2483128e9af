//! The middles of cells. A cell is a part of space, or the ids of one range at one corner. It is halved on x, on y and
//! on z in turn, and at last by ids. So the cells follow the order of Morton (A computer oriented geodetic data base
//! and a new technique in file sequencing, 1966).
ghost use Rattle.std.specs.Prelude.{◌≡◌, ◌<◌};
ghost use Rattle.rp_boxindex.specs.cells.Halves.{is_upper};

use crate::place::Place;

/// The middle of a cell. Its upper half begins there.
#[derive(Clone, Copy)]
pub(crate) enum Middle {
    X(i32),
    Y(i32),
    Z(i32),
    Id(u32),
}

impl Middle {
    /// Returns the middle of all places.
    pub(crate) fn of_all() -> Middle {
        Middle::X(0)
    }

    /// Returns whether a place of the cell is in its upper half.
    pub(crate) fn is_upper(&self, place: &Place) -> bool
        ensures { result ≡ is_upper self.now place.now }
    {
        match self {
            Middle::X(middle) => *middle <= place.low.x,
            Middle::Y(middle) => *middle <= place.low.y,
            Middle::Z(middle) => *middle <= place.low.z,
            Middle::Id(middle) => *middle <= place.id,
        }
    }

    /// Returns the middle of the half of the cell that has a place. No contract says which it is: the cost of a search
    /// depends on it, and no answer.
    pub(crate) fn next(&self, place: &Place) -> Middle {
        match self {
            Middle::X(middle) => Middle::Y(middle_at(level_of(*middle), place.low.y)),
            Middle::Y(middle) => Middle::Z(middle_at(level_of(*middle), place.low.z)),
            Middle::Z(middle) => match level_of(*middle) {
                0 => Middle::Id(1 << 31),
                level => Middle::X(middle_at(level - 1, place.low.x)),
            },
            Middle::Id(middle) => {
                let level = middle.trailing_zeros().saturating_sub(1).min(31);
                Middle::Id((place.id >> level | 1) << level)
            }
        }
    }
}

/// Returns the level of a middle: halves are 2^level long.
fn level_of(middle: i32) -> u32
    ensures { result < 32 }
{
    middle.trailing_zeros().min(31)
}

/// Returns the middle of the cell of a coordinate whose halves are 2^level long.
fn middle_at(level: u32, coordinate: i32) -> i32
    requires { level < 32 }
{
    if level == 31 {
        0
    } else {
        (coordinate >> level | 1) << level
    }
}
