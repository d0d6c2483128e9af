//! The order of the tree.
ghost use Rattle.std.specs.Prelude.{◌≡◌};
ghost use Rattle.rp_boxindex.specs.tree.Order.{corner_of, place_of, precedes};

use rp_space::IntBox;

/// An id with its box.
pub(crate) type Entry = (u32, IntBox);

/// Returns the least corner of a box.
#[derive(Clone, Copy)]
pub(crate) struct Corner {
    pub(crate) x: i32,
    pub(crate) y: i32,
    pub(crate) z: i32,
}

impl Corner {
    /// Returns the least corner of the box of an entry.
    pub(crate) fn of(entry: &Entry) -> Corner
        ensures { result ≡ corner_of entry.now }
    {
        let [x, y, z] = entry.1.lo;
        Corner { x, y, z }
    }
}

/// Where an entry stands in the order of the tree: by the least x, where two have the same by the least y, then by the
/// least z, and by the id where their least corners are the same.
#[derive(Clone, Copy)]
pub(crate) struct Place {
    pub(crate) low: Corner,
    pub(crate) id: u32,
}

impl Place {
    /// Returns the place of an entry.
    pub(crate) fn of(entry: &Entry) -> Place
        ensures { result ≡ place_of entry.now }
    {
        Place {
            low: Corner::of(entry),
            id: entry.0,
        }
    }

    /// Returns whether the place comes before another.
    pub(crate) fn precedes(&self, other: &Place) -> bool
        ensures { result ≡ precedes self.now other.now }
    {
        let (a, b) = (&self.low, &other.low);
        a.x < b.x
            || (a.x == b.x
                && (a.y < b.y || (a.y == b.y && (a.z < b.z || (a.z == b.z && self.id < other.id)))))
    }
}
