//! The children of a subdivision.

use rp_lists::Name;
use rp_region::Region;

/// A child of a subdivision: a new id, and the region that it gets.
#[derive(Drop)]
pub struct Child {
    pub id: Name,
    pub region: Region,
}
