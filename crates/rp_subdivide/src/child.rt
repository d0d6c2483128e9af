//! Children of a subdivision.

use rp_lists::Name;

/// A child of a subdivision: the id of the new lot, and its form.
#[derive(Drop)]
pub struct Child<F: Drop> {
    pub id: Name,
    pub form: F,
}
