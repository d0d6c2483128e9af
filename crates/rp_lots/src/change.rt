//! What a row changes.
ghost use Rattle.std.specs.Prelude.{◌≡◌, length};

use rp_history::Birth;
use rp_lists::{Listed, Name, Names};

/// What an accepted command changes.
#[derive(Drop)]
pub enum Change<F: Drop> {
    /// A form is kept under a new name.
    Named(Name, F),
    /// Lots end, and others are born in their place.
    Replaced(Replaced<F>),
    /// The layer is the present one from now on.
    Layer(Name),
}

/// Lots that end, and the births of others in their place, each with its form.
#[derive(Drop)]
pub struct Replaced<F: Drop> {
    pub ends: Names,
    pub births: Listed<Birth>,
    pub forms: Listed<F>,
    ghost each: { length births.items ≡ length forms.items },
}
