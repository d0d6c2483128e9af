//! The versions of scripts.

/// A version of scripts: how coordinates are spelled, and how long a line may be.
#[derive(Clone, Copy)]
pub enum Version {
    /// Coordinates are whole numbers of units.
    One,
    /// Coordinates are decimals with three digits after the point; their thousandths are units.
    Two,
}
