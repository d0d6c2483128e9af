//! Which parts are near.

/// When two boxes meet.
#[derive(Clone, Copy)]
pub enum Reach {
    /// They share more than boundary.
    Overlap,
    /// They share a point, the boundary included.
    Touch,
}
