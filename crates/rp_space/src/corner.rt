//! Corners of polygons.
use rp_lists::Listed;

/// A corner of a polygon, with whole coordinates.
#[derive(Clone, Copy)]
pub struct Corner {
    /// The x coordinate, in units.
    pub x: i32,
    /// The y coordinate, in units.
    pub y: i32,
}

/// A list of corners.
pub type Corners = Listed<Corner>;
