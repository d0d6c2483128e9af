//! The moments for which lots are searched.

/// The moment for which lots are searched.
#[derive(Clone, Copy)]
pub enum Moment {
    /// Now.
    Now,
    /// After the line of this number.
    After(u32),
}
