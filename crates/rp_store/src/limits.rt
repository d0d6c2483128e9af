//! The limits of what is kept.

/// The most names.
pub(crate) const MAX_NAMES: usize = 65_536;
