//! Values that are copied without memory.
ghost use Rattle.std.specs.Prelude.{◌≡◌};

/// A value that is copied without memory.
pub trait Copied: Default + Drop {
    /// Returns a copy, which is equal.
    fn copy(&self) -> Self
        ensures { result ≡ self.now };
}
