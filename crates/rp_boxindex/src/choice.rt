//! Which ids are wanted.
ghost use Rattle.std.specs.Prelude.{◌≡◌, ℕ, Bool};

/// A test of ids.
pub trait Choice {
    ghost passes: { Self → ℕ → Bool };

    /// Returns whether `id` passes.
    fn passes(&self, id: u32) -> bool
        ensures { result ≡ passes self.now id };
}
