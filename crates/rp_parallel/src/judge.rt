//! The items that are judged.
ghost use Rattle.std.specs.Prelude.{◌≡◌, ℕ, ◌<◌, IfOk};

use std::alloc::{AllocError, Global};

/// Items in a row, each of which is judged by itself.
///
/// A contract sees in `size` the number of items, and in `meaning` the result at each.
pub trait Judge: Sync {
    /// The result at an item.
    type Out: Send + Drop;

    ghost size: { Self → ℕ };

    ghost meaning: { Self → ℕ → Self.Out };

    /// Returns the number of items.
    fn count(&self) -> usize
        ensures { result ≡ size self.now };

    /// Returns the meaning of the item `i`, from 0 on.
    ///
    /// # Errors
    ///
    /// `AllocError` for want of memory.
    fn judge(&self, alloc: Global, i: usize) -> Result<Self::Out, AllocError>
        requires { i < size self.now }
        ensures { IfOk result (λ out. out ≡ meaning self.now i) };
}
