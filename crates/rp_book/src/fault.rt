//! Why lines were not added to a book.
ghost use Rattle.std.specs.Prelude.{◌≡◌};
ghost use Rattle.rp_book.specs.declared.fault.BookFault.TheVariants.{Memory};

use std::alloc::AllocError;

/// Why lines were not added to a book.
#[derive(Clone, Copy)]
pub enum BookFault {
    /// Memory ran out.
    Memory(AllocError),
    /// The disk is full.
    Full,
    /// The disk failed, now or before.
    Disk,
}

impl From<AllocError> for BookFault {
    ghost from_gives = { λ d e. e ≡ Memory d };

    fn from(error: AllocError) -> Self {
        BookFault::Memory(error)
    }
}
