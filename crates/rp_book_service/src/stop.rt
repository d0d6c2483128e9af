//! Why a call stopped before it was done.
ghost use Rattle.std.specs.Prelude.{◌≡◌};
ghost use Rattle.rp_book_service.specs.Cause.{stop_of_output};
ghost use Rattle.rp_book_service.specs.declared.stop.Stop.TheVariants.{Book, Memory, Put};

use rp_book::BookFault;
use rp_io::Failed;
use rp_scripts::OutputFault;
use std::alloc::AllocError;

/// How many bytes a script would have.
#[derive(Clone, Copy)]
pub enum Length {
    /// So many.
    Exactly(usize),
    /// More than so many: the input was not read to its end.
    MoreThan(usize),
}

/// Why a call stopped before it was done. Nothing was added, but for `Book` of [`crate::replay::replay`].
#[derive(Clone, Copy)]
pub enum Stop {
    /// A read of the input failed.
    Read,
    /// A put of the output failed.
    Put,
    /// Memory ran out.
    Memory(AllocError),
    /// The script of the book, with the lines of the input, would have more than 16,777,216 bytes.
    TooLong(Length),
    /// The lines of the input change the register, and questions are wanted.
    Change,
    /// The book failed.
    Book(BookFault),
}

impl From<AllocError> for Stop {
    ghost from_gives = { λ d e. e ≡ Memory d };

    fn from(error: AllocError) -> Self {
        Stop::Memory(error)
    }
}

impl From<OutputFault> for Stop {
    ghost from_gives = { λ d e. e ≡ stop_of_output d };

    fn from(fault: OutputFault) -> Self {
        match fault {
            OutputFault::Put => Stop::Put,
            OutputFault::Memory(error) => Stop::Memory(error),
        }
    }
}

impl From<Failed> for Stop {
    ghost from_gives = { λ _ e. e ≡ Put };

    fn from(_failed: Failed) -> Self {
        Stop::Put
    }
}

impl From<BookFault> for Stop {
    ghost from_gives = { λ d e. e ≡ Book d };

    fn from(fault: BookFault) -> Self {
        Stop::Book(fault)
    }
}
