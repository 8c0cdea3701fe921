use std::alloc::AllocError;
use thiserror::Error;

/// Why a call of a book was refused.
#[derive(Clone, Copy, Debug, PartialEq, Eq, Error)]
pub enum BookFault {
    /// The descriptor is not open.
    #[error("the descriptor is not open")]
    BadFd = 1,
    /// No number is free.
    #[error("no descriptor number is free")]
    TooMany = 2,
    #[error("out of memory")]
    Memory = 3,
}

impl From<AllocError> for BookFault {
    ghost use Rattle.std.specs.Prelude.{◌≡◌};
    ghost use Rattle.fd_book.specs.declared.book_fault.BookFault.TheVariants.{Memory};

    ghost from_gives = { λ _ fault. fault ≡ Memory };

    fn from(_error: AllocError) -> BookFault {
        BookFault::Memory
    }
}
