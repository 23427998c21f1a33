//! Why a book refuses a call.
ghost use Rattle.std.specs.Prelude.{◌≡◌};
ghost use Rattle.totem_books.specs.declared.book_fault.BookFault.TheVariants.{Memory};
ghost use Rattle.totem_books.specs.Faults.{book_number, book_name};

use std::alloc::{AllocError, AllocFailed};
use thiserror::Error;

/// Why a book refuses a call (docs/PROTOCOL.md, "Books").
#[derive(Clone, Copy, Debug, PartialEq, Eq, Error)]
pub enum BookFault {
    #[error("1,000,000 calls or entries are stored")]
    Long,
    #[error("out of memory")]
    Memory,
}

impl BookFault {
    /// Returns the fault's number, counted from 1 in the order above.
    pub fn number(&self) -> u8
        ensures { result ≡ book_number self.now }
    {
        match self {
            BookFault::Long => 1,
            BookFault::Memory => 2,
        }
    }

    /// Returns the fault's name.
    pub fn name(&self) -> &'static str
        ensures { result.now ≡ book_name self.now }
    {
        match self {
            BookFault::Long => "Long",
            BookFault::Memory => "Memory",
        }
    }
}

impl From<AllocError> for BookFault {
    ghost from_gives = { λ _ e. e ≡ Memory };

    fn from(_e: AllocError) -> BookFault {
        BookFault::Memory
    }
}

impl<T: Drop> From<AllocFailed<T>> for BookFault {
    ghost from_gives = { λ _ e. e ≡ Memory };

    fn from(e: AllocFailed<T>) -> BookFault {
        BookFault::from(AllocError::from(e))
    }
}
