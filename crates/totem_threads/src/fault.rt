//! Why a run in threads gave no run.
ghost use Rattle.std.specs.Prelude.{◌≡◌};
ghost use Rattle.totem_threads.specs.Faults.{trouble_number, trouble_name, call_trouble, close_trouble};
ghost use Rattle.totem_threads.specs.declared.fault.ThreadsFault.TheVariants.{Memory};

use std::alloc::{AllocError, AllocFailed};
use thiserror::Error;
use totem_books::{BookFault, CloseFault};

/// What a book refused, and why.
#[derive(Clone, Copy, Debug, PartialEq, Eq, Error)]
pub enum BookTrouble {
    /// A call, or its log because that is too long for a run. In a run this is always `BookFault::Long`.
    #[error("a book takes no more calls: {0}")]
    Call(BookFault),
    /// To be closed. This never ends a run.
    #[error("a book can't be closed: {0}")]
    Close(CloseFault),
}

impl BookTrouble {
    /// Returns the number of the fault, in the numbering of faults of calls or of closing.
    pub fn number(&self) -> u8
        ensures { result ≡ trouble_number self.now }
    {
        match self {
            BookTrouble::Call(fault) => fault.number(),
            BookTrouble::Close(fault) => fault.number(),
        }
    }

    /// Returns the name of the fault.
    pub fn name(&self) -> &'static str
        ensures { result.now ≡ trouble_name self.now }
    {
        match self {
            BookTrouble::Call(fault) => fault.name(),
            BookTrouble::Close(fault) => fault.name(),
        }
    }
}

/// Why a run in threads gave no run.
#[derive(Clone, Copy, Debug, PartialEq, Eq, Error)]
pub enum ThreadsFault {
    #[error("{0}")]
    Book(BookTrouble),
    /// Memory was refused, or a thread could not be made.
    #[error("out of memory")]
    Memory,
}

impl From<BookFault> for ThreadsFault {
    ghost from_gives = { λ f e. e ≡ call_trouble f };

    fn from(fault: BookFault) -> ThreadsFault {
        match fault {
            BookFault::Memory => ThreadsFault::Memory,
            other => ThreadsFault::Book(BookTrouble::Call(other)),
        }
    }
}

impl From<CloseFault> for ThreadsFault {
    ghost from_gives = { λ f e. e ≡ close_trouble f };

    fn from(fault: CloseFault) -> ThreadsFault {
        match fault {
            CloseFault::Memory => ThreadsFault::Memory,
            other => ThreadsFault::Book(BookTrouble::Close(other)),
        }
    }
}

impl From<AllocError> for ThreadsFault {
    ghost from_gives = { λ _ e. e ≡ Memory };

    fn from(_e: AllocError) -> ThreadsFault {
        ThreadsFault::Memory
    }
}

impl<T: Drop> From<AllocFailed<T>> for ThreadsFault {
    ghost from_gives = { λ _ e. e ≡ Memory };

    fn from(e: AllocFailed<T>) -> ThreadsFault {
        ThreadsFault::from(AllocError::from(e))
    }
}
