//! Why a book was not closed.
ghost use Rattle.std.specs.Prelude.{◌≡◌};
ghost use Rattle.totem_books.specs.Faults.{close_number, close_name};

use thiserror::Error;

/// Why a book was not closed (docs/PROTOCOL.md, "Books").
#[derive(Clone, Copy, Debug, PartialEq, Eq, Error)]
pub enum CloseFault {
    #[error("a seat is missing")]
    SeatMissing,
    /// `close` never says so: no receipt can differ.
    #[error("a receipt differs from the book")]
    ReceiptMismatch,
    /// `close` never says so: it takes no memory.
    #[error("out of memory")]
    Memory,
}

impl CloseFault {
    /// Returns the fault's number, counted from 1 in the order above.
    pub fn number(&self) -> u8
        ensures { result ≡ close_number self.now }
    {
        match self {
            CloseFault::SeatMissing => 1,
            CloseFault::ReceiptMismatch => 2,
            CloseFault::Memory => 3,
        }
    }

    /// Returns the fault's name.
    pub fn name(&self) -> &'static str
        ensures { result.now ≡ close_name self.now }
    {
        match self {
            CloseFault::SeatMissing => "SeatMissing",
            CloseFault::ReceiptMismatch => "ReceiptMismatch",
            CloseFault::Memory => "Memory",
        }
    }
}
