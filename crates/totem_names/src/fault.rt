//! What can be wrong with a text.
ghost use Rattle.std.specs.Prelude.{◌≡◌};
ghost use Rattle.totem_names.specs.declared.fault.ReadError.TheVariants.{Memory};

use std::alloc::{AllocError, AllocFailed};
use thiserror::Error;

/// What is wrong with a text: the fault of the first byte that breaks a rule, or `Truncated` where it ends too soon.
#[derive(Clone, Copy, Debug, PartialEq, Eq, Error)]
pub enum TextFault {
    #[error("the first line is not a header")]
    Header,
    #[error("unexpected word")]
    Word,
    #[error("expected a number in range, without leading zeros")]
    Number,
    #[error("not in ascending order")]
    Order,
    #[error("invalid process list")]
    Members,
    #[error("unexpected text after the end")]
    End,
    #[error("the text ends too soon")]
    Truncated,
    #[error("too many elements")]
    TooMany,
}

/// Why a text could not be read.
#[derive(Clone, Copy, Debug, PartialEq, Eq, Error)]
pub enum ReadError {
    #[error("out of memory")]
    Memory,
    #[error("reading failed")]
    Read,
    #[error("{0}")]
    Text(TextFault),
}

impl From<AllocError> for ReadError {
    ghost from_gives = { λ _ e. e ≡ Memory };

    fn from(_e: AllocError) -> ReadError {
        ReadError::Memory
    }
}

impl<T: Drop> From<AllocFailed<T>> for ReadError {
    ghost from_gives = { λ _ e. e ≡ Memory };

    fn from(e: AllocFailed<T>) -> ReadError {
        ReadError::from(AllocError::from(e))
    }
}
