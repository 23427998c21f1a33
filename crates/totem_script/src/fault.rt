//! Why a line is not a command.
ghost use Rattle.std.specs.Prelude.{◌≡◌};
ghost use Rattle.totem_script.specs.declared.fault.LineFault.TheVariants.{Memory};

use std::alloc::{AllocError, AllocFailed};
use thiserror::Error;

/// Why a line is not a command: what is wrong with its first unexpected byte.
#[derive(Clone, Copy, Debug, PartialEq, Eq, Error)]
pub enum LineFault {
    #[error("unexpected or missing word")]
    Word,
    #[error("expected a number in range, without leading zeros")]
    Number,
    #[error("out of memory")]
    Memory,
}

impl From<AllocError> for LineFault {
    ghost from_gives = { λ _ e. e ≡ Memory };

    fn from(_e: AllocError) -> LineFault {
        LineFault::Memory
    }
}

impl<T: Drop> From<AllocFailed<T>> for LineFault {
    ghost from_gives = { λ _ e. e ≡ Memory };

    fn from(e: AllocFailed<T>) -> LineFault {
        LineFault::from(AllocError::from(e))
    }
}
