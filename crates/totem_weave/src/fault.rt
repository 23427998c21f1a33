//! Why a ring can't be woven.
ghost use Rattle.std.specs.Prelude.{◌≡◌};
ghost use Rattle.totem_weave.specs.Faults.{weave_number, weave_name};
ghost use Rattle.totem_weave.specs.declared.fault.WeaveFault.TheVariants.{Memory};

use std::alloc::{AllocError, AllocFailed};
use thiserror::Error;
use totem_names::Place;

/// Why the books of a ring are not woven (docs/PROTOCOL.md, "The woven ring").
#[derive(Clone, Copy, Debug, PartialEq, Eq, Error)]
pub enum WeaveFault {
    #[error("expected 1 to 32 members with ascending identifiers, at most one book of each, and no other book with steps on the ring")]
    Members,
    /// The process with its life, and the place of its call among all calls of its book, counted from 1.
    #[error("no schedule of the ring has all steps of call {0}")]
    Orphan(Place),
    #[error("out of memory")]
    Memory,
}

impl WeaveFault {
    /// Returns the fault's number, counted from 1 in the order above.
    pub fn number(&self) -> u8
        ensures { result ≡ weave_number self.now }
    {
        match self {
            WeaveFault::Members => 1,
            WeaveFault::Orphan(_) => 2,
            WeaveFault::Memory => 3,
        }
    }

    /// Returns the fault's name.
    pub fn name(&self) -> &'static str
        ensures { result.now ≡ weave_name self.now }
    {
        match self {
            WeaveFault::Members => "Members",
            WeaveFault::Orphan(_) => "Orphan",
            WeaveFault::Memory => "Memory",
        }
    }
}

impl From<AllocError> for WeaveFault {
    ghost from_gives = { λ _ e. e ≡ Memory };

    fn from(_e: AllocError) -> WeaveFault {
        WeaveFault::Memory
    }
}

impl<T: Drop> From<AllocFailed<T>> for WeaveFault {
    ghost from_gives = { λ _ e. e ≡ Memory };

    fn from(e: AllocFailed<T>) -> WeaveFault {
        WeaveFault::from(AllocError::from(e))
    }
}
