//! Why a step of a ring was refused.
ghost use Rattle.std.specs.Prelude.{◌≡◌};
ghost use Rattle.totem_ring.specs.declared.fault.RingFault.TheVariants.{Memory};
ghost use Rattle.totem_ring.specs.RingFaults.{fault_number, fault_name};

use std::alloc::{AllocError, AllocFailed};
use thiserror::Error;

/// Why a step of a ring was refused. If several reasons hold, the first of them in this order is given.
#[derive(Clone, Copy, Debug, PartialEq, Eq, Error)]
pub enum RingFault {
    #[error("the packet is of another ring")]
    OtherRing,
    #[error("the packet is a duplicate")]
    Repeat,
    #[error("a value is out of range")]
    Range,
    #[error("16 messages are already waiting")]
    Full,
    #[error("out of memory")]
    Memory,
}

impl RingFault {
    /// Returns the fault's number, counted from 1 in the order above.
    pub fn number(&self) -> u8
        ensures { result ≡ fault_number self.now }
    {
        match self {
            RingFault::OtherRing => 1,
            RingFault::Repeat => 2,
            RingFault::Range => 3,
            RingFault::Full => 4,
            RingFault::Memory => 5,
        }
    }

    /// Returns the fault's name.
    pub fn name(&self) -> &'static str
        ensures { result.now ≡ fault_name self.now }
    {
        match self {
            RingFault::OtherRing => "OtherRing",
            RingFault::Repeat => "Repeat",
            RingFault::Range => "Range",
            RingFault::Full => "Full",
            RingFault::Memory => "Memory",
        }
    }
}

impl From<AllocError> for RingFault {
    ghost from_gives = { λ _ e. e ≡ Memory };

    fn from(_e: AllocError) -> RingFault {
        RingFault::Memory
    }
}

impl<T: Drop> From<AllocFailed<T>> for RingFault {
    ghost from_gives = { λ _ e. e ≡ Memory };

    fn from(e: AllocFailed<T>) -> RingFault {
        RingFault::from(AllocError::from(e))
    }
}
