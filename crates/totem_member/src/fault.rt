//! Why a step of membership was refused.
ghost use Rattle.std.specs.Prelude.{◌≡◌};
ghost use Rattle.totem_member.specs.declared.fault.MemberFault.TheVariants.{Memory};
ghost use Rattle.totem_member.specs.MemberFaults.{fault_number, fault_name};

use std::alloc::{AllocError, AllocFailed};
use thiserror::Error;

/// Why a step of membership was refused.
#[derive(Clone, Copy, Debug, PartialEq, Eq, Error)]
pub enum MemberFault {
    #[error("can't gather with the sender")]
    Stranger,
    #[error("the packet is of another gathering, or a duplicate")]
    Stale,
    /// The number of the new ring would pass the greatest number, or the obligation union would have more than 32 processes.
    #[error("a value is out of range")]
    Range,
    #[error("out of memory")]
    Memory,
}

impl MemberFault {
    /// Returns the fault's number, counted from 1 in the order above.
    pub fn number(&self) -> u8
        ensures { result ≡ fault_number self.now }
    {
        match self {
            MemberFault::Stranger => 1,
            MemberFault::Stale => 2,
            MemberFault::Range => 3,
            MemberFault::Memory => 4,
        }
    }

    /// Returns the fault's name.
    pub fn name(&self) -> &'static str
        ensures { result.now ≡ fault_name self.now }
    {
        match self {
            MemberFault::Stranger => "Stranger",
            MemberFault::Stale => "Stale",
            MemberFault::Range => "Range",
            MemberFault::Memory => "Memory",
        }
    }
}

impl From<AllocError> for MemberFault {
    ghost from_gives = { λ _ e. e ≡ Memory };

    fn from(_e: AllocError) -> MemberFault {
        MemberFault::Memory
    }
}

impl<T: Drop> From<AllocFailed<T>> for MemberFault {
    ghost from_gives = { λ _ e. e ≡ Memory };

    fn from(e: AllocFailed<T>) -> MemberFault {
        MemberFault::from(AllocError::from(e))
    }
}
