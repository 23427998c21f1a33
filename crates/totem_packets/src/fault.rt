//! Why bytes are not a packet.
ghost use Rattle.std.specs.Prelude.{◌≡◌};
ghost use Rattle.totem_packets.specs.declared.fault.PacketFault.TheVariants.{Memory};
ghost use Rattle.totem_packets.specs.PacketFaults.{fault_number, fault_name};

use std::alloc::{AllocError, AllocFailed};
use thiserror::Error;

/// Why bytes are not a packet: the first fault from left to right.
#[derive(Clone, Copy, Debug, PartialEq, Eq, Error)]
pub enum PacketFault {
    #[error("a field needs more bytes than there are")]
    Short,
    #[error("the first byte names no kind of packet")]
    Kind,
    #[error("a field has a value that is not allowed")]
    Range,
    #[error("bytes after the last field")]
    Trailing,
    #[error("out of memory")]
    Memory,
}

impl PacketFault {
    /// Returns the fault's number, counted from 1 in the order above.
    pub fn number(&self) -> u8
        ensures { result ≡ fault_number self.now }
    {
        match self {
            PacketFault::Short => 1,
            PacketFault::Kind => 2,
            PacketFault::Range => 3,
            PacketFault::Trailing => 4,
            PacketFault::Memory => 5,
        }
    }

    /// Returns the fault's name.
    pub fn name(&self) -> &'static str
        ensures { result.now ≡ fault_name self.now }
    {
        match self {
            PacketFault::Short => "Short",
            PacketFault::Kind => "Kind",
            PacketFault::Range => "Range",
            PacketFault::Trailing => "Trailing",
            PacketFault::Memory => "Memory",
        }
    }
}

impl From<AllocError> for PacketFault {
    ghost from_gives = { λ _ e. e ≡ Memory };

    fn from(_e: AllocError) -> PacketFault {
        PacketFault::Memory
    }
}

impl<T: Drop> From<AllocFailed<T>> for PacketFault {
    ghost from_gives = { λ _ e. e ≡ Memory };

    fn from(e: AllocFailed<T>) -> PacketFault {
        PacketFault::from(AllocError::from(e))
    }
}
