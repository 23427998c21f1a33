//! Why a node refused a step.
ghost use Rattle.std.specs.Prelude.{◌≡◌};
ghost use Rattle.totem_core.specs.declared.fault.NodeFault.TheVariants.{Stranger, Memory};
ghost use Rattle.totem_core.specs.Faults.{fault_number, fault_name, of_ring, of_member};

use std::alloc::{AllocError, AllocFailed};
use thiserror::Error;
use totem_member::MemberFault;
use totem_packets::TooMany;
use totem_ring::RingFault;

/// Why a node refused a step (docs/PROTOCOL.md, "The node").
#[derive(Clone, Copy, Debug, PartialEq, Eq, Error)]
pub enum NodeFault {
    #[error("the node has crashed")]
    Stopped,
    #[error("the packet is of another ring")]
    OtherRing,
    #[error("the packet is a duplicate")]
    Repeat,
    #[error("the packet is out of date")]
    Stale,
    #[error("can't gather with these processes")]
    Stranger,
    #[error("a value is out of range")]
    Range,
    #[error("16 messages are already waiting")]
    Full,
    #[error("out of memory")]
    Memory,
}

impl NodeFault {
    /// Returns the fault's number, counted from 1 in the order above.
    pub fn number(&self) -> u8
        ensures { result ≡ fault_number self.now }
    {
        match self {
            NodeFault::Stopped => 1,
            NodeFault::OtherRing => 2,
            NodeFault::Repeat => 3,
            NodeFault::Stale => 4,
            NodeFault::Stranger => 5,
            NodeFault::Range => 6,
            NodeFault::Full => 7,
            NodeFault::Memory => 8,
        }
    }

    /// Returns the fault's name.
    pub fn name(&self) -> &'static str
        ensures { result.now ≡ fault_name self.now }
    {
        match self {
            NodeFault::Stopped => "Stopped",
            NodeFault::OtherRing => "OtherRing",
            NodeFault::Repeat => "Repeat",
            NodeFault::Stale => "Stale",
            NodeFault::Stranger => "Stranger",
            NodeFault::Range => "Range",
            NodeFault::Full => "Full",
            NodeFault::Memory => "Memory",
        }
    }
}

impl From<AllocError> for NodeFault {
    ghost from_gives = { λ _ e. e ≡ Memory };

    fn from(_e: AllocError) -> NodeFault {
        NodeFault::Memory
    }
}

impl<T: Drop> From<AllocFailed<T>> for NodeFault {
    ghost from_gives = { λ _ e. e ≡ Memory };

    fn from(e: AllocFailed<T>) -> NodeFault {
        NodeFault::from(AllocError::from(e))
    }
}

impl From<RingFault> for NodeFault {
    ghost from_gives = { λ f e. e ≡ of_ring f };

    fn from(fault: RingFault) -> NodeFault {
        match fault {
            RingFault::OtherRing => NodeFault::OtherRing,
            RingFault::Repeat => NodeFault::Repeat,
            RingFault::Range => NodeFault::Range,
            RingFault::Full => NodeFault::Full,
            RingFault::Memory => NodeFault::Memory,
        }
    }
}

impl From<TooMany> for NodeFault {
    ghost from_gives = { λ _ e. e ≡ Stranger };

    /// A gathering of too many processes is refused as one with a stranger.
    fn from(_many: TooMany) -> NodeFault {
        NodeFault::Stranger
    }
}

impl From<MemberFault> for NodeFault {
    ghost from_gives = { λ f e. e ≡ of_member f };

    fn from(fault: MemberFault) -> NodeFault {
        match fault {
            MemberFault::Stranger => NodeFault::Stranger,
            MemberFault::Stale => NodeFault::Stale,
            MemberFault::Range => NodeFault::Range,
            MemberFault::Memory => NodeFault::Memory,
        }
    }
}
