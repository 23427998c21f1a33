//! What a step of a ring sends and delivers to the node.
ghost use Rattle.std.specs.Prelude.{◌≡◌, IfOk};

use std::alloc::{AllocError, Global};
use totem_names::ProcId;
use totem_packets::{Message, Packet};

/// The receivers of a packet.
#[derive(Clone, Copy, Debug, PartialEq, Eq)]
pub enum To {
    /// Every other member.
    All,
    /// This member, which may be the sender itself.
    One(ProcId),
}

/// What a step sends and what it delivers to the node, each in order.
#[derive(Debug, Drop)]
pub struct RingOut {
    pub packets: Vec<(To, Packet)>,
    pub handed: Vec<Message>,
}

impl RingOut {
    pub fn try_clone(&self, alloc: Global) -> Result<RingOut, AllocError>
        ensures { IfOk result (λ out. (out.packets.items ≡ self.now.packets.items) × (out.handed.items ≡ self.now.handed.items)) }
    {
        let mut packets = Vec::with_capacity(alloc, self.packets.len())?;
        for sending in &self.packets {
            packets.push((sending.0, sending.1.try_clone(alloc)?))?;
        }
        let mut handed = Vec::with_capacity(alloc, self.handed.len())?;
        for message in &self.handed {
            handed.push(message.try_clone()?)?;
        }
        Ok(RingOut { packets, handed })
    }
}
