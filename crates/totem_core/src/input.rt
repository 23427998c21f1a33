//! What may happen to a node.
ghost use Rattle.std.specs.Prelude.{◌≡◌, IfOk};

use bytes::Bytes;
use std::alloc::{AllocError, Global};
use totem_names::Service;
use totem_packets::Packet;

/// What may happen to a node.
#[derive(Debug, Drop)]
pub enum Input {
    /// A client asks the node to send this payload of at most 1,024 bytes.
    Submit { service: Service, payload: Bytes },
    /// A packet has arrived.
    Packet(Packet),
    /// The node's timer has run out.
    Timer,
    /// The node fails.
    Crash,
}

impl Input {
    /// Copies the input. The copy shares the bytes of a client's message.
    pub fn try_clone(&self, alloc: Global) -> Result<Input, AllocError>
        ensures { IfOk result (λ input. input ≡ self.now) }
    {
        Ok(match self {
            Input::Submit { service, payload } => Input::Submit {
                service: *service,
                payload: payload.clone()?,
            },
            Input::Packet(packet) => Input::Packet(packet.try_clone(alloc)?),
            Input::Timer => Input::Timer,
            Input::Crash => Input::Crash,
        })
    }
}
