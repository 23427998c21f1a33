//! The receivers of a packet.
ghost use Rattle.std.specs.Prelude.{◌≡◌};
ghost use Rattle.totem_net.specs.Addresses.{is_for};

use totem_names::ProcId;

/// The receivers of a packet.
#[derive(Clone, Copy, Debug, PartialEq, Eq)]
pub enum Address {
    /// Every node but this one, the sender.
    AllBut(ProcId),
    /// This node, which may be the sender itself.
    One(ProcId),
}

impl Address {
    /// Returns whether the packet is for this node.
    pub fn is_for(&self, node: ProcId) -> bool
        ensures { result ≡ is_for self.now node }
    {
        match self {
            Address::AllBut(sender) => node.number() != sender.number(),
            Address::One(receiver) => node.number() == receiver.number(),
        }
    }
}
