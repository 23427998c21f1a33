//! A transition of membership: how it changes a node's state, and what it sends.
ghost use Rattle.std.specs.Prelude.{◌≡◌, []};
ghost use Rattle.totem_core.specs.Transitions.{applied};

use crate::node_core::NodeCore;
use crate::outcome::StepOut;
use crate::state::State;
use std::alloc::Global;
use totem_names::RingId;
use totem_packets::{Number, Packet};
use totem_ring::To;

/// A transition of membership: how it changes a node's state, and what it sends. It is made as a whole before the node
/// changes.
#[derive(Drop)]
pub struct Transition {
    pub state: State,
    pub quiet: u8,
    pub seq: Number,
    pub filled: Option<RingId>,
    pub packets: Vec<(To, Packet)>,
}

impl NodeCore {
    /// Applies the transition to the node, and returns what it sends.
    pub(crate) fn apply(&mut self, alloc: Global, transition: Transition) -> StepOut
        ensures node { self.new ≡ applied self.old transition }
        ensures packets { result.packets.items ≡ transition.packets.items }
        ensures entries { result.entries.items ≡ [] }
        ensures ring_steps { result.ring_steps.items ≡ [] }
    {
        self.state = transition.state;
        self.quiet = transition.quiet;
        self.seq = transition.seq;
        self.filled = transition.filled;
        StepOut::sending(alloc, transition.packets)
    }
}
