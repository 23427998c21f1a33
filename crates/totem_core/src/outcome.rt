//! The outcome of a node's step.
ghost use Rattle.std.specs.Prelude.{◌≡◌, [], IfOk};

use crate::ring_step::RingStep;
use std::alloc::{AllocError, Global};
use totem_evs::Entry;
use totem_names::copied;
use totem_packets::Packet;
use totem_ring::To;

/// The packets that a step sent, the entries that it wrote and its steps on rings, each in order.
#[derive(Debug, Drop)]
pub struct StepOut {
    pub packets: Vec<(To, Packet)>,
    pub entries: Vec<Entry>,
    pub ring_steps: Vec<RingStep>,
}

impl StepOut {
    /// Returns the outcome of a step that sends these packets, writes no entry and takes no step on a ring.
    pub(crate) fn sending(alloc: Global, packets: Vec<(To, Packet)>) -> StepOut
        ensures packets { result.packets.items ≡ packets.items }
        ensures entries { result.entries.items ≡ [] }
        ensures ring_steps { result.ring_steps.items ≡ [] }
    {
        StepOut {
            packets,
            entries: Vec::new(alloc),
            ring_steps: Vec::new(alloc),
        }
    }

    pub fn try_clone(&self, alloc: Global) -> Result<StepOut, AllocError>
        ensures { IfOk result (λ out. (out.packets.items ≡ self.now.packets.items)
            × (out.entries.items ≡ self.now.entries.items)
            × (out.ring_steps.items ≡ self.now.ring_steps.items)) }
    {
        let mut packets = Vec::with_capacity(alloc, self.packets.len())?;
        for sending in &self.packets {
            packets.push((sending.0, sending.1.try_clone(alloc)?))?;
        }
        let entries = copied(alloc, &self.entries)?;
        let mut ring_steps = Vec::with_capacity(alloc, self.ring_steps.len())?;
        for step in &self.ring_steps {
            ring_steps.push(step.try_clone(alloc)?)?;
        }
        Ok(StepOut {
            packets,
            entries,
            ring_steps,
        })
    }
}
