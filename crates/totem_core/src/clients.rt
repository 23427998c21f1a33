//! A client's message, and the crash (docs/PROTOCOL.md, "The node").
ghost use Rattle.std.specs.Prelude.{◌≡◌, Ok, Err};
ghost use Rattle.totem_core.specs.Table.{on_submit, on_crash};
ghost use Rattle.totem_core.specs.Answers.{IsStep};

use crate::fault::NodeFault;
use crate::node_core::NodeCore;
use crate::outcome::StepOut;
use bytes::Bytes;
use std::alloc::Global;
use totem_evs::Entry;
use totem_names::{ConfId, Service};
use totem_packets::{Body, Payload};
use totem_ring::MOST_WAITING;

/// The greatest length of a payload in bytes.
const LONGEST: usize = 1024;

impl NodeCore {
    /// Queues a client's message for the next visit. `Range` if its payload is too long, `Full` if 16 messages wait.
    pub(crate) fn on_submit(
        &mut self,
        alloc: Global,
        service: Service,
        payload: Bytes,
    ) -> Result<StepOut, NodeFault>
        ensures { IsStep self.old self.new result (on_submit self.old service payload) }
    {
        if payload.len() > LONGEST {
            return Err(NodeFault::Range);
        }
        if self.waiting.len() >= MOST_WAITING {
            return Err(NodeFault::Full);
        }
        self.waiting.push(Body::App {
            service,
            payload: Payload::of(payload),
        })?;
        Ok(StepOut::sending(alloc, Vec::new(alloc)))
    }

    /// Lets the node fail in the configuration of its last change.
    pub(crate) fn on_crash(&mut self, alloc: Global) -> Result<StepOut, NodeFault>
        ensures { IsStep self.old self.new result (Ok (on_crash self.old)) }
    {
        let mut entries = Vec::with_capacity(alloc, 1)?;
        entries.push(Entry::Fail(ConfId::Regular(self.installed.ring())))?;
        self.crashed = true;
        Ok(StepOut {
            packets: Vec::new(alloc),
            entries,
            ring_steps: Vec::new(alloc),
        })
    }
}
