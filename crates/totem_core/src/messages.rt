//! A message (docs/PROTOCOL.md, "The node").
ghost use Rattle.std.specs.Prelude.{◌≡◌, Err, IfOk};
ghost use Rattle.totem_names.specs.declared.conf.ConfId.TheVariants.{Regular};
ghost use Rattle.totem_recover.specs.Finish.{deliveries};
ghost use Rattle.totem_core.specs.Nodes.{Operational};
ghost use Rattle.totem_core.specs.Visiting.{message_steps, message_told, message_on_installed};
ghost use Rattle.totem_core.specs.Table.{message_in_operational, message_in_gather, on_message};
ghost use Rattle.totem_core.specs.Answers.{IsTold, IsStep};

use crate::fault::NodeFault;
use crate::node_core::NodeCore;
use crate::outcome::StepOut;
use crate::recovering::message_on_new;
use crate::state::State;
use crate::told::{deliveries_on, one_step};
use std::alloc::{AllocError, Global};
use totem_packets::{Message, is_among};
use totem_ring::{Act, RingOut, RingState, is_same_ring};

/// Returns what a node reports of a message that a ring took.
pub fn tell(
    alloc: Global,
    ring: &RingState,
    message: Message,
    out: RingOut,
) -> Result<StepOut, AllocError>
    ensures { IfOk result (λ told. (told.packets.items ≡ out.packets.items)
        × (told.entries.items ≡ deliveries (Regular ring.now.ring) out.handed.items)
        × (told.ring_steps.items ≡ message_steps ring.now.ring message)) }
{
    Ok(StepOut {
        packets: out.packets,
        entries: deliveries_on(alloc, ring.ring(), &out.handed)?,
        ring_steps: one_step(alloc, ring.ring(), Act::Message(message))?,
    })
}

/// Lets a ring take a message, and returns what a node reports of it.
#[tactic(auto, using(crate::proofs::Visits::message_refused))]
fn message_told(alloc: Global, ring: &mut RingState, message: Message) -> Result<StepOut, NodeFault>
    ensures { IsTold ring.old ring.new result (message_told ring.old message) }
{
    let (out, undo) = ring.on_message_with_undo(alloc, &message)?;
    match tell(alloc, ring, message, out) {
        Ok(told) => Ok(told),
        Err(e) => {
            ring.undo(undo);
            Err(e.into())
        }
    }
}

impl NodeCore {
    /// Takes a message of the installed ring.
    fn message_on_installed(
        &mut self,
        alloc: Global,
        message: Message,
    ) -> Result<StepOut, NodeFault>
        ensures { IsStep self.old self.new result (message_on_installed self.old message) }
    {
        message_told(alloc, &mut self.installed, message)
    }

    /// Takes a message in Operational. One of a foreign ring makes the node gather, together with the message's sender.
    fn message_in_operational(
        &mut self,
        alloc: Global,
        message: Message,
    ) -> Result<StepOut, NodeFault>
        ensures { IsStep self.old self.new result (message_in_operational self.old message) }
    {
        if is_same_ring(message.ring, self.installed.ring()) {
            return self.message_on_installed(alloc, message);
        }
        if is_among(self.installed.members(), message.sender) {
            return Err(NodeFault::OtherRing);
        }
        let transition = self.to_gather(alloc, &[message.sender], None)?;
        Ok(self.apply(alloc, transition))
    }

    /// Takes a message in Gather.
    fn message_in_gather(&mut self, alloc: Global, message: Message) -> Result<StepOut, NodeFault>
        ensures { IsStep self.old self.new result (message_in_gather self.old message) }
    {
        if is_same_ring(message.ring, self.installed.ring()) && self.filled.is_none() {
            return self.message_on_installed(alloc, message);
        }
        Err(NodeFault::OtherRing)
    }

    /// Takes a message.
    pub(crate) fn on_message(
        &mut self,
        alloc: Global,
        message: Message,
    ) -> Result<StepOut, NodeFault>
        ensures { IsStep self.old self.new result (on_message self.old message self.old.state) }
    {
        match &mut self.state {
            State::Operational => self.message_in_operational(alloc, message),
            State::Gathering(_) => self.message_in_gather(alloc, message),
            State::Committing(_) => Err(NodeFault::OtherRing),
            State::InRecovery(x) => {
                if is_same_ring(message.ring, self.installed.ring())
                    || !is_same_ring(message.ring, x.ring.ring())
                {
                    return Err(NodeFault::OtherRing);
                }
                message_on_new(alloc, &mut self.installed, &mut x.ring, message)
            }
        }
    }
}
