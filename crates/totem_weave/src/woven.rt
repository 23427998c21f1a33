//! The result of weaving the books of a ring.
ghost use Rattle.std.specs.Prelude.{◌≡◌, IfOk};
ghost use Rattle.totem_weave.specs.Woven.{handed_in};

use std::alloc::{AllocError, Global};
use totem_names::Proc;
use totem_packets::Message;
use totem_ring::RingMove;

/// One schedule of all steps of the members of a ring.
#[derive(Debug, Drop)]
pub struct Woven {
    /// The steps, each with the identifier of the member that took it, in the order of the schedule.
    pub steps: Vec<RingMove>,
    /// Each member, in ascending order, with the messages that its steps delivered to the node, in their order.
    pub handed: Vec<(Proc, Vec<Message>)>,
}

/// Returns a copy of these steps.
fn steps_copied(alloc: Global, steps: &[RingMove]) -> Result<Vec<RingMove>, AllocError>
    ensures { IfOk result (λ v. v.items ≡ steps.now) }
{
    let mut copy = Vec::with_capacity(alloc, steps.len())?;
    for step in steps {
        copy.push(step.try_clone(alloc)?)?;
    }
    Ok(copy)
}

/// Returns a copy of these messages.
fn messages_copied(alloc: Global, messages: &[Message]) -> Result<Vec<Message>, AllocError>
    ensures { IfOk result (λ v. v.items ≡ messages.now) }
{
    let mut copy = Vec::with_capacity(alloc, messages.len())?;
    for message in messages {
        copy.push(message.try_clone()?)?;
    }
    Ok(copy)
}

impl Woven {
    pub fn try_clone(&self, alloc: Global) -> Result<Woven, AllocError>
        ensures steps { IfOk result (λ woven. woven.steps.items ≡ self.now.steps.items) }
        ensures handed { IfOk result (λ woven. handed_in woven ≡ handed_in self.now) }
    {
        let steps = steps_copied(alloc, &self.steps)?;
        let mut handed = Vec::with_capacity(alloc, self.handed.len())?;
        for (proc, messages) in &self.handed {
            handed.push((*proc, messages_copied(alloc, messages)?))?;
        }
        Ok(Woven { steps, handed })
    }
}
