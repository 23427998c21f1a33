//! Messages of a new ring that arrive before it is installed.
ghost use Rattle.std.specs.Prelude.{◌≡◌, Err, IfOk, IfSome, MatchResult};
ghost use Rattle.totem_names.specs.declared.conf.ConfId.TheVariants.{Regular};
ghost use Rattle.totem_recover.specs.Finish.{deliveries};
ghost use Rattle.totem_core.specs.Visiting.{carried, adopting, message_told};
ghost use Rattle.totem_core.specs.Answers.{IsToldAdopting, TellsAdopting};

use crate::fault::NodeFault;
use crate::messages::tell;
use crate::outcome::StepOut;
use std::alloc::{AllocError, Global};
use totem_packets::{Body, Message};
use totem_ring::{RingFault, RingOut, RingState};

/// Returns the old ring's message that a message of the new ring carries, if it carries one.
fn carried(body: &Body) -> Result<Option<Message>, AllocError>
    ensures { IfOk result (λ message. message ≡ carried body.now) }
{
    Ok(match body {
        Body::App { .. } => None,
        Body::Old {
            ring,
            number,
            sender,
            service,
            payload,
        } => Some(Message {
            ring: *ring,
            number: *number,
            sender: *sender,
            body: Body::App {
                service: *service,
                payload: payload.try_clone()?,
            },
        }),
        Body::Mark => None,
    })
}

/// Lets the installed ring adopt the message or ignore it.
fn adopt(installed: &mut RingState, message: Option<Message>) -> Result<(), AllocError>
    ensures { MatchResult result (λ u. installed.new ≡ adopting installed.old message) (λ e. installed.new ≡ installed.old) }
{
    let Some(message) = message else {
        return Ok(());
    };
    match installed.adopt(&message) {
        Ok(()) => Ok(()),
        Err(RingFault::Memory) => Err(AllocError),
        Err(_) => Ok(()),
    }
}

/// Returns what a node reports of a message that the new ring took. The installed ring may adopt the message that it carries.
fn tell_adopting(
    alloc: Global,
    installed: &mut RingState,
    ring: &RingState,
    message: Message,
    out: RingOut,
) -> Result<StepOut, AllocError>
    ensures { TellsAdopting result installed.old installed.new ring.now message out }
{
    let carried = carried(&message.body)?;
    let told = tell(alloc, ring, message, out)?;
    adopt(installed, carried)?;
    Ok(told)
}

/// Takes a message of the new ring. The installed ring may adopt the message that it carries.
#[tactic(auto, using(crate::proofs::Visits::message_refused))]
pub fn message_on_new(
    alloc: Global,
    installed: &mut RingState,
    ring: &mut RingState,
    message: Message,
) -> Result<StepOut, NodeFault>
    ensures { IsToldAdopting result installed.old installed.new ring.old ring.new message (message_told ring.old message) }
{
    let (out, undo) = ring.on_message_with_undo(alloc, &message)?;
    match tell_adopting(alloc, installed, ring, message, out) {
        Ok(told) => Ok(told),
        Err(e) => {
            ring.undo(undo);
            Err(e.into())
        }
    }
}
