//! The entries and the ring steps that a node reports of a ring's step.
ghost use Rattle.std.specs.Prelude.{◌≡◌, ◌+◌, ◌++◌, ◌∷◌, [], ◌<◌, ◌^◌, length, IfOk, OnOk};
ghost use Rattle.totem_names.specs.declared.conf.ConfId.TheVariants.{Regular};
ghost use Rattle.totem_ring.specs.Visits.{numbered};
ghost use Rattle.totem_ring.specs.Steps.{given};
ghost use Rattle.totem_recover.specs.Finish.{deliveries};
ghost use Rattle.totem_core.specs.Visiting.{send_of, sends, submits, visit_steps, visit_sends};

use crate::ring_step::RingStep;
use std::alloc::{AllocError, Global};
use totem_evs::Entry;
use totem_names::{ConfId, MsgId, RingId};
use totem_packets::{Body, Message, Token};
use totem_recover::deliver;
use totem_ring::{Act, RingState};

/// Appends the deliveries of these messages.
pub fn write_deliveries(
    entries: &mut Vec<Entry>,
    conf: &ConfId,
    messages: &[Message],
) -> Result<(), AllocError>
    ensures { OnOk result (entries.new.items ≡ entries.old.items ++ deliveries conf.now messages.now) }
{
    for message in messages {
        deliver(entries, conf, message)?;
    }
    Ok(())
}

/// Returns the deliveries of these messages in the regular configuration of their ring.
pub fn deliveries_on(
    alloc: Global,
    ring: RingId,
    messages: &[Message],
) -> Result<Vec<Entry>, AllocError>
    ensures { IfOk result (λ entries. entries.items ≡ deliveries (Regular ring) messages.now) }
{
    let mut entries = Vec::new(alloc);
    write_deliveries(&mut entries, &ConfId::Regular(ring), messages)?;
    Ok(entries)
}

/// Returns the send of a client's message. Any other body has none.
fn send(ring: RingId, number: u32, body: &Body) -> Option<Entry>
    requires { 0 < number }
    ensures { result ≡ send_of (Regular ring) ring number body.now }
{
    match body {
        Body::App { service, .. } => Some(Entry::Send(
            MsgId { ring, number },
            ConfId::Regular(ring),
            *service,
        )),
        Body::Old { .. } => None,
        Body::Mark => None,
    }
}

/// Appends the sends of these bodies, which get the numbers after `seq` on this ring.
fn write_sends(
    entries: &mut Vec<Entry>,
    ring: &RingState,
    seq: u32,
    bodies: &[Body],
) -> Result<(), AllocError>
    requires { seq + length bodies.now < 2 ^ 32 }
    ensures { OnOk result (entries.new.items ≡ entries.old.items ++ sends (Regular ring.now.ring) (numbered ring.now seq bodies.now)) }
{
    let mut number = seq;
    for body in bodies {
        number += 1;
        if let Some(entry) = send(ring.ring(), number, body) {
            entries.push(entry)?;
        }
    }
    Ok(())
}

/// Returns the sends of the bodies that wait on the ring and of the given bodies, which get the numbers after the token's `seq`.
#[tactic(auto, using(crate::proofs::Telling::all_sent))]
pub fn visit_sends(
    alloc: Global,
    ring: &RingState,
    bodies: &[Body],
    token: &Token,
) -> Result<Vec<Entry>, AllocError>
    requires { token.now.seq + (length ring.now.waiting + length bodies.now) < 2 ^ 32 }
    ensures { IfOk result (λ entries. entries.items ≡ visit_sends (given ring.now bodies.now) token.now) }
{
    let mut entries = Vec::new(alloc);
    let waiting = ring.waiting();
    write_sends(&mut entries, ring, token.seq, waiting)?;
    write_sends(&mut entries, ring, token.seq + waiting.len() as u32, bodies)?;
    Ok(entries)
}

/// Returns one step on this ring.
pub fn one_step(alloc: Global, ring: RingId, act: Act) -> Result<Vec<RingStep>, AllocError>
    ensures { IfOk result (λ steps. steps.items ≡ record { ring = ring; act = act } ∷ []) }
{
    let mut steps = Vec::with_capacity(alloc, 1)?;
    steps.push(RingStep { ring, act })?;
    Ok(steps)
}

/// Returns the ring's steps for a visit: these bodies are submitted, then this token is taken.
pub fn visit_steps(
    alloc: Global,
    ring: RingId,
    bodies: &[Body],
    token: &Token,
) -> Result<Vec<RingStep>, AllocError>
    ensures { IfOk result (λ steps. steps.items ≡ visit_steps ring bodies.now token.now) }
{
    let mut steps = Vec::new(alloc);
    for body in bodies {
        steps.push(RingStep {
            ring,
            act: Act::Submit(body.try_clone()?),
        })?;
    }
    steps.push(RingStep {
        ring,
        act: Act::Token(token.try_clone(alloc)?),
    })?;
    Ok(steps)
}
