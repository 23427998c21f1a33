//! Visits of a new ring, and the finish, which leaves the old ring and installs the new one.
ghost use Rattle.std.specs.Prelude.{◌≡◌, ◌++◌, Err, IfOk, IfSome, OnOk, filter, nat_le, nat_lt};
ghost use Rattle.totem_recover.specs.Exchange.{obligation_after};
ghost use Rattle.totem_recover.specs.Finish.{deliveries};
ghost use Rattle.totem_core.specs.Visiting.{finishing_entries, visit_entries};
ghost use Rattle.totem_core.specs.NewVisits.{IsFirstVisit, IsNewVisit, OwesAfter, visit_noted};

use crate::fault::NodeFault;
use crate::node_core::NodeCore;
use crate::outcome::StepOut;
use crate::ring_step::RingStep;
use crate::state::{Recovering, State};
use crate::told::{visit_steps, write_deliveries};
use std::alloc::{AllocError, Global};
use std::mem;
use totem_evs::Entry;
use totem_names::ConfId;
use totem_packets::{Message, Processes, Token};
use totem_recover::{Recovery, deliver};
use totem_ring::{RingOut, RingState, first_token};

/// Appends the deliveries of those messages whose number is at most `last`.
fn write_up_to(
    entries: &mut Vec<Entry>,
    conf: &ConfId,
    messages: &[Message],
    last: u32,
) -> Result<(), AllocError>
    ensures { OnOk result (entries.new.items ≡ entries.old.items ++ deliveries conf.now (filter (λ m. nat_le m.number last) messages.now)) }
{
    for message in messages {
        if message.number.get() <= last {
            deliver(entries, conf, message)?;
        }
    }
    Ok(())
}

/// Appends the deliveries of those messages whose number is above `last`.
fn write_above(
    entries: &mut Vec<Entry>,
    conf: &ConfId,
    messages: &[Message],
    last: u32,
) -> Result<(), AllocError>
    ensures { OnOk result (entries.new.items ≡ entries.old.items ++ deliveries conf.now (filter (λ m. nat_lt last m.number) messages.now)) }
{
    for message in messages {
        if message.number.get() > last {
            deliver(entries, conf, message)?;
        }
    }
    Ok(())
}

/// Appends these entries.
fn append(entries: &mut Vec<Entry>, more: Vec<Entry>) -> Result<(), AllocError>
    ensures { OnOk result (entries.new.items ≡ entries.old.items ++ more.items) }
{
    for entry in more {
        entries.push(entry)?;
    }
    Ok(())
}

/// Returns the deliveries up to the last mark, then the finish, then the deliveries after the mark.
fn finishing_entries(
    alloc: Global,
    recovery: &Recovery,
    installed: &RingState,
    ring: &RingState,
    handed: &[Message],
) -> Result<Vec<Entry>, AllocError>
    ensures { IfOk result (λ entries. entries.items ≡ finishing_entries recovery.now installed.now ring.now handed.now) }
{
    let last = recovery.last_mark(ring).unwrap_or(0);
    let conf = ConfId::Regular(ring.ring());
    let mut entries = Vec::new(alloc);
    write_up_to(&mut entries, &conf, handed, last)?;
    append(&mut entries, recovery.finish(alloc, installed)?)?;
    write_above(&mut entries, &conf, handed, last)?;
    Ok(entries)
}

/// Returns the entries of a visit that left the new ring in this state and delivered these messages to the node.
fn visit_entries(
    alloc: Global,
    recovery: &Recovery,
    installed: &RingState,
    ring: &RingState,
    handed: &[Message],
) -> Result<Vec<Entry>, AllocError>
    ensures { IfOk result (λ entries. entries.items ≡ visit_entries recovery.now installed.now ring.now handed.now) }
{
    if recovery.is_done(ring) {
        return finishing_entries(alloc, recovery, installed, ring, handed);
    }
    let mut entries = Vec::new(alloc);
    write_deliveries(&mut entries, &ConfId::Regular(ring.ring()), handed)?;
    Ok(entries)
}

/// Returns the entries of a visit that left the new ring in this state, and to whom the node owes messages after it.
fn written_and_owed(
    alloc: Global,
    recovery: &Recovery,
    installed: &RingState,
    ring: &RingState,
    handed: &[Message],
) -> Result<(Vec<Entry>, Processes), AllocError>
    ensures entries { IfOk result (λ noted. noted.0.items ≡ visit_entries recovery.now installed.now ring.now handed.now) }
    ensures obligation { IfOk result (λ noted. noted.1 ≡ obligation_after recovery.now ring.now) }
{
    let entries = visit_entries(alloc, recovery, installed, ring, handed)?;
    let obligation = *recovery.obligation_after(ring);
    Ok((entries, obligation))
}

/// A visit of the new ring: its result, which entries are written of it, and to whom the node owes messages after it.
#[derive(Drop)]
pub struct NewVisit {
    out: RingOut,
    entries: Vec<Entry>,
    ring_steps: Vec<RingStep>,
    obligation: Processes,
}

/// Gives the new ring the next bodies of the list to send, lets it take a token, and returns what is written of the
/// visit.
#[tactic(auto, using(crate::proofs::Visits::refused_early))]
pub(crate) fn visit_with_next(
    alloc: Global,
    recovery: &Recovery,
    installed: &RingState,
    ring: &mut RingState,
    token: &Token,
) -> Result<NewVisit, NodeFault>
    ensures { IsNewVisit result recovery.now installed.now ring.old ring.new token.now }
{
    let bodies = recovery.coming_bodies();
    if let Some(fault) = ring.token_refusal_with(bodies, token) {
        return Err(fault.into());
    }
    let ring_steps = visit_steps(alloc, ring.ring(), bodies, token)?;
    let (out, undo) = ring.visit_with(alloc, bodies, token)?;
    match written_and_owed(alloc, recovery, installed, ring, &out.handed) {
        Ok((entries, obligation)) => Ok(NewVisit {
            out,
            entries,
            ring_steps,
            obligation,
        }),
        Err(e) => {
            ring.undo_visit(undo);
            Err(e.into())
        }
    }
}

/// Lets the new ring take its first token, and records in the recovery that it was taken here.
pub(crate) fn visit_first(
    alloc: Global,
    installed: &RingState,
    x: &mut Recovering,
) -> Result<NewVisit, NodeFault>
    ensures { IsFirstVisit result installed.now x.old x.new }
{
    let token = first_token(alloc, x.ring.ring());
    let visit = visit_with_next(alloc, &x.recovery, installed, &mut x.ring, &token)?;
    x.started = true;
    Ok(visit)
}

impl NodeCore {
    /// Records a visit of the new ring. If every member's mark is delivered to the node, installs that ring and drops the
    /// old one and the recovery; otherwise the recovery continues. Does nothing in any other state.
    pub(crate) fn note_visit(&mut self, alloc: Global, visit: NewVisit) -> StepOut
        requires { OwesAfter visit self.old.state }
        ensures node { self.new ≡ visit_noted self.old visit self.old.state }
        ensures packets { result.packets.items ≡ visit.out.packets.items }
        ensures entries { result.entries.items ≡ visit.entries.items }
        ensures ring_steps { result.ring_steps.items ≡ visit.ring_steps.items }
    {
        let NewVisit {
            out,
            entries,
            ring_steps,
            obligation,
        } = visit;
        if let State::InRecovery(x) = &mut self.state {
            self.quiet = 0;
            if x.recovery.on_ring(&x.ring, &out) {
                mem::swap(&mut self.installed, &mut x.ring);
                self.state = State::Operational;
                self.obligation = Processes::none();
                self.filled = None;
            } else {
                self.obligation = obligation;
            }
        }
        StepOut {
            packets: out.packets,
            entries,
            ring_steps,
        }
    }
}
