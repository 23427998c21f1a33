//! A token, and a token that is sent again (docs/PROTOCOL.md, "The node"). What its ring has against a token, such as that it is old or
//! repeated, is in totem_ring `refusals`; commit tokens are in `commits`.
ghost use Rattle.std.specs.Prelude.{◌≡◌, Err, IfOk, IfSome};
ghost use Rattle.totem_core.specs.Visiting.{visit_told, visit_installed};
ghost use Rattle.totem_core.specs.Table.{on_token};
ghost use Rattle.totem_core.specs.Answers.{IsTold, IsStep, IsResent};

use crate::fault::NodeFault;
use crate::leaving::visit_with_next;
use crate::node_core::NodeCore;
use crate::outcome::StepOut;
use crate::state::State;
use crate::told::{one_step, visit_sends, visit_steps, write_deliveries};
use std::alloc::Global;
use totem_names::ConfId;
use totem_packets::{Body, Token};
use totem_ring::{Act, RingState};

/// Lets a ring take a token as if these bodies waited too, and returns what a node reports of it: the sends are written first, then
/// the deliveries.
#[tactic(auto, using(crate::proofs::Visits::room_with, crate::proofs::Visits::refused_early))]
fn visit_told(
    alloc: Global,
    ring: &mut RingState,
    bodies: &[Body],
    token: &Token,
) -> Result<StepOut, NodeFault>
    ensures { IsTold ring.old ring.new result (visit_told ring.old bodies.now token.now) }
{
    if let Some(fault) = ring.token_refusal_with(bodies, token) {
        return Err(fault.into());
    }
    let conf = ConfId::Regular(ring.ring());
    let mut entries = visit_sends(alloc, ring, bodies, token)?;
    let ring_steps = visit_steps(alloc, ring.ring(), bodies, token)?;
    let (out, undo) = ring.visit_with(alloc, bodies, token)?;
    match write_deliveries(&mut entries, &conf, &out.handed) {
        Ok(()) => Ok(StepOut {
            packets: out.packets,
            entries,
            ring_steps,
        }),
        Err(e) => {
            ring.undo_visit(undo);
            Err(e.into())
        }
    }
}

/// Returns a step that sends the token that the ring passed on again, if it is still kept.
pub fn resend(alloc: Global, ring: &RingState) -> Result<StepOut, NodeFault>
    ensures { IsResent result ring.now }
{
    let out = ring.on_resend(alloc)?;
    Ok(StepOut {
        packets: out.packets,
        entries: Vec::new(alloc),
        ring_steps: one_step(alloc, ring.ring(), Act::Resend)?,
    })
}

impl NodeCore {
    /// Takes a token on the installed ring.
    fn visit_installed(&mut self, alloc: Global, token: &Token) -> Result<StepOut, NodeFault>
        ensures { IsStep self.old self.new result (visit_installed self.old token.now) }
    {
        let told = visit_told(alloc, &mut self.installed, &self.waiting, token)?;
        self.waiting.clear();
        self.quiet = 0;
        Ok(told)
    }

    /// Takes a token.
    pub(crate) fn on_token(&mut self, alloc: Global, token: &Token) -> Result<StepOut, NodeFault>
        ensures { IsStep self.old self.new result (on_token self.old token.now self.old.state) }
    {
        match &mut self.state {
            State::Operational => self.visit_installed(alloc, token),
            State::Gathering(_) => Err(NodeFault::Stale),
            State::Committing(_) => Err(NodeFault::Stale),
            State::InRecovery(x) => {
                let visit = visit_with_next(
                    alloc,
                    &x.recovery,
                    &self.installed,
                    &mut x.ring,
                    token,
                )?;
                Ok(self.note_visit(alloc, visit))
            }
        }
    }
}
