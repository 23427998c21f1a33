//! A Join (docs/PROTOCOL.md, "The node").
ghost use Rattle.std.specs.Prelude.{◌≡◌, ◌&&◌, Err};
ghost use Rattle.totem_packets.specs.declared.packet.Packet.TheVariants as packet;
ghost use Rattle.totem_packets.specs.Sets.{is_within};
ghost use Rattle.totem_core.specs.Table.{is_late, says_nothing_new, join_in_gather, join_in_commit, on_packet};
ghost use Rattle.totem_core.specs.Transitions.{IsTransition};
ghost use Rattle.totem_core.specs.Answers.{IsStep};

use crate::fault::NodeFault;
use crate::node_core::NodeCore;
use crate::outcome::StepOut;
use crate::reporting::greater;
use crate::state::State;
use crate::transition::Transition;
use std::alloc::Global;
use totem_member::Gather;
use totem_packets::{Join, is_among};

/// Returns whether both sets of the Join are within those of the gathering.
fn is_known(gather: &Gather, join: &Join) -> bool
    ensures { result ≡ (is_within join.now.processes gather.now.sets.processes && is_within join.now.failed gather.now.sets.failed) }
{
    join.processes.is_within(gather.processes()) && join.failed.is_within(gather.failed())
}

/// Returns whether the Join says nothing new: its sender is in M, its sets are within those of the gathering, and its
/// number is not above the gathering's.
fn says_nothing_new(gather: &Gather, join: &Join) -> bool
    ensures { result ≡ says_nothing_new gather.now join.now }
{
    gather.gathered().contains(join.sender)
        && is_known(gather, join)
        && join.seq.get() <= gather.seq().get()
}

impl NodeCore {
    /// Returns whether the Join was sent before its sender entered the installed ring.
    fn is_late(&self, join: &Join) -> bool
        ensures { result ≡ is_late self.now join.now }
    {
        join.sender != self.me
            && is_among(self.installed.members(), join.sender)
            && join.seq.get() < self.installed.ring().seq
    }

    /// Returns the transition that this Join causes in Gather.
    #[tactic(auto, using(crate::proofs::Agreeing::agreed, crate::proofs::Agreeing::refuses))]
    fn join_in_gather(
        &self,
        alloc: Global,
        gather: &Gather,
        join: &Join,
    ) -> Result<Transition, NodeFault>
        ensures { IsTransition result self.now (join_in_gather self.now gather.now join.now) }
    {
        if gather.is_stranger(join) {
            return Err(NodeFault::Stranger);
        }
        let members = gather.consensus_after(join);
        let token = self.token_at(alloc, members, greater(gather.seq(), join.seq))?;
        let next = gather.after_join(alloc, join)?;
        let again = !next.has_same_sets(gather);
        Ok(self.transition_of(alloc, self.quiet, next, again, token)?)
    }

    /// Returns the transition that this Join causes in Commit or Recovery.
    fn join_in_commit(
        &self,
        alloc: Global,
        gather: &Gather,
        join: &Join,
    ) -> Result<Transition, NodeFault>
        ensures { IsTransition result self.now (join_in_commit self.now gather.now join.now) }
    {
        if says_nothing_new(gather, join) {
            return Err(NodeFault::Stale);
        }
        self.to_gather(alloc, &[], Some(join))
    }

    /// Returns the transition that this Join causes.
    fn join_transition(&self, alloc: Global, join: &Join) -> Result<Transition, NodeFault>
        ensures { IsTransition result self.now (on_packet self.now (packet.Join join.now)) }
    {
        if self.is_late(join) {
            return Err(NodeFault::Stale);
        }
        match &self.state {
            State::Operational => self.to_gather(alloc, &[], Some(join)),
            State::Gathering(gather) => self.join_in_gather(alloc, gather, join),
            State::Committing(gather) => self.join_in_commit(alloc, gather, join),
            State::InRecovery(x) => self.join_in_commit(alloc, &x.gather, join),
        }
    }

    /// Takes a Join.
    pub(crate) fn on_join(&mut self, alloc: Global, join: &Join) -> Result<StepOut, NodeFault>
        ensures { IsStep self.old self.new result (on_packet self.old (packet.Join join.now)) }
    {
        match self.join_transition(alloc, join) {
            Ok(transition) => Ok(self.apply(alloc, transition)),
            Err(fault) => Err(fault),
        }
    }
}
