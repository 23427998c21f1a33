//! How a node begins to gather, and what it does at consensus (docs/PROTOCOL.md, "The node").
ghost use Rattle.std.specs.Prelude.{◌≡◌, Ok, IfOk};
ghost use Rattle.std.specs.Option.{option_copied};
ghost use Rattle.totem_member.specs.Gathers.{consensus};
ghost use Rattle.totem_member.specs.Steps.{Begins};
ghost use Rattle.totem_core.specs.Nodes.{committed_to};
ghost use Rattle.totem_core.specs.Gathering.{join_broadcast, commit_passed_on, gather_base, gathering_anew, to_gather};
ghost use Rattle.totem_core.specs.Outcomes.{Gives};
ghost use Rattle.totem_core.specs.Transitions.{token_at, looking, IsTransition};

use crate::fault::NodeFault;
use crate::node_core::NodeCore;
use crate::reporting::greater;
use crate::state::State;
use crate::transition::Transition;
use std::alloc::{AllocError, Global};
use totem_member::{CommitView, Gather, Phase, first_commit};
use totem_names::ProcId;
use totem_packets::{CommitToken, Join, Number, Packet, Processes, TooMany};
use totem_ring::To;

/// Returns the gathering's Join as a broadcast.
pub fn join_broadcast(gather: &Gather) -> (To, Packet)
    ensures { result ≡ join_broadcast gather.now }
{
    (To::All, Packet::Join(gather.join()))
}

/// Returns the commit token, addressed to the next of its members.
pub fn commit_passed_on(me: ProcId, token: CommitToken) -> (To, Packet)
    ensures { result ≡ commit_passed_on me token }
{
    let next = token.members.processes().next_after(me);
    (To::One(next), Packet::Commit(token))
}

impl NodeCore {
    /// Returns M, in Commit and Recovery; no processes in other states.
    fn committed(&self) -> Processes
        ensures { result ≡ committed_to self.now.state }
    {
        match &self.state {
            State::Operational => Processes::none(),
            State::Gathering(_) => Processes::none(),
            State::Committing(gather) => gather.gathered(),
            State::InRecovery(x) => x.gather.gathered(),
        }
    }

    /// Returns a new gathering with `extra` in it, unless it would have more than 32 processes. Takes no memory.
    #[tactic(auto, using(crate::proofs::Growing::refused, crate::proofs::Growing::many_members, crate::proofs::Growing::many_extra, crate::proofs::Growing::many_committed))]
    fn new_gather(&self, alloc: Global, extra: &[ProcId]) -> Result<Gather, TooMany>
        ensures { Begins result self.now.me (gather_base self.now extra.now) self.now.seq }
    {
        let members = Processes::none().with_all(self.installed.members())?;
        let known = members.with_all(extra)?;
        let base = known.union(&self.committed())?;
        Gather::new(alloc, self.me, &base, self.seq)
    }

    /// Returns the commit token that the node makes at consensus on these members, if it is the least of them. `seq` is the greatest
    /// ring number that its gathering knows. `Range` if no number is left for the ring.
    pub(crate) fn token_at(
        &self,
        alloc: Global,
        members: Option<Processes>,
        seq: Number,
    ) -> Result<Option<CommitToken>, NodeFault>
        ensures { Gives result (token_at self.now members seq) }
    {
        let Some(members) = members else {
            return Ok(None);
        };
        if !members.is_least(self.me) {
            return Ok(None);
        }
        let view = CommitView {
            me: self.me,
            members,
            seq: greater(self.seq, seq),
            filled: self.filled,
            phase: Phase::Gather,
            started: false,
        };
        Ok(Some(first_commit(alloc, &view, self.report())?))
    }

    /// Returns the transition of a gathering for which the node has made this commit token: to Commit if there is consensus, and
    /// otherwise one that stays in Gather with this count of timers. The gathering's Join is broadcast if it is to be sent `again`.
    #[tactic(auto, using(crate::proofs::Agreeing::agreed))]
    pub(crate) fn transition_of(
        &self,
        alloc: Global,
        quiet: u8,
        gather: Gather,
        again: bool,
        token: Option<CommitToken>,
    ) -> Result<Transition, AllocError>
        requires { token_at self.now (consensus gather) gather.seq ≡ Ok token }
        ensures { IfOk result (λ transition. IsTransition (Ok transition) self.now (looking (record self.now { quiet = quiet }) gather again)) }
    {
        let mut packets = Vec::new(alloc);
        if again {
            packets.push(join_broadcast(&gather))?;
        }
        if gather.consensus().is_none() {
            return Ok(Transition {
                state: State::Gathering(gather),
                quiet,
                seq: self.seq,
                filled: self.filled,
                packets,
            });
        }
        let Some(token) = token else {
            return Ok(Transition {
                state: State::Committing(gather),
                quiet: 0,
                seq: self.seq,
                filled: self.filled,
                packets,
            });
        };
        let ring = token.ring;
        packets.push(commit_passed_on(self.me, token))?;
        Ok(Transition {
            state: State::Committing(gather),
            quiet: 0,
            seq: Number::of(ring.seq),
            filled: Some(ring),
            packets,
        })
    }

    /// Returns the transition with a new gathering: it takes the Join that caused it, its own Join is broadcast once,
    /// and consensus is checked.
    #[tactic(auto, using(crate::proofs::Agreeing::agreed, crate::proofs::Agreeing::refuses, crate::proofs::Agreeing::refuses_anew))]
    fn gathering_anew(
        &self,
        alloc: Global,
        new: Gather,
        cause: Option<&Join>,
    ) -> Result<Transition, NodeFault>
        ensures { IsTransition result self.now (gathering_anew self.now new (option_copied cause.entry)) }
    {
        let Some(join) = cause else {
            let token = self.token_at(alloc, new.consensus(), new.seq())?;
            return Ok(self.transition_of(alloc, 0, new, true, token)?);
        };
        if new.is_stranger(join) {
            return Err(NodeFault::Stranger);
        }
        let token = self.token_at(
            alloc,
            new.consensus_after(join),
            greater(new.seq(), join.seq),
        )?;
        let next = new.after_join(alloc, join)?;
        Ok(self.transition_of(alloc, 0, next, true, token)?)
    }

    /// Returns the transition *to gather*, with the processes `extra` and because of the Join `cause`, if it is given.
    #[tactic(auto, using(crate::proofs::Growing::crowded, crate::proofs::Growing::gathers))]
    pub(crate) fn to_gather(
        &self,
        alloc: Global,
        extra: &[ProcId],
        cause: Option<&Join>,
    ) -> Result<Transition, NodeFault>
        ensures { IsTransition result self.now (to_gather self.now extra.now (option_copied cause.entry)) }
    {
        let new = self.new_gather(alloc, extra)?;
        self.gathering_anew(alloc, new, cause)
    }
}
