//! A commit token (docs/PROTOCOL.md, "The node").
ghost use Rattle.std.specs.Prelude.{◌≡◌, IfOk, false};
ghost use Rattle.totem_recover.specs.Exchange.{IsReady};
ghost use Rattle.totem_core.specs.Table.{filling, recovering, entering, commit_taken, starting, on_commit_in};
ghost use Rattle.totem_core.specs.Transitions.{IsCommitTransition, Makes};
ghost use Rattle.totem_core.specs.Answers.{IsStep};

use crate::fault::NodeFault;
use crate::gathering::commit_passed_on;
use crate::leaving::visit_first;
use crate::node_core::NodeCore;
use crate::outcome::StepOut;
use crate::state::{Recovering, State};
use crate::transition::Transition;
use std::alloc::{AllocError, Global};
use totem_member::{Act, Gather, Phase, commit_act, passed_on};
use totem_packets::{CommitToken, Number};
use totem_recover::Recovery;
use totem_ring::{RingState, first_token};

impl NodeCore {
    /// Returns the transition in which the node fills in its report, passes the token on and waits for it in Commit.
    fn filling(
        &self,
        alloc: Global,
        gather: &Gather,
        token: CommitToken,
    ) -> Result<Transition, AllocError>
        ensures { IfOk result (λ transition. Makes transition self.now (filling self.now gather.now token)) }
    {
        let ring = token.ring;
        let mut packets = Vec::new(alloc);
        packets.push(commit_passed_on(self.me, token))?;
        Ok(Transition {
            state: State::Committing(gather.try_clone(alloc)?),
            quiet: self.quiet,
            seq: Number::of(ring.seq),
            filled: Some(ring),
            packets,
        })
    }

    /// Returns the recovery that begins with this token, on the new ring in its first state.
    fn recovering(
        &self,
        alloc: Global,
        gather: &Gather,
        token: &CommitToken,
    ) -> Result<Recovering, AllocError>
        requires { IsReady self.now.me self.now.installed token.now }
        ensures { IfOk result (λ x. x ≡ recovering self.now gather.now token.now) }
    {
        let _rule = token.members.as_slice();
        let members = token.members.processes();
        Ok(Recovering {
            gather: gather.try_clone(alloc)?,
            ring: RingState::new(alloc, self.me, token.ring, members.as_slice())?,
            recovery: Recovery::new(alloc, self.me, &self.installed, token)?,
            started: false,
        })
    }

    /// Returns the transition in which the node becomes a member of the new ring and recovers.
    fn entering(
        &self,
        alloc: Global,
        gather: &Gather,
        token: CommitToken,
    ) -> Result<Transition, AllocError>
        requires { IsReady self.now.me self.now.installed token }
        ensures { IfOk result (λ transition. Makes transition self.now (entering self.now gather.now token)) }
    {
        let state = State::InRecovery(self.recovering(alloc, gather, &token)?);
        let mut packets = Vec::new(alloc);
        packets.push(commit_passed_on(self.me, token))?;
        Ok(Transition {
            state,
            quiet: self.quiet,
            seq: self.seq,
            filled: self.filled,
            packets,
        })
    }

    /// Takes a commit token in Gather, Commit or Recovery. Returns `None` if the first token of the new ring is to be
    /// taken.
    fn commit_taken(
        &self,
        alloc: Global,
        gather: &Gather,
        phase: Phase,
        started: bool,
        token: &CommitToken,
    ) -> Result<Option<Transition>, NodeFault>
        ensures { IsCommitTransition result self.now (commit_taken self.now gather.now phase started token.now) }
    {
        let view = self.commit_view(phase, gather, started);
        let report = self.report();
        match commit_act(token, &view, &report)? {
            Act::Filled => {
                let token = passed_on(alloc, token, self.me, &report, Act::Filled)?;
                Ok(Some(self.filling(alloc, gather, token)?))
            }
            Act::Entered => {
                let token = passed_on(alloc, token, self.me, &report, Act::Entered)?;
                Ok(Some(self.entering(alloc, gather, token)?))
            }
            Act::Started => Ok(None),
        }
    }

    /// Returns the transition that this commit token causes, or `None` if the first token of the new ring is to be taken.
    fn commit_transition(
        &self,
        alloc: Global,
        token: &CommitToken,
    ) -> Result<Option<Transition>, NodeFault>
        ensures { IsCommitTransition result self.now (on_commit_in self.now token.now self.now.state) }
    {
        match &self.state {
            State::Operational => Err(NodeFault::Stale),
            State::Gathering(gather) => {
                self.commit_taken(alloc, gather, Phase::Gather, false, token)
            }
            State::Committing(gather) => {
                self.commit_taken(alloc, gather, Phase::Commit, false, token)
            }
            State::InRecovery(x) => {
                self.commit_taken(alloc, &x.gather, Phase::Recovery, x.started, token)
            }
        }
    }

    /// Takes the first token of the new ring at once, because the commit token has come back.
    fn start_ring(&mut self, alloc: Global) -> Result<StepOut, NodeFault>
        ensures { IsStep self.old self.new result (starting self.old self.old.state) }
    {
        match &mut self.state {
            State::Operational => Err(NodeFault::Stale),
            State::Gathering(_) => Err(NodeFault::Stale),
            State::Committing(_) => Err(NodeFault::Stale),
            State::InRecovery(x) => {
                let visit = visit_first(alloc, &self.installed, x)?;
                Ok(self.note_visit(alloc, visit))
            }
        }
    }

    /// Takes a commit token.
    pub(crate) fn on_commit(
        &mut self,
        alloc: Global,
        token: &CommitToken,
    ) -> Result<StepOut, NodeFault>
        ensures { IsStep self.old self.new result (on_commit_in self.old token.now self.old.state) }
    {
        if let Some(transition) = self.commit_transition(alloc, token)? {
            return Ok(self.apply(alloc, transition));
        }
        self.start_ring(alloc)
    }
}
