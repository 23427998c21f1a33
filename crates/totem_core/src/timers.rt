//! A timer (docs/PROTOCOL.md, "The node").
ghost use Rattle.std.specs.Prelude.{◌≡◌};
ghost use Rattle.totem_core.specs.Table.{late, is_quiet, on_timer};
ghost use Rattle.totem_core.specs.Transitions.{IsTransition, IsTimerTransition, IsCounting};
ghost use Rattle.totem_core.specs.Answers.{IsStep};

use crate::fault::NodeFault;
use crate::gathering::join_broadcast;
use crate::node_core::NodeCore;
use crate::outcome::StepOut;
use crate::state::State;
use crate::tokens::resend;
use crate::transition::Transition;
use std::alloc::Global;
use totem_member::Gather;

/// The number of timers that are only counted before the next one makes the node gather.
const QUIET: u8 = 2;

/// The number of timers that are only counted before a gathering gives up those that don't agree.
const PATIENCE: u8 = 1;

impl NodeCore {
    /// Returns whether so many timers were counted that the next one makes the node gather, unless it gathers already.
    fn is_quiet(&self) -> bool
        ensures { result ≡ is_quiet self.now }
    {
        self.quiet >= QUIET
    }

    /// Returns the transition in which a gathering gives up those that did not agree in time.
    #[tactic(auto, using(crate::proofs::Agreeing::agreed, crate::proofs::Agreeing::refuses))]
    fn late(&self, alloc: Global, gather: &Gather) -> Result<Transition, NodeFault>
        ensures { IsTransition result self.now (late self.now gather.now) }
    {
        let token = self.token_at(alloc, gather.consensus_after_timeout(), gather.seq())?;
        let next = gather.after_timeout(alloc)?;
        Ok(self.transition_of(alloc, 0, next, true, token)?)
    }

    /// Returns the transition that this timer causes, or `None` if it is only counted.
    fn timer_transition(&self, alloc: Global) -> Result<Option<Transition>, NodeFault>
        ensures { IsTimerTransition result self.now }
    {
        if let State::Gathering(gather) = &self.state {
            if self.quiet < PATIENCE {
                return Ok(None);
            }
            return Ok(Some(self.late(alloc, gather)?));
        }
        if !self.is_quiet() {
            return Ok(None);
        }
        Ok(Some(self.to_gather(alloc, &[], None)?))
    }

    /// Returns what is sent when a timer is only counted.
    fn sent_again(&self, alloc: Global) -> Result<StepOut, NodeFault>
        ensures { IsCounting result self.now }
    {
        match &self.state {
            State::Operational => resend(alloc, &self.installed),
            State::Gathering(gather) => {
                let mut packets = Vec::new(alloc);
                packets.push(join_broadcast(gather))?;
                Ok(StepOut::sending(alloc, packets))
            }
            State::Committing(_) => Ok(StepOut::sending(alloc, Vec::new(alloc))),
            State::InRecovery(x) => resend(alloc, &x.ring),
        }
    }

    /// Takes a timer that has run out.
    pub(crate) fn on_timer(&mut self, alloc: Global) -> Result<StepOut, NodeFault>
        ensures { IsStep self.old self.new result (on_timer self.old self.old.state) }
    {
        if let Some(transition) = self.timer_transition(alloc)? {
            return Ok(self.apply(alloc, transition));
        }
        let told = self.sent_again(alloc)?;
        self.quiet += 1;
        Ok(told)
    }
}
