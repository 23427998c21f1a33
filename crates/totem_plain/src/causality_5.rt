//! 5: what a process sent or delivered before it sent a message is delivered before that message (docs/SPECIFICATIONS.md, "5 Causal
//! delivery"). That this holds along chains of any length follows (totem_evs `chains_are_fine`).
ghost use Rattle.std.specs.Prelude.{◌≡◌, ◌↔◌, IsTrue, IfOk};
ghost use Rattle.totem_evs.specs.Answers.{FindsIn};
ghost use Rattle.totem_evs.specs.Events.{log_of};
ghost use Rattle.totem_evs.specs.RingAgreement.{IsHop};
ghost use Rattle.totem_evs.specs.AgreementFaults.{IsNotDeliveredFirst};
ghost use Rattle.totem_evs.specs.RingFaults.{BreaksCausalityIn};
ghost use Rattle.totem_search.specs.Search.{place};
ghost use Rattle.totem_search.specs.Causes.{IsEffect};

use crate::one_log::{delivered_by, delivers_before, delivers_in};
use std::alloc::Global;
use totem_evs::{Entry, Run, SpecNo};
use totem_names::{ConfId, MsgId, Proc, RingId};
use totem_search::{FoundList, FoundPlaces, Relation, Test, least, least_bad, least_places};

/// The deliveries of an effect without its cause before it.
#[derive(Clone, Copy)]
struct Uncaused<'r> {
    run: &'r Run,
    ring: &'r RingId,
    cause: &'r MsgId,
    effect: &'r MsgId,
}

impl Test for Uncaused<'_> {
    ghost of = { λ t. t.run.now.logs };

    ghost bad = { λ t. IsNotDeliveredFirst t.run.now.logs t.ring.now t.cause.now t.effect.now };

    fn run(&self) -> &Run {
        self.run
    }

    fn is_bad(&self, _proc: Proc, log: &[Entry], at: usize) -> bool {
        delivers_in(log, self.ring, self.effect, at)
            && !delivers_before(log, self.ring, self.cause, at)
    }
}

/// The sends of effects of the message that `proc` sends at `first`, each with such a delivery.
#[derive(Clone, Copy)]
struct Effects<'r> {
    run: &'r Run,
    ring: &'r RingId,
    cause: &'r MsgId,
    proc: Proc,
    first: usize,
}

impl Effects<'_> {
    /// Returns whether the sender of the entry at this index sent or delivered the cause before.
    fn is_hop(&self, proc: Proc, log: &[Entry], at: usize) -> bool
        requires { log.now ≡ log_of self.now.run.now.logs proc }
        ensures { IsTrue result ↔ IsHop self.now.run.now.logs self.now.ring.now self.now.cause.now (place self.now.proc self.now.first) (place proc at) }
    {
        let regular = ConfId::Regular(*self.ring);
        if proc.rank() == self.proc.rank() && self.first < at {
            return true;
        }
        delivered_by(log, at, self.cause, &regular)
    }
}

impl Relation for Effects<'_> {
    ghost of = { λ t. t.run.now.logs };

    ghost holds = { λ t. IsEffect t.run.now.logs t.ring.now t.cause.now (place t.proc t.first) };

    fn rest(&self, alloc: Global, proc: Proc, log: &[Entry], at: usize) -> FoundList {
        let Effects {
            run,
            ring,
            cause,
            ..
        } = *self;
        let regular = ConfId::Regular(*ring);
        let Entry::Send(effect, conf, _) = &log[at] else {
            return Ok(None);
        };
        if !conf.is(&regular) {
            return Ok(None);
        }
        if !self.is_hop(proc, log, at) {
            return Ok(None);
        }
        least_bad(
            &Uncaused {
                run,
                ring,
                cause,
                effect,
            },
            alloc,
        )
    }
}

/// The sends of messages that have such an effect.
#[derive(Clone, Copy)]
struct Causes<'r> {
    run: &'r Run,
    ring: &'r RingId,
}

impl Relation for Causes<'_> {
    ghost of = { λ t. t.run.now.logs };

    ghost holds = { λ t. BreaksCausalityIn t.run.now.logs t.ring.now };

    fn rest(&self, alloc: Global, proc: Proc, log: &[Entry], first: usize) -> FoundList {
        let Causes { run, ring } = *self;
        let regular = ConfId::Regular(*ring);
        let Entry::Send(cause, conf, _) = &log[first] else {
            return Ok(None);
        };
        if !conf.is(&regular) {
            return Ok(None);
        }
        least(
            &Effects {
                run,
                ring,
                cause,
                proc,
                first,
            },
            alloc,
            run,
        )
    }
}

/// Returns the least events that break 5 in a regular configuration.
pub fn find(alloc: Global, run: &Run, ring: &RingId) -> FoundPlaces
    ensures { IfOk result (FindsIn run.now.logs ring.now SpecNo.Causality) }
{
    least_places(&Causes { run, ring }, alloc, run)
}
