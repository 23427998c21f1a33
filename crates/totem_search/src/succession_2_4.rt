//! 2.4: regular and transitional configurations alternate (docs/SPECIFICATIONS.md, "2 Changes of configuration").
ghost use Rattle.std.specs.Prelude.{◌≡◌, ◌↔◌, ℕ, ◌<◌, List, IsTrue, IfOk, MatchOption, length};
ghost use Rattle.totem_evs.specs.Events.{log_of, IsChange};
ghost use Rattle.totem_evs.specs.ChangeFaults.{BeginsTransitional};
ghost use Rattle.totem_evs.specs.Answers.{Finds};
ghost use Rattle.totem_search.specs.Turns.{IsTurnFault, IsOtherOrigin, IsOfOtherRing};

use crate::neighbours::{is_transitional, succession_at};
use crate::quick::QuickTests;
use crate::search::{FoundList, FoundPlaces, Relation, begin_at, least, least_places};
use std::alloc::Global;
use totem_evs::{Entry, Run, SpecNo};
use totem_judge_run::is_wrong_succession;
use totem_names::{ConfId, Proc, RingId};

/// Returns whether a change is before this index of a log. Walks back to the last one.
fn comes_later(log: &[Entry], at: usize) -> bool
    requires { at < length log.now }
    ensures { IsTrue result ↔ ((k : ℕ) × (k < at) × IsChange log.now k) }
{
    for back in 0..at {
        if let Entry::Conf(_, _) = &log[at - 1 - back] {
            return true;
        }
    }
    false
}

/// Returns whether the change at this index is the first of its log, and to a transitional configuration.
#[tactic(auto, using(std::proofs::lemmas::Option::slice_get_read, crate::proofs::Turning::begins))]
fn begins_transitional(log: &[Entry], at: usize) -> bool
    requires { at < length log.now }
    ensures { IsTrue result ↔ BeginsTransitional log.now at }
{
    match &log[at] {
        Entry::Conf(conf, _) => is_transitional(conf) && !comes_later(log, at),
        _ => false,
    }
}

/// Returns whether `conf` is the regular configuration of another ring.
fn is_of_other_ring(conf: &ConfId, ring: &RingId) -> bool
    ensures { IsTrue result ↔ IsOfOtherRing ring.now conf.now }
{
    match conf {
        ConfId::Regular(other) => *ring != *other,
        ConfId::Transitional { .. } => false,
    }
}

/// Looks for the changes by which logs above `proc` come to a configuration from another ring.
#[derive(Clone, Copy)]
struct OtherOrigins<'r, 'c> {
    run: &'r Run,
    proc: Proc,
    ring: RingId,
    conf: &'c ConfId,
}

impl Relation for OtherOrigins<'_, '_> {
    ghost of = { λ s. s.run.now.logs };

    ghost holds = { λ s. IsOtherOrigin s.run.now.logs s.proc s.ring s.conf.now };

    fn rest(&self, alloc: Global, proc: Proc, log: &[Entry], at: usize) -> FoundList {
        if proc.rank() <= self.proc.rank() {
            return Ok(None);
        }
        let Some(succession) = succession_at(log, at) else {
            return Ok(None);
        };
        if !is_of_other_ring(succession.conf, &self.ring) || !succession.next.is(self.conf) {
            return Ok(None);
        }
        Ok(Some(begin_at(proc, succession.next_at, Vec::new(alloc))?))
    }
}

/// Looks for what breaks 2.4, with the places of neighbours in their order.
#[derive(Clone, Copy)]
struct Turns<'q, Q> {
    quick: &'q Q,
}

impl<Q: QuickTests> Relation for Turns<'_, Q> {
    ghost of = { λ s. Q.of s.quick.now };

    ghost holds = { λ s. IsTurnFault (Q.of s.quick.now) };

    fn rest(&self, alloc: Global, proc: Proc, log: &[Entry], at: usize) -> FoundList {
        if begins_transitional(log, at) {
            return Ok(Some(Vec::new(alloc)));
        }
        let Some(succession) = succession_at(log, at) else {
            return Ok(None);
        };
        if is_wrong_succession(
            succession.conf,
            succession.members,
            succession.next,
            succession.next_members,
        ) {
            return Ok(Some(begin_at(proc, succession.next_at, Vec::new(alloc))?));
        }
        let ConfId::Regular(ring) = succession.conf else {
            return Ok(None);
        };
        if !self.quick.may_differ(proc, ring, succession.next) {
            return Ok(None);
        }
        let run = self.quick.run();
        let others = OtherOrigins {
            run,
            proc,
            ring: *ring,
            conf: succession.next,
        };
        match least(&others, alloc, run)? {
            None => Ok(None),
            Some(rest) => Ok(Some(begin_at(proc, succession.next_at, rest)?)),
        }
    }
}

/// Finds the least events that break 2.4.
#[tactic(auto, using(crate::proofs::Turning::turns_found))]
pub fn find_turns<Q: QuickTests>(quick: &Q, alloc: Global) -> FoundPlaces
    ensures { IfOk result (Finds (Q.of quick.now) SpecNo.Turns) }
{
    least_places(&Turns { quick }, alloc, quick.run())
}
