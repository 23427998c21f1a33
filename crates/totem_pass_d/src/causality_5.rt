//! 5: what a process sent or delivered before it sent a message is delivered before that message, one hop at a time
//! (docs/SPECIFICATIONS.md, "5 Causal delivery", "Passes"). This is the search, which names what breaks it. The rule, which is tried first, is
//! totem_judge_traffic `causality_5`.
ghost use Rattle.std.specs.Prelude.{◌≡◌, ◌↔◌, ◌<◌, IsTrue, IfOk, length};
ghost use Rattle.totem_search.specs.Search.{place, IsOneEvent};
ghost use Rattle.totem_evs.specs.AgreementFaults.{IsNotDeliveredFirst};
ghost use Rattle.totem_evs.specs.RingFaults.{BreaksCausalityIn, MeetsIn};
ghost use Rattle.totem_evs.specs.RingAgreement.{IsHop};
ghost use Rattle.std.specs.Bool.{OnTrue};
ghost use Rattle.totem_evs.specs.Answers.{FindsIn};
ghost use Rattle.totem_pass_d.specs.KnownStays.{AreKnown};
ghost use Rattle.totem_pass_d.specs.Acts.{IsAmong};
ghost use Rattle.totem_pass_d.specs.Search.{IsInside};
ghost use Rattle.totem_search.specs.Causes.{IsEffect};
ghost use Rattle.totem_pass_d.specs.Suspects.{AreSuspects};

use crate::search::{EachIndex, Finder, Relation, first_found, least_found, only};
use crate::stays::{Stay, Stays};
use crate::suspects::{comes_before, suspects_of};
use std::alloc::Global;
use std::collections::BTreeSet;
use totem_evs::{Entry, SpecNo};
use totem_names::{MsgId, Proc};
use totem_search::{FoundList, FoundPlaces};

/// The deliveries of a message without its cause before it.
#[derive(Clone, Copy)]
struct Uncaused<'s, 'r, 'm> {
    stays: &'s Stays<'r>,
    cause: &'m MsgId,
    effect: &'m MsgId,
}

impl Finder for Uncaused<'_, '_, '_> {
    ghost among = { λ s. s.stays.now };

    ghost reaches = { λ s. IsInside };

    ghost holds = { λ s. IsOneEvent (IsNotDeliveredFirst s.stays.now.run.now.logs s.stays.now.ring s.cause.now s.effect.now) };

    fn find_in(&self, alloc: Global, stay: &Stay) -> FoundList {
        let Some(at) = self.stays.delivery_of(stay, self.effect) else {
            return Ok(None);
        };
        if comes_before(self.stays, stay, self.cause, at) {
            return Ok(None);
        }
        Ok(Some(only(alloc, stay.proc, at)?))
    }
}

/// The sends of effects of a message, which this process sent at this index.
#[derive(Clone, Copy)]
struct Effects<'s, 'r, 'm> {
    stays: &'s Stays<'r>,
    cause: &'m MsgId,
    proc: Proc,
    at: usize,
}

impl Effects<'_, '_, '_> {
    /// Returns whether a send at this index of a stay is one hop after the cause: its process sent or delivered the cause.
    fn is_hop(&self, stay: &Stay, at: usize) -> bool
        requires known { AreKnown self.now.stays.now }
        requires among { IsAmong self.now.stays.now.list.items stay.now }
        requires before { at < stay.now.turn }
        ensures { IsTrue result ↔ IsHop self.now.stays.now.run.now.logs self.now.stays.now.ring self.now.cause.now (place self.now.proc self.now.at) (place stay.now.proc at) }
    {
        if stay.proc == self.proc && self.at < at {
            return true;
        }
        comes_before(self.stays, stay, self.cause, at)
    }
}

impl Relation for Effects<'_, '_, '_> {
    ghost among = { λ s. s.stays.now };

    ghost holds = { λ s. IsEffect s.stays.now.run.now.logs s.stays.now.ring s.cause.now (place s.proc s.at) };

    fn rest(&self, alloc: Global, stay: &Stay, at: usize) -> FoundList {
        let Entry::Send(effect, _, _) = self.stays.entry_in(stay, at) else {
            return Ok(None);
        };
        if !self.is_hop(stay, at) {
            return Ok(None);
        }
        let uncaused = Uncaused {
            stays: self.stays,
            cause: self.cause,
            effect,
        };
        first_found(&uncaused, alloc, self.stays)
    }
}

/// The sends of causes. Only suspects can have an effect that is delivered without them.
#[derive(Drop)]
struct Causes<'s, 'r> {
    stays: &'s Stays<'r>,
    suspects: BTreeSet<MsgId>,
    ghost are: { ∥ AreSuspects ⟦<MsgId as Ord>⟧.cmp suspects stays.now.run.now.logs stays.now.ring stays.now.list.items (length stays.now.list.items) 0 ∥₁ },
}

impl Relation for Causes<'_, '_> {
    ghost among = { λ s. s.stays.now };

    ghost holds = { λ s. BreaksCausalityIn s.stays.now.run.now.logs s.stays.now.ring };

    fn rest(&self, alloc: Global, stay: &Stay, at: usize) -> FoundList {
        let Entry::Send(cause, _, _) = self.stays.entry_in(stay, at) else {
            return Ok(None);
        };
        if !self.suspects.contains(cause) {
            return Ok(None);
        }
        let effects = Effects {
            stays: self.stays,
            cause,
            proc: stay.proc,
            at,
        };
        let finder = EachIndex { relation: &effects };
        first_found(&finder, alloc, self.stays)
    }
}

/// Returns the least events that break 5 in this configuration. None is searched for where it is known to be met.
pub fn find(alloc: Global, stays: &Stays, is_met: bool) -> FoundPlaces
    requires known { AreKnown stays.now }
    requires met { OnTrue is_met (MeetsIn stays.now.run.now.logs stays.now.ring SpecNo.Causality) }
    ensures { IfOk result (FindsIn stays.now.run.now.logs stays.now.ring SpecNo.Causality) }
{
    if is_met {
        return Ok(None);
    }
    let suspects = suspects_of(alloc, stays)?;
    let relation = Causes { stays, suspects };
    let finder = EachIndex {
        relation: &relation,
    };
    least_found(&finder, alloc, stays)
}
