//! 4: processes that go from one configuration to the next together deliver the same messages in it (docs/SPECIFICATIONS.md, "4 Failure
//! atomicity", "Passes"). This is the search, which names what breaks it. The rule, which is tried first, is totem_judge_traffic `atomicity_4`.
ghost use Rattle.std.specs.Prelude.{◌≡◌, ◌↔◌, ℕ, IsTrue, IfSome, IfNone, IfOk};
ghost use Rattle.std.specs.Bool.{OnTrue, OnFalse};
ghost use Rattle.totem_evs.specs.Events.{log_of, ChangesTo, Delivers};
ghost use Rattle.totem_evs.specs.RingFaults.{BreaksAtomicityIn, MeetsIn};
ghost use Rattle.totem_evs.specs.Answers.{FindsIn};
ghost use Rattle.totem_search.specs.Search.{IsOneEvent};
ghost use Rattle.totem_pass_d.specs.KnownStays.{AreKnown};
ghost use Rattle.totem_pass_d.specs.Acts.{IsAmong};
ghost use Rattle.totem_pass_d.specs.Searched.{IsAnywhere, IsSpan, IsNoChange, NeverDelivers, IsPartner};

use crate::search::{EachIndex, Finder, Relation, first_found, least_found, only};
use crate::stays::{Stay, Stays};
use std::alloc::Global;
use totem_evs::{Entry, SpecNo};
use totem_names::{ConfId, MsgId};
use totem_search::{FoundList, FoundPlaces, begin_at};

/// Returns the index at which a stay changes to this one of its two configurations, and that of the next change or of the end of the stay.
fn span_of(stay: &Stay, conf: &ConfId) -> (usize, usize)
    ensures { IsSpan conf.now stay.now result.0 result.1 }
{
    match conf {
        ConfId::Regular(_) => (stay.from, stay.turn),
        ConfId::Transitional { .. } => (stay.turn, stay.end),
    }
}

/// Returns the configuration to which the log of this stay changes at an index, if any.
fn change_at<'l>(stay: &Stay<'l>, at: usize) -> Option<&'l ConfId>
    ensures found { IfSome result (λ conf. ChangesTo stay.now.log.now at conf.now) }
    ensures none { IfNone result (IsNoChange stay.now.log.now at) }
{
    match stay.log.get(at) {
        Some(Entry::Conf(conf, _)) => Some(conf),
        _ => None,
    }
}

fn changes_to(stay: &Stay, at: usize, conf: &ConfId) -> bool
    ensures { IsTrue result ↔ ChangesTo stay.now.log.now at conf.now }
{
    match change_at(stay, at) {
        None => false,
        Some(other) => other.is(conf),
    }
}

/// The changes to the next configuration by processes that do not deliver the message before.
#[derive(Clone, Copy)]
struct Partings<'s, 'r, 'm> {
    stays: &'s Stays<'r>,
    message: &'m MsgId,
    conf: &'m ConfId,
    next: &'m ConfId,
}

impl Partings<'_, '_, '_> {
    /// Returns whether the process of this stay delivers the message in this configuration.
    fn is_delivered(&self, stay: &Stay) -> bool
        requires known { AreKnown self.now.stays.now }
        requires among { IsAmong self.now.stays.now.list.items stay.now }
        ensures there { OnTrue result ((l : ℕ) × Delivers (log_of self.now.stays.now.run.now.logs stay.now.proc) l self.now.message.now self.now.conf.now) }
        ensures never { OnFalse result (NeverDelivers (log_of self.now.stays.now.run.now.logs stay.now.proc) self.now.stays.now.ring self.now.message.now self.now.conf.now) }
    {
        let Some(at) = self.stays.delivery_of(stay, self.message) else {
            return false;
        };
        match self.stays.entry_in(stay, at) {
            Entry::Deliver(_, conf) => conf.is(self.conf),
            _ => false,
        }
    }
}

impl Finder for Partings<'_, '_, '_> {
    ghost among = { λ p. p.stays.now };

    ghost reaches = { λ p. IsAnywhere };

    ghost holds = { λ p. IsOneEvent (IsPartner p.stays.now.run.now.logs p.stays.now.ring p.message.now p.conf.now p.next.now) };

    fn find_in(&self, alloc: Global, stay: &Stay) -> FoundList {
        let (change, next) = span_of(stay, self.conf);
        if !changes_to(stay, change, self.conf) {
            return Ok(None);
        }
        if !changes_to(stay, next, self.next) {
            return Ok(None);
        }
        if self.is_delivered(stay) {
            return Ok(None);
        }
        Ok(Some(only(alloc, stay.proc, next)?))
    }
}

/// The deliveries by processes that go on to a next configuration.
#[derive(Clone, Copy)]
struct Deliveries<'s, 'r> {
    stays: &'s Stays<'r>,
}

impl Relation for Deliveries<'_, '_> {
    ghost among = { λ d. d.stays.now };

    ghost holds = { λ d. BreaksAtomicityIn d.stays.now.run.now.logs d.stays.now.ring };

    fn rest(&self, alloc: Global, stay: &Stay, at: usize) -> FoundList {
        let Entry::Deliver(message, conf) = self.stays.entry_in(stay, at) else {
            return Ok(None);
        };
        let (_, next_at) = span_of(stay, conf);
        let Some(next) = change_at(stay, next_at) else {
            return Ok(None);
        };
        let partings = Partings {
            stays: self.stays,
            message,
            conf,
            next,
        };
        let Some(list) = first_found(&partings, alloc, self.stays)? else {
            return Ok(None);
        };
        Ok(Some(begin_at(stay.proc, next_at, list)?))
    }
}

/// Returns the least events that break 4 in this configuration. None is searched for where it is known to be met.
pub fn find(alloc: Global, stays: &Stays, is_met: bool) -> FoundPlaces
    requires known { AreKnown stays.now }
    requires met { OnTrue is_met (MeetsIn stays.now.run.now.logs stays.now.ring SpecNo.Atomicity) }
    ensures { IfOk result (FindsIn stays.now.run.now.logs stays.now.ring SpecNo.Atomicity) }
{
    if is_met {
        return Ok(None);
    }
    let relation = Deliveries { stays };
    let finder = EachIndex {
        relation: &relation,
    };
    least_found(&finder, alloc, stays)
}
