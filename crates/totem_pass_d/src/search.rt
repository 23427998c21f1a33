//! The least list of events of a run, or the least single event, that starts in a regular configuration or in what follows it.
ghost use Rattle.std.specs.Prelude.{◌≡◌, ◌<◌, ℕ, IfOk, MatchOption, List, [], ◌∷◌};
ghost use Rattle.std.specs.Bool.{OnTrue, OnFalse};
ghost use Rattle.totem_names.specs.declared.place.Place.{Place};
ghost use Rattle.totem_search.specs.Search.{place, NoneFrom, IsLeastFrom, HoldsOfNone, IsOneEvent};
ghost use Rattle.totem_evs.specs.Answers.{FindsIn, IsLeast};
ghost use Rattle.totem_evs.specs.RingFaults.{MeetsIn};
ghost use Rattle.totem_evs.specs.declared.spec.SpecNo.{SpecNo};
ghost use Rattle.totem_pass_d.specs.declared.stays.Stay.{Stay};
ghost use Rattle.totem_pass_d.specs.declared.stays.Stays.{Stays};
ghost use Rattle.totem_pass_d.specs.KnownStays.{AreKnown};
ghost use Rattle.totem_pass_d.specs.Acts.{IsAmong};
ghost use Rattle.totem_pass_d.specs.Search.{IsInside, IsBrokenAlone, EachBeginsWithin, NoneWithin, IsLeastWithin};

use crate::stays::{Stay, Stays};
use std::alloc::{AllocError, Global};
use totem_names::{Place, Proc};
use totem_search::{FoundList, FoundPlaces, begin_at, places_of};

/// A relation on lists of events that start in one of the stays.
pub trait Relation {
    /// The stays.
    ghost among: { Self → Stays };

    /// What the relation means for a list of places.
    ghost holds: { Self → List Place → Type 0 };

    /// Returns the rest of the least list that starts at this index of a stay.
    fn rest(&self, alloc: Global, stay: &Stay, at: usize) -> FoundList
        requires known { AreKnown (among self.now) }
        requires among { IsAmong (among self.now).list.items stay.now }
        requires inside { IsInside stay.now at }
        ensures { IfOk result (λ found. MatchOption found (NoneFrom (holds self.now) stay.now.proc at) (λ rest. IsLeastFrom (holds self.now) stay.now.proc at rest.items)) };
}

/// A relation on lists of events for which the least list that starts in a stay can be found.
pub trait Finder {
    /// The stays.
    ghost among: { Self → Stays };

    /// The indices of a stay at which a list may start.
    ghost reaches: { Self → Stay → ℕ → Type 0 };

    /// What the relation means for a list of places.
    ghost holds: { Self → List Place → Type 0 };

    /// Returns the least list that starts in this stay.
    fn find_in(&self, alloc: Global, stay: &Stay) -> FoundList
        requires known { AreKnown (among self.now) }
        requires among { IsAmong (among self.now).list.items stay.now }
        ensures { IfOk result (λ found. MatchOption found (NoneWithin (reaches self.now) (holds self.now) stay.now) (λ list. IsLeastWithin (reaches self.now) (holds self.now) stay.now list.items)) };
}

/// Returns the list of one place: this index of a process's log.
pub fn only(alloc: Global, proc: Proc, at: usize) -> Result<Vec<Place>, AllocError>
    requires { at < 1000000 }
    ensures { IfOk result (λ list. list.items ≡ place proc at ∷ []) }
{
    begin_at(proc, at, Vec::new(alloc))
}

/// Tries a relation at each index of a stay.
#[derive(Clone, Copy)]
pub struct EachIndex<'r, R> {
    pub relation: &'r R,
}

impl<R: Relation> Finder for EachIndex<'_, R> {
    ghost among = { λ e. R.among e.relation.now };

    ghost reaches = { λ e. IsInside };

    ghost holds = { λ e. R.holds e.relation.now };

    fn find_in(&self, alloc: Global, stay: &Stay) -> FoundList {
        for at in stay.from + 1..stay.end {
            if let Some(rest) = self.relation.rest(alloc, stay, at)? {
                return Ok(Some(begin_at(stay.proc, at, rest)?));
            }
        }
        Ok(None)
    }
}

/// Returns the least list that a finder finds.
pub fn first_found<F: Finder>(finder: &F, alloc: Global, stays: &Stays) -> FoundList
    requires known { AreKnown stays.now }
    requires among { F.among finder.now ≡ stays.now }
    requires begins { EachBeginsWithin stays.now.list.items (F.reaches finder.now) (F.holds finder.now) }
    ensures { IfOk result (λ found. MatchOption found (HoldsOfNone (F.holds finder.now)) (λ list. IsLeast (F.holds finder.now) list.items)) }
{
    for stay in &stays.list {
        if let Some(list) = finder.find_in(alloc, stay)? {
            return Ok(Some(list));
        }
    }
    Ok(None)
}

/// Returns the least list that a finder finds, as places.
pub fn least_found<F: Finder>(finder: &F, alloc: Global, stays: &Stays) -> FoundPlaces
    requires known { AreKnown stays.now }
    requires among { F.among finder.now ≡ stays.now }
    requires begins { EachBeginsWithin stays.now.list.items (F.reaches finder.now) (F.holds finder.now) }
    ensures { IfOk result (λ found. MatchOption found (HoldsOfNone (F.holds finder.now)) (IsLeast (F.holds finder.now))) }
{
    Ok(places_of(first_found(finder, alloc, stays)?))
}

/// A test for events that break a specification, each by itself.
pub trait EventTest {
    /// The stays.
    ghost among: { Self → Stays };

    /// The specification.
    ghost spec: { SpecNo };

    /// What it means that the event at an index of a process's log breaks the specification.
    ghost breaks: { Self → ℕ → ℕ → Type 0 };

    /// Returns whether the event at this index of a stay breaks the specification.
    fn breaks_at(&self, stay: &Stay, at: usize) -> bool
        requires known { AreKnown (among self.now) }
        requires among { IsAmong (among self.now).list.items stay.now }
        requires inside { IsInside stay.now at }
        ensures there { OnTrue result (breaks self.now stay.now.proc at) }
        ensures never { OnFalse result (breaks self.now stay.now.proc at → ⊥) };
}

/// The lists of one event for the events that a test finds.
#[derive(Clone, Copy)]
struct OneEvent<'t, T> {
    test: &'t T,
}

impl<T: EventTest> Relation for OneEvent<'_, T> {
    ghost among = { λ e. T.among e.test.now };

    ghost holds = { λ e. IsOneEvent (T.breaks e.test.now) };

    fn rest(&self, alloc: Global, stay: &Stay, at: usize) -> FoundList {
        Ok(self.test.breaks_at(stay, at).then_some(Vec::new(alloc)))
    }
}

/// Returns the least event that breaks the specification of a test, which only single events may break. None is searched for where it
/// is known to be met.
pub fn least_event<T: EventTest>(
    test: &T,
    alloc: Global,
    stays: &Stays,
    is_met: bool,
) -> FoundPlaces
    requires known { AreKnown stays.now }
    requires among { T.among test.now ≡ stays.now }
    requires alone { IsBrokenAlone stays.now.run.now.logs stays.now.ring stays.now.list.items T.spec (T.breaks test.now) }
    requires met { OnTrue is_met (MeetsIn stays.now.run.now.logs stays.now.ring T.spec) }
    ensures { IfOk result (FindsIn stays.now.run.now.logs stays.now.ring T.spec) }
{
    if is_met {
        return Ok(None);
    }
    let relation = OneEvent { test };
    let finder = EachIndex {
        relation: &relation,
    };
    least_found(&finder, alloc, stays)
}
