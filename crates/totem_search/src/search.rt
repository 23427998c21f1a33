//! Finds the least list of events of a run for which something holds, place by place.
ghost use Rattle.std.specs.Prelude.{◌≡◌, ◌↔◌, ◌++◌, ℕ, ◌<◌, ◌≤◌, IsTrue, IfOk, MatchOption, List, ◌∷◌, Some, None, length};
ghost use Rattle.totem_names.specs.declared.place.Place.{Place};
ghost use Rattle.totem_evs.specs.declared.log.Log.{Log};
ghost use Rattle.totem_evs.specs.Events.{log_of};
ghost use Rattle.totem_search.specs.Search.{place, listed, NoneFrom, IsLeastFrom, NoneInLog, IsLeastInLog, HoldsOfNone, EachBegins, IsOneEvent, AreEvents};
ghost use Rattle.totem_evs.specs.Answers.{IsLeast};

use std::alloc::{AllocError, Global};
use totem_evs::{Entry, Fault, Places, Run, SpecNo};
use totem_names::{Place, Proc};

/// What a search for the least list returns: that list or the rest of it, if there is one.
pub type FoundList = Result<Option<Vec<Place>>, AllocError>;

/// What a search for a specification returns: the least list of places that break it, if any do.
pub type FoundPlaces = Result<Option<Places>, AllocError>;

/// A relation on lists of events of one run.
pub trait Relation {
    /// The logs of the run.
    ghost of: { Self → List Log };

    /// What the relation says about a list of places.
    ghost holds: { Self → List Place → Type 0 };

    /// Returns the rest of the least list that begins with the entry at index `at` of a process's log, or `None` if no list does.
    fn rest(&self, alloc: Global, proc: Proc, log: &[Entry], at: usize) -> FoundList
        requires log { log.now ≡ log_of (of self.now) proc }
        requires within { at < length log.now }
        requires few { length log.now ≤ 1000000 }
        ensures { IfOk result (λ found. MatchOption found (NoneFrom (holds self.now) proc at) (λ rest. IsLeastFrom (holds self.now) proc at rest.items)) };
}

/// Returns the list with the place of the entry at this index of a process's log added at the front.
pub fn begin_at(proc: Proc, at: usize, mut rest: Vec<Place>) -> Result<Vec<Place>, AllocError>
    requires { at < 1000000 }
    ensures { IfOk result (λ list. list.items ≡ place proc at ∷ rest.items) }
{
    let first = Place {
        proc,
        at: (at + 1) as u32,
    };
    rest.insert(0, first)?;
    Ok(rest)
}

/// Returns the list that was found as places, or `None` if none was found.
pub fn places_of(found: Option<Vec<Place>>) -> Option<Places>
    ensures { MatchOption found (result ≡ None) (λ list. result ≡ Some list.items) }
{
    found.map(Places::new)
}

/// Returns the least list that begins in this log, or `None` if there is none.
fn least_in<R: Relation>(relation: &R, alloc: Global, proc: Proc, log: &[Entry]) -> FoundList
    requires log { log.now ≡ log_of (R.of relation.now) proc }
    requires few { length log.now ≤ 1000000 }
    ensures { IfOk result (λ found. MatchOption found (NoneInLog (R.holds relation.now) proc (length log.now))
        (λ list. IsLeastInLog (R.holds relation.now) proc (length log.now) list.items)) }
{
    for at in 0..log.len() {
        if let Some(rest) = relation.rest(alloc, proc, log, at)? {
            return Ok(Some(begin_at(proc, at, rest)?));
        }
    }
    Ok(None)
}

/// Returns the least list that is in the relation, or `None` if there is none.
pub fn least<R: Relation>(relation: &R, alloc: Global, run: &Run) -> FoundList
    requires run { run.now.logs ≡ R.of relation.now }
    requires begins { EachBegins run.now.logs (R.holds relation.now) }
    ensures { IfOk result (λ found. MatchOption found (HoldsOfNone (R.holds relation.now)) (λ list. IsLeast (R.holds relation.now) list.items)) }
{
    for log in run.logs.as_slice() {
        if let Some(list) = least_in(relation, alloc, log.proc, log.entries.as_slice())? {
            return Ok(Some(list));
        }
    }
    Ok(None)
}

/// Returns the least list that is in the relation, as places.
pub fn least_places<R: Relation>(relation: &R, alloc: Global, run: &Run) -> FoundPlaces
    requires run { run.now.logs ≡ R.of relation.now }
    requires begins { EachBegins run.now.logs (R.holds relation.now) }
    ensures { IfOk result (λ found. MatchOption found (HoldsOfNone (R.holds relation.now)) (IsLeast (R.holds relation.now))) }
{
    Ok(places_of(least(relation, alloc, run)?))
}

/// A test for events that are bad, each by itself.
pub trait Test {
    /// The logs of the run.
    ghost of: { Self → List Log };

    /// What it means that the entry at an index of a process's log is bad.
    ghost bad: { Self → ℕ → ℕ → Type 0 };

    fn run(&self) -> &Run
        ensures { result.now.logs ≡ of self.now };

    /// Returns whether the entry at this index of a process's log is bad.
    fn is_bad(&self, proc: Proc, log: &[Entry], at: usize) -> bool
        requires log { log.now ≡ log_of (of self.now) proc }
        requires within { at < length log.now }
        ensures { IsTrue result ↔ bad self.now proc at };
}

/// The lists of one event for the events that a test finds bad.
#[derive(Clone, Copy)]
struct OneEvent<'t, T> {
    test: &'t T,
}

impl<T: Test> Relation for OneEvent<'_, T> {
    ghost of = { λ e. T.of e.test.now };

    ghost holds = { λ e. IsOneEvent (T.bad e.test.now) };

    fn rest(&self, alloc: Global, proc: Proc, log: &[Entry], at: usize) -> FoundList {
        Ok(self.test.is_bad(proc, log, at).then_some(Vec::new(alloc)))
    }
}

/// Returns the first event of the run that a test finds bad, as a list, or `None` if there is none.
pub fn least_bad<T: Test>(test: &T, alloc: Global) -> FoundList
    requires { AreEvents (T.of test.now) (T.bad test.now) }
    ensures { IfOk result (λ found. MatchOption found (HoldsOfNone (IsOneEvent (T.bad test.now))) (λ list. IsLeast (IsOneEvent (T.bad test.now)) list.items)) }
{
    least(&OneEvent { test }, alloc, test.run())
}

/// Returns the first event of the run that a test finds bad, as places.
pub fn bad_places<T: Test>(test: &T, alloc: Global) -> FoundPlaces
    requires { AreEvents (T.of test.now) (T.bad test.now) }
    ensures { IfOk result (λ found. MatchOption found (HoldsOfNone (IsOneEvent (T.bad test.now))) (IsLeast (IsOneEvent (T.bad test.now)))) }
{
    Ok(places_of(least_bad(test, alloc)?))
}

/// Appends a fault to the list, if one was found.
pub fn with_found(
    mut faults: Vec<Fault>,
    spec: SpecNo,
    found: Option<Places>,
) -> Result<Vec<Fault>, AllocError>
    ensures { IfOk result (λ list. list.items ≡ faults.items ++ listed spec found) }
{
    if let Some(places) = found {
        faults.push(Fault { spec, places })?;
    }
    Ok(faults)
}

/// Returns the first list with the second appended.
pub fn joined(mut faults: Vec<Fault>, mut others: Vec<Fault>) -> Result<Vec<Fault>, AllocError>
    ensures { IfOk result (λ list. list.items ≡ faults.items ++ others.items) }
{
    faults.append(&mut others)?;
    Ok(faults)
}
