//! Finds the least list of one entry that is bad alone, or of two that are bad together.
ghost use Rattle.std.specs.Prelude.{◌≡◌, ◌↔◌, ℕ, ◌<◌, List, IsTrue, IfOk, MatchOption, Some, slice_get};
ghost use Rattle.std.specs.Bool.{OnFalse};
ghost use Rattle.totem_evs.specs.declared.entry.Entry.{Entry};
ghost use Rattle.totem_evs.specs.declared.log.Log.{Log};
ghost use Rattle.totem_evs.specs.Events.{log_of};
ghost use Rattle.totem_evs.specs.Answers.{IsLeast};
ghost use Rattle.totem_search.specs.Search.{HoldsOfNone, IsOneEvent};
ghost use Rattle.totem_search.specs.Pairs.{Has, IsOneOrTwo};

use crate::search::{FoundList, FoundPlaces, Relation, Test, least_bad, least_places};
use std::alloc::Global;
use totem_evs::{Entry, Run};
use totem_names::Proc;

/// An entry, with its process and its index.
#[derive(Clone, Copy)]
pub struct Standing<'a> {
    pub proc: Proc,
    pub at: usize,
    pub entry: &'a Entry,
}

/// Says which entries of a run are bad alone, and which two are bad together.
pub trait OneOrTwoTest {
    /// The logs of the run.
    ghost of: { Self → List Log };

    ghost alone: { Self → ℕ → ℕ → Entry → Type 0 };

    ghost pair: { Self → ℕ → ℕ → Entry → ℕ → ℕ → Entry → Type 0 };

    fn run(&self) -> &Run
        ensures { result.now.logs ≡ of self.now };

    fn is_alone(&self, first: &Standing) -> bool
        ensures { IsTrue result ↔ alone self.now first.now.proc first.now.at first.now.entry.now };

    fn is_pair(&self, first: &Standing, second: &Standing) -> bool
        ensures { IsTrue result ↔ pair self.now first.now.proc first.now.at first.now.entry.now second.now.proc second.now.at second.now.entry.now };

    /// Returns `false` only if no entry is bad together with this one: a quick test that can make the search unnecessary.
    fn may_pair(&self, first: &Standing) -> bool
        requires few { first.now.at < 1000000 }
        requires here { slice_get (log_of (of self.now) first.now.proc) first.now.at ≡ Some first.now.entry.now }
        ensures { OnFalse result (HoldsOfNone (IsOneEvent (Has (of self.now) (pair self.now first.now.proc first.now.at first.now.entry.now)))) };
}

/// Looks for entries that are bad together with this one.
#[derive(Clone, Copy)]
struct Partners<'t, 'e, T> {
    test: &'t T,
    first: Standing<'e>,
}

impl<T: OneOrTwoTest> Test for Partners<'_, '_, T> {
    ghost of = { λ s. T.of s.test.now };

    ghost bad = { λ s. Has (T.of s.test.now) (T.pair s.test.now s.first.proc s.first.at s.first.entry.now) };

    fn run(&self) -> &Run {
        self.test.run()
    }

    fn is_bad(&self, proc: Proc, log: &[Entry], at: usize) -> bool {
        let entry = &log[at];
        self.test
            .is_pair(&self.first, &Standing { proc, at, entry })
    }
}

/// Looks for entries that are bad alone, or together with another one.
#[derive(Clone, Copy)]
struct OneOrTwo<'t, T> {
    test: &'t T,
}

impl<T: OneOrTwoTest> Relation for OneOrTwo<'_, T> {
    ghost of = { λ s. T.of s.test.now };

    ghost holds = { λ s. IsOneOrTwo (T.of s.test.now) (T.alone s.test.now) (T.pair s.test.now) };

    fn rest(&self, alloc: Global, proc: Proc, log: &[Entry], at: usize) -> FoundList {
        let test = self.test;
        let entry = &log[at];
        let first = Standing { proc, at, entry };
        if test.is_alone(&first) {
            return Ok(Some(Vec::new(alloc)));
        }
        if !test.may_pair(&first) {
            return Ok(None);
        }
        least_bad(&Partners { test, first }, alloc)
    }
}

/// Finds the least list of one or two entries of the run that are bad according to this test.
pub fn least_pair<T: OneOrTwoTest>(test: &T, alloc: Global) -> FoundPlaces
    ensures { IfOk result (λ found. MatchOption found (HoldsOfNone (IsOneOrTwo (T.of test.now) (T.alone test.now) (T.pair test.now)))
        (IsLeast (IsOneOrTwo (T.of test.now) (T.alone test.now) (T.pair test.now)))) }
{
    least_places(&OneOrTwo { test }, alloc, test.run())
}
