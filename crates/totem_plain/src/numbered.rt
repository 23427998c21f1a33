//! Tests of the entries of a run with their numbers, pair by pair.
ghost use Rattle.std.specs.Prelude.{ℕ, MatchBool, length};
ghost use Rattle.totem_names.specs.declared.place.Place.{Place};
ghost use Rattle.totem_evs.specs.declared.entry.Entry.{Entry};
ghost use Rattle.totem_evs.specs.Certificates.{Matches};
ghost use Rattle.totem_evs.specs.Runs.{IsRun};
ghost use Rattle.totem_outcome.specs.Counts.{IsLineOf};
ghost use Rattle.totem_outcome.specs.Numbered.{place};
ghost use Rattle.totem_outcome.specs.Each.{EachEvent, SomeEvent, OfTwo, EachPair, SomePair};
ghost use Rattle.totem_plain.specs.Numbered.{EachIn, SomeIn};

use totem_certificate::Line;
use totem_evs::{Entry, Log};
use totem_names::Proc;

/// The entry at an index of a process's log, with its number.
#[derive(Clone, Copy)]
pub struct Numbered<'a> {
    pub proc: Proc,
    pub at: usize,
    pub entry: &'a Entry,
    pub number: u32,
}

/// A test for one entry.
trait OneTest {
    /// What the test relies on.
    ghost ready: { Self → Type 0 };

    ghost good: { Self → Place → Entry → ℕ → Type 0 };

    ghost bad: { Self → Place → Entry → ℕ → Type 0 };

    fn is_good(&self, one: &Numbered) -> bool
        requires { ready self.now }
        ensures { MatchBool result (good self.now (place one.now.proc one.now.at) one.now.entry.now one.now.number) (bad self.now (place one.now.proc one.now.at) one.now.entry.now one.now.number) };
}

/// A test for pairs of entries.
pub trait PairTest {
    ghost good: { OfTwo };

    ghost bad: { OfTwo };

    fn is_bad(&self, first: &Numbered, second: &Numbered) -> bool
        ensures { MatchBool result (bad (place first.now.proc first.now.at) first.now.entry.now first.now.number (place second.now.proc second.now.at) second.now.entry.now second.now.number)
            (good (place first.now.proc first.now.at) first.now.entry.now first.now.number (place second.now.proc second.now.at) second.now.entry.now second.now.number) };
}

/// Returns whether each entry of the log is good.
fn each_in<T: OneTest>(test: &T, log: &Log, line: &Line) -> bool
    requires line { IsLineOf log.now line.now }
    requires ready { T.ready test.now }
    ensures { MatchBool result (EachIn (T.good test.now) log.now line.now (length log.now.entries)) (SomeIn (T.bad test.now) log.now line.now) }
{
    let proc = log.proc;
    let entries = log.entries.as_slice();
    let numbers = line.numbers.as_slice();
    for at in 0..entries.len() {
        let entry = &entries[at];
        let number = numbers[at];
        if !test.is_good(&Numbered {
            proc,
            at,
            entry,
            number,
        }) {
            return false;
        }
    }
    true
}

/// Returns whether each entry of the run is good.
fn each_entry<T: OneTest>(test: &T, logs: &[Log], lines: &[Line]) -> bool
    requires matches { Matches logs.now lines.now }
    requires run { IsRun logs.now }
    requires ready { T.ready test.now }
    ensures { MatchBool result (EachEvent (T.good test.now) logs.now lines.now) (SomeEvent (T.bad test.now) logs.now lines.now) }
{
    for index in 0..logs.len() {
        if !each_in(test, &logs[index], &lines[index]) {
            return false;
        }
    }
    true
}

/// The entries that are not bad beside the first one.
#[derive(Clone, Copy)]
struct Second<'a, T> {
    test: &'a T,
    first: &'a Numbered<'a>,
}

impl<T: PairTest> OneTest for Second<'_, T> {
    ghost ready = { λ t. Unit {0} };

    ghost good = { λ t. T.good (place t.first.now.proc t.first.now.at) t.first.now.entry.now t.first.now.number };

    ghost bad = { λ t. T.bad (place t.first.now.proc t.first.now.at) t.first.now.entry.now t.first.now.number };

    fn is_good(&self, one: &Numbered) -> bool {
        !self.test.is_bad(self.first, one)
    }
}

/// The entries that are not bad beside any other one.
#[derive(Clone, Copy)]
struct First<'a, T> {
    test: &'a T,
    logs: &'a [Log],
    lines: &'a [Line],
}

impl<T: PairTest> OneTest for First<'_, T> {
    ghost ready = { λ t. Matches t.logs.now t.lines.now × IsRun t.logs.now };

    ghost good = { λ t e x n. EachEvent (T.good e x n) t.logs.now t.lines.now };

    ghost bad = { λ t e x n. SomeEvent (T.bad e x n) t.logs.now t.lines.now };

    fn is_good(&self, one: &Numbered) -> bool {
        let (test, first) = (self.test, one);
        each_entry(&Second { test, first }, self.logs, self.lines)
    }
}

/// Returns whether no pair of entries is bad.
pub fn each_pair<T: PairTest>(test: &T, logs: &[Log], lines: &[Line]) -> bool
    requires matches { Matches logs.now lines.now }
    requires run { IsRun logs.now }
    ensures { MatchBool result (EachPair T.good logs.now lines.now) (SomePair T.bad logs.now lines.now) }
{
    each_entry(&First { test, logs, lines }, logs, lines)
}
