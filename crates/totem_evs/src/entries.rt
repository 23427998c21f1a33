ghost use Rattle.std.specs.Prelude.{◌≡◌, ◌≢◌, ◌↔◌, IsTrue, IfOk, MatchResult};
ghost use Rattle.totem_names.specs.Lists.{Refuses, Anyhow};
ghost use Rattle.totem_evs.specs.Runs.{IsEntries, EndsInFail, IsClosedBy};

use crate::ending::Ending;
use crate::entry::Entry;
use std::alloc::{AllocError, Global};
use std::marker::Model;
use totem_names::{Refused, are_same, bounded, copied};

/// How many entries a log may have at most.
const MOST: usize = 1_000_000;

/// The entries of a log, in order: 1 to 1,000,000 of them.
#[derive(Debug, Drop)]
pub struct Entries {
    list: Vec<Entry>,
}

impl Model for Entries {
    ghost use Rattle.std.specs.Prelude.{List};
    ghost use Rattle.totem_evs.specs.declared.entry.Entry.{Entry};
    ghost use Rattle.totem_evs.specs.Runs.{IsEntries};

    ghost Value = { List Entry };

    ghost view = { λ e. e.list.items };

    ghost invariant = { λ e. IsEntries e.list.items };
}

fn ends_in_fail(entries: &[Entry]) -> bool
    ensures { IsTrue result ↔ EndsInFail entries.now }
{
    match entries.last() {
        None => false,
        Some(entry) => entry.is_failure(),
    }
}

impl Entries {
    /// Makes the entries from this list. Otherwise refuses the list, with the first rule that it breaks.
    pub fn new(list: Vec<Entry>) -> Result<Entries, Refused<Vec<Entry>>>
        ensures { MatchResult result (λ e. (e ≡ list.items) × IsEntries list.items)
            (λ r. (r.value.items ≡ list.items) × Refuses 1 1000000 Anyhow list.items r.fault) }
    {
        let list = bounded(1, MOST, list)?;
        Ok(Entries { list })
    }

    /// Makes the entries from a list that is known to keep the rules.
    pub fn of(list: Vec<Entry>) -> Entries
        requires { IsEntries list.items }
        ensures { result ≡ list.items }
    {
        Entries { list }
    }

    pub fn as_slice(&self) -> &[Entry]
        ensures value { result.now ≡ self.now }
        ensures entries { IsEntries self.now }
    {
        &self.list
    }

    /// Returns how a log of these entries ends if it does not claim to be quiet: failed if the last entry is a failure,
    /// else open.
    pub fn ending(&self) -> Ending
        ensures closed { IsClosedBy self.now result }
        ensures loud { result ≢ Ending.Quiet }
    {
        if ends_in_fail(&self.list) {
            Ending::Failed
        } else {
            Ending::Standing
        }
    }

    /// Returns whether a log of these entries may end in this way: as failed if and only if the last entry is a failure.
    pub fn may_end(&self, ending: Ending) -> bool
        ensures { IsTrue result ↔ IsClosedBy self.now ending }
    {
        ends_in_fail(&self.list) == (ending == Ending::Failed)
    }

    /// Returns the entries as a vector, without taking memory.
    pub fn into_vec(self) -> Vec<Entry>
        ensures { result.items ≡ self }
    {
        let Entries { list } = self;
        list
    }

    /// Returns whether the two are the same entries: `==` in a form that contracts can use.
    pub fn is(&self, other: &Entries) -> bool
        ensures { IsTrue result ↔ (self.now ≡ other.now) }
    {
        are_same(self.as_slice(), other.as_slice())
    }

    pub fn try_clone(&self, alloc: Global) -> Result<Entries, AllocError>
        ensures { IfOk result (λ e. e ≡ self.now) }
    {
        let list = copied(alloc, &self.list)?;
        Ok(Entries { list })
    }
}
