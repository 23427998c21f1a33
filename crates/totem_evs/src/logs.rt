ghost use Rattle.std.specs.Prelude.{◌≡◌, ◌↔◌, IsTrue, IfOk, MatchResult};
ghost use Rattle.totem_names.specs.Lists.{Refuses};
ghost use Rattle.totem_evs.specs.Runs.{IsRun, IsBelowLog};

use crate::log::Log;
use std::alloc::{AllocError, Global};
use std::marker::Model;
use totem_names::{Refused, are_same, copied, rising};

/// How many logs a run may have at most.
const MOST: usize = 32;

/// The logs of one run: 0 to 32 of them, their processes strictly ascending.
#[derive(Debug, Drop)]
pub struct Logs {
    list: Vec<Log>,
}

impl Model for Logs {
    ghost use Rattle.std.specs.Prelude.{List};
    ghost use Rattle.totem_evs.specs.LogRecord.{LogRecord};
    ghost use Rattle.totem_evs.specs.Runs.{IsRun};

    ghost Value = { List LogRecord };

    ghost view = { λ l. l.list.items };

    ghost invariant = { λ l. IsRun l.list.items };
}

impl Logs {
    /// Makes the logs from this list. Otherwise refuses the list, with the first rule that it breaks.
    pub fn new(list: Vec<Log>) -> Result<Logs, Refused<Vec<Log>>>
        ensures { MatchResult result (λ l. (l ≡ list.items) × IsRun list.items)
            (λ r. (r.value.items ≡ list.items) × Refuses 0 32 IsBelowLog list.items r.fault) }
    {
        let list = rising(0, MOST, list)?;
        Ok(Logs { list })
    }

    /// Makes the logs from a list that is known to keep the rules.
    pub fn of(list: Vec<Log>) -> Logs
        requires { IsRun list.items }
        ensures { result ≡ list.items }
    {
        Logs { list }
    }

    pub fn as_slice(&self) -> &[Log]
        ensures value { result.now ≡ self.now }
        ensures run { IsRun self.now }
    {
        &self.list
    }

    /// Returns the logs as a vector, without taking memory.
    pub fn into_vec(self) -> Vec<Log>
        ensures { result.items ≡ self }
    {
        let Logs { list } = self;
        list
    }

    /// Returns whether the two are the same logs: `==` in a form that contracts can use.
    pub fn is(&self, other: &Logs) -> bool
        ensures { IsTrue result ↔ (self.now ≡ other.now) }
    {
        are_same(self.as_slice(), other.as_slice())
    }

    pub fn try_clone(&self, alloc: Global) -> Result<Logs, AllocError>
        ensures { IfOk result (λ l. l ≡ self.now) }
    {
        let list = copied(alloc, &self.list)?;
        Ok(Logs { list })
    }
}
