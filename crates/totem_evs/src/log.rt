ghost use Rattle.std.specs.Prelude.{◌≡◌, ◌↔◌, IsTrue, IfOk};
ghost use Rattle.totem_evs.specs.Runs.{IsClosedBy, IsLog};

use crate::ending::Ending;
use crate::entries::Entries;
use std::alloc::{AllocError, Global};
use std::marker::Model;
use totem_names::{Keyed, Listed, Proc, Version, life_fits};

/// A log: what one process recorded. It is failed if and only if its last entry is a failure. Any other log is open, or quiet if
/// nothing more was to come.
#[derive(Debug, Drop)]
pub struct Log {
    pub proc: Proc,
    pub entries: Entries,
    pub ending: Ending,
}

impl Model for Log {
    ghost use Rattle.totem_evs.specs.LogRecord.{LogRecord};
    ghost use Rattle.totem_evs.specs.Runs.{IsClosedBy};

    ghost Value = { LogRecord };

    ghost view = { λ l. record { proc = l.proc; entries = l.entries; ending = l.ending } };

    ghost invariant = { λ l. IsClosedBy l.entries l.ending };
}

impl Log {
    /// Makes the log of these entries with this ending, which has to fit them: `Entries::may_end` tests that, and
    /// `Entries::ending` returns the ending of a log that does not claim to be quiet.
    pub fn new(proc: Proc, entries: Entries, ending: Ending) -> Log
        requires { IsClosedBy entries ending }
        ensures process { result.proc ≡ proc }
        ensures entries { result.entries ≡ entries }
        ensures ending { result.ending ≡ ending }
    {
        Log {
            proc,
            entries,
            ending,
        }
    }

    /// Returns whether the two are the same log: `==` in a form that contracts can use.
    pub fn is(&self, other: &Log) -> bool
        ensures { IsTrue result ↔ (self.now ≡ other.now) }
    {
        self.proc == other.proc && self.ending == other.ending && self.entries.is(&other.entries)
    }

    pub fn try_clone(&self, alloc: Global) -> Result<Log, AllocError>
        ensures { IfOk result (λ l. l ≡ self.now) }
    {
        Ok(Log {
            proc: self.proc,
            entries: self.entries.try_clone(alloc)?,
            ending: self.ending,
        })
    }
}

impl Listed for Log {
    ghost keeps = { IsLog };

    fn keeps_its_rule(&self) {
        life_fits(Version::Three, self.proc);
        let _ = self.entries.as_slice();
    }

    fn is(&self, other: &Log) -> bool {
        Log::is(self, other)
    }

    fn try_clone(&self, alloc: Global) -> Result<Log, AllocError> {
        Log::try_clone(self, alloc)
    }
}

/// Logs are ordered by process.
impl Keyed for Log {
    ghost key_of = { λ l. l.proc };

    fn key(&self) -> u32 {
        self.proc.rank()
    }
}
