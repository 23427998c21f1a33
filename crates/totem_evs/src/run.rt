ghost use Rattle.std.specs.Prelude.{◌≡◌, ◌↔◌, IsTrue, IfOk, MatchResult};
ghost use Rattle.totem_names.specs.Lists.{Refuses};
ghost use Rattle.totem_evs.specs.Lives.{RefusesRun, IsFirstVersion};
ghost use Rattle.totem_evs.specs.Runs.{IsRunIn, IsBelowLog};

use crate::lives::{first_version, refusal};
use crate::log::Log;
use crate::logs::Logs;
use std::alloc::{AllocError, Global};
use std::marker::Model;
use totem_names::{Refused, Version};

/// A run: the logs that its processes recorded, and the version of its text, 1 to 3. Version 1 writes no lives, so in it
/// each process has life 1; from version 3 on a log may be quiet.
#[derive(Debug, Drop)]
pub struct Run {
    pub version: Version,
    pub logs: Logs,
}

impl Model for Run {
    ghost use Rattle.totem_evs.specs.RunRecord.{RunRecord};
    ghost use Rattle.totem_evs.specs.Runs.{IsRunOf};

    ghost Value = { RunRecord };

    ghost view = { λ r. record { version = r.version; logs = r.logs } };

    ghost invariant = { λ r. IsRunOf (record { version = r.version; logs = r.logs }) };
}

impl Run {
    /// Makes the run of these logs, whose text has this version. Otherwise refuses the list, with the first rule that it
    /// breaks.
    pub fn new(version: Version, logs: Vec<Log>) -> Result<Run, Refused<Vec<Log>>>
        ensures { MatchResult result (λ run. (run.version ≡ version) × (run.logs ≡ logs.items) × IsRunIn version logs.items)
            (λ r. (r.value.items ≡ logs.items) × RefusesRun version logs.items r.fault) }
    {
        let logs = Logs::new(logs)?;
        match refusal(version, logs.as_slice()) {
            None => Ok(Run { version, logs }),
            Some(fault) => Err(Refused {
                fault,
                value: logs.into_vec(),
            }),
        }
    }

    /// Makes the run of these logs in the first version whose texts can write them: version 1 if each process that is named
    /// has life 1 and no log is quiet, version 3 if one is. Otherwise refuses the list, with the first rule that it breaks.
    #[tactic(auto, using(crate::proofs::Weaker::first_run))]
    pub fn of(logs: Vec<Log>) -> Result<Run, Refused<Vec<Log>>>
        ensures { MatchResult result (λ run. (run.logs ≡ logs.items) × IsFirstVersion run.version logs.items)
            (λ r. (r.value.items ≡ logs.items) × Refuses 0 32 IsBelowLog logs.items r.fault) }
    {
        let logs = Logs::new(logs)?;
        let version = first_version(logs.as_slice());
        Ok(Run { version, logs })
    }

    /// Returns the logs as a vector, without taking memory.
    pub fn into_logs(self) -> Vec<Log>
        ensures { result.items ≡ self.logs }
    {
        let Run { version: _, logs } = self;
        logs.into_vec()
    }

    /// Returns whether the two are the same run: `==` in a form that contracts can use.
    pub fn is(&self, other: &Run) -> bool
        ensures { IsTrue result ↔ (self.now ≡ other.now) }
    {
        self.version == other.version && self.logs.is(&other.logs)
    }

    pub fn try_clone(&self, alloc: Global) -> Result<Run, AllocError>
        ensures { IfOk result (λ run. run ≡ self.now) }
    {
        Ok(Run {
            version: self.version,
            logs: self.logs.try_clone(alloc)?,
        })
    }
}
