//! Results of workers, as they are sent through a channel.
ghost use Rattle.std.specs.Prelude.{◌≡◌};
ghost use Rattle.totem_audit.specs.Jobs.{AreRight};

use crate::job::DoneJob;
use std::marker::{Brand, Model, PhantomData};

/// The name of the jobs of a run. No value of such a type is ever made; a function that is generic over it is called at `Brand`.
pub trait JobsName {
    ghost use Rattle.std.specs.Prelude.{List};
    ghost use Rattle.totem_names.specs.declared.ring.RingId.{RingId};
    ghost use Rattle.totem_evs.specs.declared.log.Log.{Log};

    ghost logs: { List Log };

    ghost rings: { List RingId };
}

impl JobsName for Brand {
    ghost use Rattle.std.specs.Prelude.{[]};

    ghost logs = { [] };

    ghost rings = { [] };
}

/// Results of jobs with this name, each correct for the job that it names, wherever they come from.
#[derive(Drop)]
pub struct Batch<N: JobsName> {
    results: Vec<DoneJob>,
    name: PhantomData<N>,
}

impl<N: JobsName> Model for Batch<N> {
    ghost use Rattle.std.specs.Prelude.{List};
    ghost use Rattle.totem_audit.specs.declared.job.DoneJob.{DoneJob};

    ghost Value = { List DoneJob };

    ghost view = { λ b. b.results.items };

    ghost use Rattle.totem_audit.specs.Jobs.{AreRight};

    ghost invariant = { λ b. AreRight N.logs N.rings b.results.items };
}

impl<N: JobsName> Batch<N> {
    pub fn new(results: Vec<DoneJob>) -> Batch<N>
        requires { AreRight N.logs N.rings results.items }
        ensures { result ≡ results.items }
    {
        Batch {
            results,
            name: PhantomData,
        }
    }

    /// Returns the results, without taking memory.
    pub fn into_results(self) -> Vec<DoneJob>
        ensures value { result.items ≡ self }
        ensures right { AreRight N.logs N.rings result.items }
    {
        let Batch { results, .. } = self;
        results
    }
}
