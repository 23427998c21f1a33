//! Pass D of the audit (docs/SPECIFICATIONS.md, "Passes").
ghost use Rattle.std.specs.Prelude.{IfOk};
ghost use Rattle.totem_evs.specs.Answers.{ListsConfigurations};
ghost use Rattle.totem_pass_d.specs.Jobs.{AreJobs};

use crate::findings::Findings;
use crate::jobs::Jobs;
use std::alloc::{AllocError, Global};
use totem_evs::{Fault, SpecNo};
use totem_search::{joined, with_found};

/// The faults of each specification: one for each configuration in which it is broken, in the order of the configurations.
#[derive(Drop)]
pub struct Found {
    pub own: Vec<Fault>,
    pub atomicity: Vec<Fault>,
    pub causality: Vec<Fault>,
    pub gap: Vec<Fault>,
    pub safety: Vec<Fault>,
    pub installed: Vec<Fault>,
}

impl Found {
    ghost use Rattle.std.specs.Prelude.{◌≡◌, IfOk};
    ghost use Rattle.totem_pass_d.specs.Findings.{IsNothing, GrowsBy, all_found};

    /// Returns an empty collection.
    pub fn new(alloc: Global) -> Found
        ensures { IsNothing result }
    {
        Found {
            own: Vec::new(alloc),
            atomicity: Vec::new(alloc),
            causality: Vec::new(alloc),
            gap: Vec::new(alloc),
            safety: Vec::new(alloc),
            installed: Vec::new(alloc),
        }
    }

    /// Adds what was found in the next configuration.
    pub fn with(self, findings: Findings) -> Result<Found, AllocError>
        ensures { IfOk result (GrowsBy self findings) }
    {
        Ok(Found {
            own: with_found(self.own, SpecNo::OwnDelivery, findings.own)?,
            atomicity: with_found(self.atomicity, SpecNo::Atomicity, findings.atomicity)?,
            causality: with_found(self.causality, SpecNo::Causality, findings.causality)?,
            gap: with_found(self.gap, SpecNo::Gap, findings.gap)?,
            safety: with_found(self.safety, SpecNo::Safety, findings.safety)?,
            installed: with_found(self.installed, SpecNo::Installed, findings.installed)?,
        })
    }

    /// Returns all faults, specification by specification.
    pub fn into_faults(self) -> Result<Vec<Fault>, AllocError>
        ensures { IfOk result (λ faults. faults.items ≡ all_found self) }
    {
        let gaps = joined(self.gap, joined(self.safety, self.installed)?)?;
        joined(
            self.own,
            joined(self.atomicity, joined(self.causality, gaps)?)?,
        )
    }
}

/// Does these jobs in order, on the calling thread. Returns, for each of 3, 4, 5, 6.3, 7.1 and 7.2 and for each regular configuration in
/// which the run breaks it, the least events that break it there.
pub fn pass_d_of(alloc: Global, jobs: &Jobs<'_>) -> Result<Vec<Fault>, AllocError>
    requires { AreJobs jobs.now.run.now.logs jobs.now }
    ensures { IfOk result (λ faults. ListsConfigurations jobs.now.run.now.logs faults.items) }
{
    let mut found = Found::new(alloc);
    for index in 0..jobs.rings.len() {
        found = found.with(jobs.findings(alloc, index)?)?;
    }
    found.into_faults()
}
