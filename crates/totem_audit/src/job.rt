//! One job of an audit, with notification of its gate.
ghost use Rattle.std.specs.Prelude.{◌≡◌, ◌<◌, IfOk, vec_len};
ghost use Rattle.totem_pass_d.specs.Jobs.{AreJobs};
ghost use Rattle.totem_audit.specs.Jobs.{IsRight};

use crate::gate::Gate;
use std::alloc::{AllocError, Global};
use totem_pass_d::{Findings, Jobs};

/// A job that is done: its index and its findings.
#[derive(Drop)]
pub struct DoneJob {
    /// Counted from 0.
    pub index: usize,
    pub findings: Findings,
}

/// Does the job at this index, and notifies the gate before and after.
pub fn perform_job<G: Gate>(
    alloc: Global,
    jobs: &Jobs<'_>,
    index: usize,
    gate: &G,
) -> Result<DoneJob, AllocError>
    requires jobs { AreJobs jobs.now.run.now.logs jobs.now }
    requires within { index < vec_len jobs.now.rings }
    ensures right { IfOk result (IsRight jobs.now.run.now.logs jobs.now.rings.items) }
    ensures index { IfOk result (λ done. done.index ≡ index) }
{
    let number = u32::try_from(index).unwrap_or(u32::MAX).saturating_add(1);
    gate.before(number);
    let findings = jobs.findings(alloc, index);
    gate.after(number);
    Ok(DoneJob {
        index,
        findings: findings?,
    })
}
