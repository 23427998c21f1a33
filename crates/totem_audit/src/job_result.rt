//! The jobs of the last pass as separate calls, for a caller that runs them (docs/SPECIFICATIONS.md, "Passes").
ghost use Rattle.std.specs.Prelude.{◌≡◌, ◌+◌, ◌<◌, ◌≤◌, ℕ, IfOk, MatchOption};
ghost use Rattle.totem_evs.specs.Answers.{MeetsPasses};
ghost use Rattle.totem_audit.specs.Results.{HasJob, IsFoundBy, IsResultOf};

use std::alloc::{AllocError, Global};
use std::marker::Model;
use totem_evs::Run;
use totem_pass_d::{Findings, Jobs};

/// The findings of one job of a run, with the run and the job. Wherever the value comes from, its findings are those of that job of
/// that run.
#[derive(Drop)]
pub struct JobResult<'r> {
    run: &'r Run,
    job: u32,
    findings: Findings,
}

impl<'r> Model for JobResult<'r> {
    ghost use Rattle.totem_audit.specs.JobRecord.{JobRecord};

    ghost Value = { JobRecord };

    ghost use Rattle.totem_audit.specs.Results.{IsFoundBy};

    ghost view = { λ r. record { version = r.run.now.version; logs = r.run.now.logs; job = r.job; findings = r.findings } };

    ghost invariant = { λ r. IsFoundBy r.run.now.logs r.job r.findings };
}

impl<'r> JobResult<'r> {
    pub fn run(&self) -> &'r Run
        ensures version { result.now.version ≡ self.now.version }
        ensures logs { result.now.logs ≡ self.now.logs }
    {
        self.run
    }

    /// Returns the number of the job, counted from 1 in the order of the configurations.
    #[tactic(auto, using(crate::proofs::Results::counted))]
    pub fn job(&self) -> u32
        ensures value { result ≡ self.now.job }
        ensures range { 0 < result }
    {
        self.job
    }

    pub fn findings(&self) -> &Findings
        ensures value { result.now ≡ self.now.findings }
        ensures right { IsFoundBy self.now.logs self.now.job result.now }
    {
        &self.findings
    }

    /// Returns what the job found. Takes no memory.
    pub fn into_findings(self) -> Findings
        ensures value { result ≡ self.entry.findings }
        ensures right { IsFoundBy self.entry.logs self.entry.job result }
    {
        let JobResult { findings, .. } = self;
        findings
    }
}

/// Returns the index of a job, counted from 0, or `None` if there are fewer jobs.
fn index_of(job: u32, count: usize) -> Option<usize>
    ensures { MatchOption result ((index : ℕ) → job ≡ index + 1 → count ≤ index) (λ index. (job ≡ index + 1) × (index < count)) }
{
    let index = (job as usize).checked_sub(1)?;
    if index >= count {
        return None;
    }
    Some(index)
}

/// Does the job of this number, counted from 1 in the order of the configurations. Returns `None` if the run has no such job. Call
/// it only for a run in which `early` finds nothing.
#[tactic(auto, using(crate::proofs::Results::found_by))]
pub fn do_job(alloc: Global, run: &Run, job: u32) -> Result<Option<JobResult<'_>>, AllocError>
    requires { MeetsPasses run.now.logs }
    ensures { IfOk result (λ done. MatchOption done (HasJob run.now.logs job → ⊥) (IsResultOf run.now.version run.now.logs job)) }
{
    let jobs = Jobs::build(alloc, run)?;
    let Some(index) = index_of(job, jobs.rings.len()) else {
        return Ok(None);
    };
    let findings = jobs.findings(alloc, index)?;
    Ok(Some(JobResult { run, job, findings }))
}
