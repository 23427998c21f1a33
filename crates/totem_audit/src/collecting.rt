//! From the findings of jobs to the faults of pass D (docs/SPECIFICATIONS.md, "Passes").
ghost use Rattle.std.specs.Prelude.{◌≡◌, ◌-◌, ◌<◌, IfOk, IfSome, IsSome, None, Some, replicate, slice_index_or, slice_set, vec_len};
ghost use Rattle.totem_evs.specs.Answers.{MeetsPasses, ListsConfigurations};
ghost use Rattle.totem_pass_d.specs.Jobs.{AreJobs, AreFindingsAt};
ghost use Rattle.totem_audit.specs.Jobs.{IsRight, AreKnown};

use crate::gate::{Gate, OpenGate};
use crate::job::{DoneJob, perform_job};
use crate::job_result::JobResult;
use std::alloc::{AllocError, Global};
use std::mem;
use totem_evs::{Fault, Run};
use totem_pass_d::{Findings, Found, Jobs};

/// Returns a list in which nothing is known of any job.
#[tactic(auto, using(crate::proofs::KnownJobs::nothing_more))]
pub fn nothing_known(alloc: Global, count: usize) -> Result<Vec<Option<Findings>>, AllocError>
    ensures { IfOk result (λ known. known.items ≡ replicate count None) }
{
    let mut known = Vec::with_capacity(alloc, count)?;
    for _ in 0..count {
        known.push(None)?;
    }
    Ok(known)
}

/// Notes a result. A second result for a job is ignored.
#[tactic(auto, using(crate::proofs::KnownJobs::known_set))]
pub fn note(jobs: &Jobs<'_>, known: &mut Vec<Option<Findings>>, done: DoneJob)
    requires right { IsRight jobs.now.run.now.logs jobs.now.rings.items done }
    requires known { AreKnown jobs.now.run.now.logs jobs.now.rings.items known.old.items }
    ensures known { AreKnown jobs.now.run.now.logs jobs.now.rings.items known.new.items }
    ensures first { slice_index_or known.old.items done.index None ≡ None → known.new.items ≡ slice_set known.old.items done.index (Some done.findings) }
    ensures second { IsSome (slice_index_or known.old.items done.index None) → known.new.items ≡ known.old.items }
{
    if known[done.index].is_some() {
        return;
    }
    known[done.index] = Some(done.findings);
}

/// Returns what is known of the job at this index, or does the job now.
fn known_or_done<G: Gate>(
    alloc: Global,
    jobs: &Jobs<'_>,
    index: usize,
    known: Option<Findings>,
    gate: &G,
) -> Result<Findings, AllocError>
    requires jobs { AreJobs jobs.now.run.now.logs jobs.now }
    requires within { index < vec_len jobs.now.rings }
    requires right { IfSome known (AreFindingsAt jobs.now.run.now.logs jobs.now.rings.items index) }
    ensures right { IfOk result (AreFindingsAt jobs.now.run.now.logs jobs.now.rings.items index) }
    ensures known { IfSome known (λ findings. IfOk result (λ found. found ≡ findings)) }
{
    if let Some(findings) = known {
        return Ok(findings);
    }
    let done = perform_job(alloc, jobs, index, gate)?;
    Ok(done.findings)
}

/// Returns the result of the pass, from what is known of its jobs. Does the jobs of which nothing is known.
pub fn complete<G: Gate>(
    alloc: Global,
    jobs: &Jobs<'_>,
    mut known: Vec<Option<Findings>>,
    gate: &G,
) -> Result<Vec<Fault>, AllocError>
    requires jobs { AreJobs jobs.now.run.now.logs jobs.now }
    requires known { AreKnown jobs.now.run.now.logs jobs.now.rings.items known.items }
    ensures { IfOk result (λ faults. ListsConfigurations jobs.now.run.now.logs faults.items) }
{
    let mut found = Found::new(alloc);
    for index in 0..jobs.rings.len() {
        let one = mem::replace(&mut known[index], None);
        found = found.with(known_or_done(alloc, jobs, index, one, gate)?)?;
    }
    found.into_faults()
}

/// Notes a result, if it is from the run of these jobs. Otherwise it is ignored.
fn take_in(jobs: &Jobs<'_>, known: &mut Vec<Option<Findings>>, done: JobResult<'_>)
    requires jobs { AreJobs jobs.now.run.now.logs jobs.now }
    requires known { AreKnown jobs.now.run.now.logs jobs.now.rings.items known.old.items }
    ensures known { AreKnown jobs.now.run.now.logs jobs.now.rings.items known.new.items }
    ensures first { done.entry.version ≡ jobs.now.run.now.version → done.entry.logs ≡ jobs.now.run.now.logs → slice_index_or known.old.items (done.entry.job - 1) None ≡ None → known.new.items ≡ slice_set known.old.items (done.entry.job - 1) (Some done.entry.findings) }
{
    let judged = done.run();
    let run = jobs.run;
    if judged.version != run.version || !judged.logs.is(&run.logs) {
        return;
    }
    let index = done.job() as usize - 1;
    let findings = done.into_findings();
    note(jobs, known, DoneJob { index, findings });
}

/// Returns the faults of pass D from any results of its jobs: second results for a job and results of another run are ignored, and a
/// job without a result is done here. The run has to be one in which `early` finds nothing. Runs are compared by value,
/// once for each result, so this takes time in proportion to the results times the entries.
#[tactic(auto, using(crate::proofs::KnownJobs::nothing_is_known))]
pub fn collect(
    alloc: Global,
    run: &Run,
    results: Vec<JobResult<'_>>,
) -> Result<Vec<Fault>, AllocError>
    requires { MeetsPasses run.now.logs }
    ensures { IfOk result (λ faults. ListsConfigurations run.now.logs faults.items) }
{
    let jobs = Jobs::build(alloc, run)?;
    let mut known = nothing_known(alloc, jobs.rings.len())?;
    for done in results {
        take_in(&jobs, &mut known, done);
    }
    complete(alloc, &jobs, known, &OpenGate)
}
