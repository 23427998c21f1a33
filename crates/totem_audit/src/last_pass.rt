//! Pass D with many threads (docs/SPECIFICATIONS.md, "Passes").
ghost use Rattle.std.specs.Prelude.{◌<◌, IfOk};
ghost use Rattle.totem_evs.specs.Answers.{ListsConfigurations};
ghost use Rattle.totem_pass_d.specs.Jobs.{AreJobs};
ghost use Rattle.totem_audit.specs.Jobs.{AreRight, AreNamed, AreKnown};

use crate::batch::{Batch, JobsName};
use crate::collecting::{complete, note, nothing_known};
use crate::gate::Gate;
use crate::job::DoneJob;
use crate::sharing::{channel_of, work_together};
use crate::spans::spans;
use crate::workers::Workers;
use crossbeam_channel::{Receiver, bounded};
use std::alloc::{AllocError, Global};
use std::marker::Brand;
use std::sync::Wait;
use std::thread::Threads;
use totem_evs::Fault;
use totem_pass_d::{Findings, Jobs};

/// Notes these results.
#[tactic(auto, using(crate::proofs::KnownJobs::popped))]
fn note_all(jobs: &Jobs<'_>, known: &mut Vec<Option<Findings>>, mut results: Vec<DoneJob>)
    requires right { AreRight jobs.now.run.now.logs jobs.now.rings.items results.items }
    requires known { AreKnown jobs.now.run.now.logs jobs.now.rings.items known.old.items }
    ensures { AreKnown jobs.now.run.now.logs jobs.now.rings.items known.new.items }
{
    while let Some(done) = results.pop() {
        note(jobs, known, done);
    }
}

/// Returns what is known of each job, once all results have been received.
#[tactic(auto, using(crate::proofs::KnownJobs::nothing_is_known, crate::proofs::KnownJobs::right_by_jobs))]
fn by_job<N: JobsName, T: Wait>(
    rt: &T,
    alloc: Global,
    jobs: &Jobs<'_>,
    found: &Receiver<Batch<N>>,
) -> Result<Vec<Option<Findings>>, AllocError>
    requires { AreNamed N.logs N.rings jobs.now }
    ensures { IfOk result (λ known. AreKnown jobs.now.run.now.logs jobs.now.rings.items known.items) }
{
    let mut known = nothing_known(alloc, jobs.rings.len())?;
    for _ in rt.forever() {
        let Ok(batch) = found.recv(rt) else {
            break;
        };
        note_all(jobs, &mut known, batch.into_results());
    }
    Ok(known)
}

/// Returns what is known of each job, using at most the given number of workers, and at most one per job. The workers take jobs from one
/// channel and send their results through another, which has space for all of them.
fn shared<N: JobsName + Send + Sync, T: Threads + Wait + Sync, G: Gate>(
    rt: &T,
    alloc: Global,
    jobs: &Jobs<'_>,
    workers: u32,
    gate: &G,
) -> Result<Vec<Option<Findings>>, AllocError>
    requires jobs { AreJobs jobs.now.run.now.logs jobs.now }
    requires named { AreNamed N.logs N.rings jobs.now }
    requires workers { 0 < workers }
    ensures { IfOk result (λ known. AreKnown jobs.now.run.now.logs jobs.now.rings.items known.items) }
{
    let count = jobs.rings.len();
    let spans = spans(alloc, count, workers)?;
    let (found, results) = bounded::<Batch<N>, Global>(alloc, spans.len())?;
    let left = channel_of(rt, alloc, spans)?;
    let together = workers.min(u32::try_from(count).unwrap_or(u32::MAX));
    work_together(rt, alloc, jobs, &left, &found, together, gate);
    drop(found);
    by_job(rt, alloc, jobs, &results)
}

/// Does pass D, with the jobs shared by the given number of workers. A single worker does them one after the other, without a channel.
#[tactic(auto, using(crate::proofs::KnownJobs::nothing_is_known))]
pub fn pass_d_with<T: Threads + Wait + Sync, G: Gate>(
    rt: &T,
    alloc: Global,
    jobs: &Jobs<'_>,
    workers: Workers,
    gate: &G,
) -> Result<Vec<Fault>, AllocError>
    requires { AreJobs jobs.now.run.now.logs jobs.now }
    ensures { IfOk result (λ faults. ListsConfigurations jobs.now.run.now.logs faults.items) }
{
    let known = if workers.count() == 1 {
        nothing_known(alloc, jobs.rings.len())?
    } else {
        shared::<Brand, T, G>(rt, alloc, jobs, workers.count(), gate)?
    };
    complete(alloc, jobs, known, gate)
}
