//! Jobs in a channel, and the workers that take them from it.
ghost use denote.Param.Send.{IsSync, IsSend};
ghost use Rattle.totem_pass_d.specs.Jobs.{AreJobs};
ghost use Rattle.totem_audit.specs.Jobs.{AreRight, AreNamed};

use crate::batch::{Batch, JobsName};
use crate::gate::Gate;
use crate::job::{DoneJob, perform_job};
use crate::spans::Span;
use crossbeam_channel::{Receiver, Sender, bounded};
use std::alloc::{AllocError, Global};
use std::sync::Wait;
use std::thread::{Threads, join};
use totem_pass_d::Jobs;

/// Returns a channel that holds these spans in order, and ends after them. Nothing waits for space, and no more memory is
/// taken. A span that could not be sent is left out: the jobs in it are done when the results are collected.
pub fn channel_of<T: Wait>(
    rt: &T,
    alloc: Global,
    spans: Vec<Span>,
) -> Result<Receiver<Span>, AllocError> {
    let (sender, receiver) = bounded(alloc, spans.len())?;
    for span in spans {
        if sender.send(rt, span).is_err() {
            break;
        }
    }
    Ok(receiver)
}

/// Does the jobs of a span in turn. No job beyond the last is done, whatever the span says. When memory runs out, the rest is
/// left out.
fn do_span<G: Gate>(
    alloc: Global,
    jobs: &Jobs<'_>,
    span: Span,
    results: &mut Vec<DoneJob>,
    gate: &G,
) -> Result<(), AllocError>
    requires jobs { AreJobs jobs.now.run.now.logs jobs.now }
    requires right { AreRight jobs.now.run.now.logs jobs.now.rings.items results.old.items }
    ensures { AreRight jobs.now.run.now.logs jobs.now.rings.items results.new.items }
{
    for index in span.from..span.to.min(jobs.rings.len()) {
        results.push(perform_job(alloc, jobs, index, gate)?)?;
    }
    Ok(())
}

/// Takes spans, does their jobs and sends the results, until no span is left or memory runs out.
#[tactic(auto, using(crate::proofs::KnownJobs::none_right, crate::proofs::KnownJobs::right_by_name))]
fn work<N: JobsName, T: Wait, G: Gate>(
    rt: &T,
    alloc: Global,
    jobs: &Jobs<'_>,
    left: &Receiver<Span>,
    found: &Sender<Batch<N>>,
    gate: &G,
)
    requires jobs { AreJobs jobs.now.run.now.logs jobs.now }
    requires named { AreNamed N.logs N.rings jobs.now }
{
    for _ in rt.forever() {
        let Ok(span) = left.recv(rt) else {
            return;
        };
        let mut results = Vec::new(alloc);
        let done = do_span(alloc, jobs, span, &mut results, gate);
        let sent = found.send(rt, Batch::new(results));
        if done.is_err() || sent.is_err() {
            return;
        }
    }
}

/// Runs the given number of workers side by side. The calling thread is one of them.
#[cycle(halves)]
pub fn work_together<N: JobsName + Send + Sync, T: Threads + Wait + Sync, G: Gate>(
    rt: &T,
    alloc: Global,
    jobs: &Jobs<'_>,
    left: &Receiver<Span>,
    found: &Sender<Batch<N>>,
    workers: u32,
    gate: &G,
)
    requires jobs { AreJobs jobs.now.run.now.logs jobs.now }
    requires named { AreNamed N.logs N.rings jobs.now }
{
    if workers <= 1 {
        return work(rt, alloc, jobs, left, found, gate);
    }
    let half = workers / 2;
    let others = workers - half;
    let these = ||
        requires { IsSync T.row × IsSync G.row × IsSync N.row × IsSend N.row × AreJobs jobs.now.run.now.logs jobs.now × AreNamed N.logs N.rings jobs.now }
    { work_together(rt, alloc, jobs, left, found, half, gate) };
    let those = ||
        requires { IsSync T.row × IsSync G.row × IsSync N.row × IsSend N.row × AreJobs jobs.now.run.now.logs jobs.now × AreNamed N.logs N.rings jobs.now }
    { work_together(rt, alloc, jobs, left, found, others, gate) };
    join(rt, these, those);
}
