//! The audit: the events are ordered, and the run is judged along their order.
ghost use Rattle.std.specs.Prelude.{IfOk};
ghost use Rattle.totem_evs.specs.Answers.{IsAnswered};
ghost use Rattle.totem_evs.specs.Certificates.{Certified};
ghost use Rattle.totem_evs.specs.ClosedLists.{IsCycle};
ghost use Rattle.totem_evs.specs.Meanings.{IsSound};
ghost use Rattle.totem_certificate.specs.Keeping.{certificate_version};
ghost use Rattle.totem_check.specs.Judged.{IsJudged};
ghost use Rattle.totem_audit.specs.Verdicts.{answer_of, HasVersion};

use crate::first_passes::unordered;
use crate::gate::Gate;
use crate::last_pass::pass_d_with;
use crate::verdict::Verdict;
use crate::workers::Workers;
use std::alloc::{AllocError, Global};
use std::sync::Wait;
use std::thread::Threads;
use totem_cert::{Order, positions};
use totem_certificate::Certificate;
use totem_check::{Early, Judgement, LastPass, early_along, judge};
use totem_evs::{Fault, Run};

/// Returns the verdict on a run whose events have no order, because of this closed list.
#[tactic(auto, using(crate::proofs::Firsts::broken_answer))]
fn without_order(alloc: Global, run: &Run, fault: Fault) -> Result<Verdict, AllocError>
    requires { IsCycle run.now.logs fault }
    ensures answer { IfOk result (λ verdict. IsAnswered run.now.logs (answer_of verdict)) }
    ensures version { IfOk result (λ verdict. HasVersion (certificate_version run.now.version) verdict) }
{
    Ok(Verdict::No {
        faults: unordered(alloc, run, fault)?,
    })
}

/// Does the passes in order, on the calling thread.
fn pass_all(alloc: Global, run: &Run) -> Result<Verdict, AllocError>
    ensures answer { IfOk result (λ verdict. IsAnswered run.now.logs (answer_of verdict)) }
    ensures version { IfOk result (λ verdict. HasVersion (certificate_version run.now.version) verdict) }
{
    match positions(alloc, run)? {
        Order::Cycle(fault) => without_order(alloc, run, fault),
        Order::Positions(certificate) => {
            let judgement = judge(alloc, run, &certificate)?;
            Ok(Verdict::of(run, certificate, judgement))
        }
    }
}

/// Judges a run along this order of its events as `judge` does, with these workers for the last pass.
fn judge_with<T: Threads + Wait + Sync, G: Gate>(
    rt: &T,
    alloc: Global,
    run: &Run,
    certificate: &Certificate,
    workers: Workers,
    gate: &G,
) -> Result<Judgement, AllocError>
    requires { Certified run.now.logs certificate.now.lines }
    ensures { IfOk result (IsJudged run.now.logs) }
{
    match early_along(alloc, run, certificate)? {
        Early::Broken(faults) => Ok(Judgement::No(faults)),
        Early::Passed(view) => {
            let last = LastPass::of(alloc, run, view)?;
            let faults = pass_d_with(rt, alloc, &last.jobs, workers, gate)?;
            last.judgement(alloc, faults)
        }
    }
}

/// Does the passes in order, the last one with these workers.
fn pass_all_with<T: Threads + Wait + Sync, G: Gate>(
    rt: &T,
    alloc: Global,
    run: &Run,
    workers: Workers,
    gate: &G,
) -> Result<Verdict, AllocError>
    ensures answer { IfOk result (λ verdict. IsAnswered run.now.logs (answer_of verdict)) }
    ensures version { IfOk result (λ verdict. HasVersion (certificate_version run.now.version) verdict) }
{
    match positions(alloc, run)? {
        Order::Cycle(fault) => without_order(alloc, run, fault),
        Order::Positions(certificate) => {
            let judgement = judge_with(rt, alloc, run, &certificate, workers, gate)?;
            Ok(Verdict::of(run, certificate, judgement))
        }
    }
}

/// Judges a run by passes A, B, C and D (docs/SPECIFICATIONS.md, "Passes"). Out of memory is an error and not a verdict.
pub fn audit(alloc: Global, run: &Run) -> Result<Verdict, AllocError>
    ensures answer { IfOk result (λ verdict. IsAnswered run.now.logs (answer_of verdict)) }
    ensures sound { IfOk result (λ verdict. IsSound run.now.logs (answer_of verdict)) }
    ensures version { IfOk result (λ verdict. HasVersion (certificate_version run.now.version) verdict) }
{
    pass_all(alloc, run)
}

/// Does the same as `audit`, with one thread per worker. An idle worker takes jobs of the last pass from one channel, and sends what it
/// finds through another. The gate is notified of each job. Out of memory is returned only if it happens on the calling
/// thread.
pub fn audit_with<T: Threads + Wait + Sync, G: Gate>(
    rt: &T,
    alloc: Global,
    run: &Run,
    workers: Workers,
    gate: &G,
) -> Result<Verdict, AllocError>
    ensures answer { IfOk result (λ verdict. IsAnswered run.now.logs (answer_of verdict)) }
    ensures sound { IfOk result (λ verdict. IsSound run.now.logs (answer_of verdict)) }
    ensures version { IfOk result (λ verdict. HasVersion (certificate_version run.now.version) verdict) }
{
    pass_all_with(rt, alloc, run, workers, gate)
}
