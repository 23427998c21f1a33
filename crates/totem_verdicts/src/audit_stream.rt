//! From the text of a run to the report of its audit.
ghost use Rattle.std.specs.Prelude.{◌≡◌, [], IfOk};
ghost use Rattle.totem_names.specs.Sources.{seen};
ghost use Rattle.totem_names.specs.Writing.{held};
ghost use Rattle.totem_evs.specs.Answers.{IsAnswered};
ghost use Rattle.totem_evs.specs.Meanings.{IsSound};
ghost use Rattle.totem_certificate.specs.Keeping.{certificate_version};
ghost use Rattle.totem_audit.specs.Verdicts.{answer_of, HasVersion};
ghost use Rattle.totem_verdicts.specs.AuditIo.{Audits, ReadsWhole, Reports, Says};

use crate::outcome::Outcome;
use crate::report::{Form, write_report};
use crate::verdict_fault::VerdictFault;
use std::alloc::{AllocError, Global};
use std::sync::Wait;
use std::thread::Threads;
use totem_audit::{OpenGate, Verdict, Workers, audit, audit_with};
use totem_evs::{Run, RunFault, read_end, read_run};
use totem_names::{Sink, Source};

/// Reads a run and the end of the input after it.
pub(crate) fn read_whole<R: Source>(alloc: Global, input: &mut R) -> Result<Run, RunFault>
    ensures { ReadsWhole (seen R.remaining R.failures input.old) (seen R.remaining R.failures input.new) result }
{
    let run = read_run(alloc, input)?;
    read_end(input)?;
    Ok(run)
}

/// Returns the outcome of a verdict.
pub(crate) fn outcome(verdict: &Verdict) -> Outcome
    ensures { Says (answer_of verdict.now) result }
{
    match verdict {
        Verdict::Yes { .. } => Outcome::Yes,
        Verdict::No { .. } => Outcome::No,
    }
}

/// Judges the run. With one worker the calling thread does all the work and starts no other thread.
pub(crate) fn judge<T: Threads + Wait + Sync>(
    rt: &T,
    alloc: Global,
    run: &Run,
    workers: Workers,
) -> Result<Verdict, AllocError>
    ensures answer { IfOk result (λ verdict. IsAnswered run.now.logs (answer_of verdict)) }
    ensures sound { IfOk result (λ verdict. IsSound run.now.logs (answer_of verdict)) }
    ensures version { IfOk result (λ verdict. HasVersion (certificate_version run.now.version) verdict) }
{
    if workers.count() == 1 {
        return audit(alloc, run);
    }
    audit_with(rt, alloc, run, workers, &OpenGate)
}

/// Reads the text of a run to the end of the input, judges the run, and writes the report in this form. The report is the same for every
/// number of workers.
pub fn report_io<T: Threads + Wait + Sync, R: Source, W: Sink>(
    rt: &T,
    alloc: Global,
    input: &mut R,
    output: &mut W,
    workers: Workers,
    form: Form,
) -> Result<Outcome, VerdictFault>
    ensures { Reports form (seen R.remaining R.failures input.old) (seen R.remaining R.failures input.new)
        (held W.contents W.failures [] output.old) (held W.contents W.failures [] output.new) result }
{
    let run = read_whole(alloc, input)?;
    let Ok(verdict) = judge(rt, alloc, &run, workers) else {
        return Err(VerdictFault::Memory);
    };
    write_report(alloc, run.version, form, &verdict, output)?;
    Ok(outcome(&verdict))
}

/// Does what `report_io` does, and writes the whole report.
pub fn audit_io<T: Threads + Wait + Sync, R: Source, W: Sink>(
    rt: &T,
    alloc: Global,
    input: &mut R,
    output: &mut W,
    workers: Workers,
) -> Result<Outcome, VerdictFault>
    ensures { Audits (seen R.remaining R.failures input.old) (seen R.remaining R.failures input.new)
        (held W.contents W.failures [] output.old) (held W.contents W.failures [] output.new) result }
{
    report_io(rt, alloc, input, output, workers, Form::Whole)
}
