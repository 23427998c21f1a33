//! The jobs of an audit as separate calls, and what is collected of their results.
ghost use Rattle.totem_evs.specs.Answers.{MeetsPasses};

use crate::values::{is_told, push_faults, run_of};
use std::alloc::{AllocError, Global};
use std::test::Fail;
use totem_audit::{JobResult, collect, do_job, early};
use totem_evs::{Fault, Run};

/// Returns the log of one process with 40 configurations, in each of which it sends and delivers a message, but doesn't deliver in the
/// 2nd, the 20th and the 39th.
fn forty_configurations(alloc: Global) -> Result<String, AllocError> {
    let mut text = String::new(alloc);
    text.push_str("log 1\nconf r4.1 1\n")?;
    for k in 1..41u32 {
        let (ring, next) = (4 * k, 4 * k + 4);
        write!(text, "send r{ring}.1 a {ring}.1#1\n")?;
        if k != 2 && k != 20 && k != 39 {
            write!(text, "dlv r{ring}.1 {ring}.1#1\n")?;
        }
        if k < 40 {
            write!(text, "conf t{next}.1/1 1\nconf r{next}.1 1\n")?;
        }
    }
    text.push_str("open\n")?;
    Ok(text)
}

/// Process 1 moves on without delivering what it sent.
const SENT_AND_MOVED_ON: &str =
    "log 1\nconf r4.1 1 2\nsend r4.1 a 4.1#1\nconf t8.1/1 1\nconf r8.1 1\nopen\nlog 2\nconf r4.1 1 2\nopen\n";

/// Adds a job's number, the number of logs of its run, and whether 3 is broken in its configuration; or that there is no such job.
fn push_job(alloc: Global, text: &mut String, run: &Run, number: u32) -> Result<(), AllocError>
    requires { MeetsPasses run.now.logs }
{
    let Some(done) = do_job(alloc, run, number)? else {
        return write!(text, "no job {number}; ");
    };
    let (job, logs) = (done.job(), done.run().logs.as_slice().len());
    let broken = done.findings().own.is_some();
    write!(text, "job {job} of {logs} {broken}; ")
}

/// Returns the faults of the run, collected from a result of the other run and those of its own jobs 1, 1 and 40.
fn collected<'r>(alloc: Global, run: &'r Run, other: &'r Run) -> Result<Vec<Fault>, AllocError>
    requires run { MeetsPasses run.now.logs }
    requires other { MeetsPasses other.now.logs }
{
    let mut results: Vec<JobResult<'r>> = Vec::new(alloc);
    if let Some(done) = do_job(alloc, other, 1)? {
        results.push(done)?;
    }
    for job in [1, 1, 40] {
        if let Some(done) = do_job(alloc, run, job)? {
            results.push(done)?;
        }
    }
    collect(alloc, run, results)
}

/// Adds some jobs of the run and of the other one, and what is collected for the run from results of both.
fn push_jobs(alloc: Global, text: &mut String, run: &Run, other: &Run) -> Result<(), AllocError> {
    if !early(alloc, run)?.is_empty() || !early(alloc, other)?.is_empty() {
        return text.push_str("the first passes have faults");
    }
    for number in [0, 1, 2, 40, 41] {
        push_job(alloc, text, run, number)?;
    }
    push_job(alloc, text, other, 1)?;
    text.push_str("collected")?;
    push_faults(text, &collected(alloc, run, other)?)
}

fn told(alloc: Global) -> Result<String, Fail> {
    let run = run_of(alloc, 1, &forty_configurations(alloc)?)?;
    let other = run_of(alloc, 1, SENT_AND_MOVED_ON)?;
    let mut text = String::new(alloc);
    push_jobs(alloc, &mut text, &run, &other)?;
    Ok(text)
}

/// All faults of a run are collected, even if results are of another run, repeated or missing.
#[test]
fn whatever_results_are_collected(rt: HostRuntime) -> Result<(), Fail> {
    is_told(
        &rt,
        &told(rt.alloc())?,
        "no job 0; job 1 of 1 false; job 2 of 1 true; job 40 of 1 false; no job 41; job 1 of 2 true; \
        collected; 3 1@6; 3 1@77; 3 1@152",
        "a result of another run, and those of jobs 1, 1 and 40",
    );
    Ok(())
}
