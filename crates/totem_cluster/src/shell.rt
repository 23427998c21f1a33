//! The program (docs/PROGRAM.md).
ghost use Rattle.std.specs.Prelude.{◌≡◌, []};
ghost use Rattle.totem_names.specs.Sources.{seen};
ghost use Rattle.totem_names.specs.Writing.{held};
ghost use Rattle.totem_threads.specs.Starts.{IsInRange};
ghost use Rattle.totem_verdicts.specs.Endings.{bare};
ghost use Rattle.totem_cluster.specs.Endings.{Ends, Points, Plays};

use crate::io_fault::IoFault;
use crate::planning::plan_of;
use crate::recording::run_io;
use crate::script_words::explain_line;
use crate::simulating::{Unmade, follow_io, sim_io};
use crate::telling::{tell_fault, tell_with_words};
use crate::weaving::weave_io;
use std::alloc::{AllocError, Global};
use std::sync::Wait;
use std::thread::Threads;
use totem_names::{Sink, Source};
use totem_net::{Progress, Unwatched};
use totem_threads::RunPlan;
use totem_verdicts::{RunWords, Words, answer, judge_io, read_words, tell};

/// What is printed if the numbers for a run don't fit together.
const UNFIT: &str = "\
error: '--lose' and '--repeat' add up to more than 100

For more information, try '--help'.
";

/// Runs nodes in threads and weaves their ring, and returns the status.
fn play_woven<T: Threads + Wait + Sync, W: Sink, E: Sink, P: Progress>(
    rt: &T,
    alloc: Global,
    plan: RunPlan,
    output: &mut W,
    errors: &mut E,
    progress: &mut P,
) -> u8
    requires { IsInRange plan }
    ensures { Plays (held W.contents W.failures [] output.old) (held W.contents W.failures [] output.new)
        (bare E.contents E.failures errors.old) (bare E.contents E.failures errors.new) result }
{
    match weave_io(rt, alloc, plan, output, progress) {
        Ok(weave) => weave.status(),
        Err(fault) => tell_fault(errors, &fault),
    }
}

/// Runs nodes in threads if the numbers fit together, and returns the status.
fn play<T: Threads + Wait + Sync, W: Sink, E: Sink, P: Progress>(
    rt: &T,
    alloc: Global,
    words: &RunWords,
    output: &mut W,
    errors: &mut E,
    progress: &mut P,
) -> u8
    ensures { Plays (held W.contents W.failures [] output.old) (held W.contents W.failures [] output.new)
        (bare E.contents E.failures errors.old) (bare E.contents E.failures errors.new) result }
{
    let Some(plan) = plan_of(words) else {
        tell(errors, UNFIT.as_bytes());
        return 64;
    };
    if words.weave {
        return play_woven(rt, alloc, plan, output, errors, progress);
    }
    match run_io(rt, alloc, plan, output, progress) {
        Ok(outcome) => outcome.status(),
        Err(fault) => tell_fault(errors, &fault),
    }
}

/// Returns the explanation that is printed after the line of a script's fault.
fn line_words(alloc: Global, unmade: &Unmade) -> Result<String, AllocError> {
    match &unmade.fault {
        IoFault::Script(fault) => explain_line(alloc, *fault, unmade.line, &unmade.script),
        _ => Ok(String::new(alloc)),
    }
}

/// Reports why a script makes no run, and at which line. Returns the status.
fn point_line<E: Sink>(alloc: Global, unmade: &Unmade, errors: &mut E) -> u8
    ensures { Points unmade.now.fault (bare E.contents E.failures errors.old) (bare E.contents E.failures errors.new) result }
{
    match line_words(alloc, unmade) {
        Ok(words) => tell_with_words(errors, &unmade.fault, words.as_str()),
        Err(_) => tell_fault(errors, &IoFault::Memory),
    }
}

/// The program over any three streams. The first of `words` is the program's name. Returns the exit status.
pub fn program<T: Threads + Wait + Sync, R: Source, W: Sink, E: Sink>(
    rt: &T,
    alloc: Global,
    words: &[String],
    input: &mut R,
    output: &mut W,
    errors: &mut E,
) -> u8
    ensures { Ends (seen R.remaining R.failures input.old) (seen R.remaining R.failures input.new)
        (held W.contents W.failures [] output.old) (held W.contents W.failures [] output.new)
        (bare E.contents E.failures errors.old) (bare E.contents E.failures errors.new) result }
{
    program_with_progress(rt, alloc, words, input, output, errors, &mut Unwatched)
}

/// Does the same as `program`, and reports the progress of a run in threads unless the arguments ask for quiet.
pub fn program_with_progress<T: Threads + Wait + Sync, R: Source, W: Sink, E: Sink, P: Progress>(
    rt: &T,
    alloc: Global,
    words: &[String],
    input: &mut R,
    output: &mut W,
    errors: &mut E,
    progress: &mut P,
) -> u8
    ensures { Ends (seen R.remaining R.failures input.old) (seen R.remaining R.failures input.new)
        (held W.contents W.failures [] output.old) (held W.contents W.failures [] output.new)
        (bare E.contents E.failures errors.old) (bare E.contents E.failures errors.new) result }
{
    match read_words(alloc, words) {
        Err(error) => answer(alloc, &error, output, errors),
        Ok(Words::Verdict(asked)) => judge_io(rt, alloc, asked, input, output, errors),
        Ok(Words::Sim) => match sim_io(alloc, input, output) {
            Ok(outcome) => outcome.status(),
            Err(fault) => tell_fault(errors, &fault),
        },
        Ok(Words::Run(words)) => play(rt, alloc, &words, output, errors, progress),
        Ok(Words::RunQuietly(words)) => { play(rt, alloc, &words, output, errors, &mut Unwatched) }
        Ok(Words::ExplainScript) => match follow_io(alloc, input, output) {
            Ok(outcome) => outcome.status(),
            Err(unmade) => point_line(alloc, &unmade, errors),
        },
    }
}
