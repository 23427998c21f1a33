//! The answer to arguments that ask for a verdict (docs/PROGRAM.md).
ghost use Rattle.std.specs.Prelude.{◌≡◌, []};
ghost use Rattle.totem_names.specs.Sources.{seen};
ghost use Rattle.totem_names.specs.Writing.{held};
ghost use Rattle.totem_verdicts.specs.Endings.{Concludes, GivesExplanation, Judges, Points, Traces, bare};

use crate::audit_stream::report_io;
use crate::check_stream::check_by;
use crate::explain_stream::{Explanation, explain_io};
use crate::outcome::Outcome;
use crate::telling::{tell, tell_fault, tell_with_words};
use crate::trace_stream::trace_io;
use crate::verdict_fault::VerdictFault;
use crate::words::Asked;
use std::alloc::{AllocError, Global};
use std::sync::Wait;
use std::thread::Threads;
use totem_audit::Workers;
use totem_explain::{Lacking, Required, explain_refusal};
use totem_names::{MsgId, Sink, Source};

/// What is printed if the arguments ask for a message by what is no name of one.
const NO_MESSAGE: &str = "\
error: invalid value for '--message <M>': a message is written as in 317.1#52, with the ring after which it is named and its number there

For more information, try '--help'.
";

/// Returns this number of workers, or one worker if the number is out of range.
fn as_many(workers: u32) -> Workers {
    Workers::new(workers).unwrap_or(Workers::one())
}

/// Returns the explanation that is printed after a fault's line.
fn words_of<R: Source>(
    alloc: Global,
    fault: &VerdictFault,
    input: &R,
) -> Result<String, AllocError> {
    match fault {
        VerdictFault::Run(fault) => explain_refusal(alloc, fault, input.text_place()),
        _ => Ok(String::new(alloc)),
    }
}

/// Reports why a run can't be explained, and where in its text the fault is. Returns the status.
fn point<R: Source, E: Sink>(alloc: Global, fault: &VerdictFault, input: &R, errors: &mut E) -> u8
    ensures { Points fault.now (bare E.contents E.failures errors.old) (bare E.contents E.failures errors.new) result }
{
    match words_of(alloc, fault, input) {
        Ok(words) => tell_with_words(errors, fault, words.as_str()),
        Err(_) => tell_fault(errors, &VerdictFault::Memory),
    }
}

/// Returns the status of an outcome. Reports a fault that was asked for and is not there and, after a yes, which required counts the run lacks.
fn end<E: Sink>(outcome: Outcome, no_fault: &str, lacking: &str, errors: &mut E) -> u8
    ensures { Concludes outcome (bare E.contents E.failures errors.old) (bare E.contents E.failures errors.new) result }
{
    match outcome {
        _ if !no_fault.is_empty() => {
            tell(errors, no_fault.as_bytes());
            6
        }
        Outcome::Yes if !lacking.is_empty() => {
            tell(errors, lacking.as_bytes());
            5
        }
        _ => outcome.status(),
    }
}

/// Writes an explanation of the run, and returns the status.
fn explain<T: Threads + Wait + Sync, R: Source, W: Sink, E: Sink>(
    rt: &T,
    alloc: Global,
    workers: Workers,
    explanation: Explanation,
    required: Required,
    input: &mut R,
    output: &mut W,
    errors: &mut E,
) -> u8
    ensures { GivesExplanation explanation (seen R.remaining R.failures input.old) (seen R.remaining R.failures input.new)
        (held W.contents W.failures [] output.old) (held W.contents W.failures [] output.new)
        (bare E.contents E.failures errors.old) (bare E.contents E.failures errors.new) result }
{
    let mut lacking = Lacking::of(alloc, required);
    match explain_io(rt, alloc, input, output, workers, explanation, &mut lacking) {
        Ok(outcome) => end(outcome, lacking.no_fault(), lacking.line(), errors),
        Err(fault) => point(alloc, &fault, input, errors),
    }
}

/// Says what became of a message, unless what the arguments have is no name of one. Returns the status: 6 if no log names the message.
fn trace<R: Source, W: Sink, E: Sink>(
    alloc: Global,
    message: Option<MsgId>,
    columns: usize,
    input: &mut R,
    output: &mut W,
    errors: &mut E,
) -> u8
    ensures { Traces message (seen R.remaining R.failures input.old) (seen R.remaining R.failures input.new)
        (held W.contents W.failures [] output.old) (held W.contents W.failures [] output.new)
        (bare E.contents E.failures errors.old) (bare E.contents E.failures errors.new) result }
{
    match message {
        Some(message) => match trace_io(alloc, input, output, message, columns) {
            Ok(true) => 0,
            Ok(false) => 6,
            Err(fault) => point(alloc, &fault, input, errors),
        },
        None => {
            tell(errors, NO_MESSAGE.as_bytes());
            64
        }
    }
}

/// Gives the verdict that the arguments ask for, and returns the status.
pub fn judge_io<T: Threads + Wait + Sync, R: Source, W: Sink, E: Sink>(
    rt: &T,
    alloc: Global,
    asked: Asked,
    input: &mut R,
    output: &mut W,
    errors: &mut E,
) -> u8
    ensures { Judges asked (seen R.remaining R.failures input.old) (seen R.remaining R.failures input.new)
        (held W.contents W.failures [] output.old) (held W.contents W.failures [] output.new)
        (bare E.contents E.failures errors.old) (bare E.contents E.failures errors.new) result }
{
    match asked {
        Asked::Check { checker } => match check_by(alloc, checker, input, output) {
            Ok(outcome) => outcome.status(),
            Err(fault) => tell_fault(errors, &fault),
        },
        Asked::Explain {
            workers,
            explanation,
            required,
        } => explain(
            rt,
            alloc,
            as_many(workers),
            explanation,
            required,
            input,
            output,
            errors,
        ),
        Asked::Message { message, columns } => {
            trace(alloc, message, columns, input, output, errors)
        }
        Asked::Audit { workers, form } => {
            match report_io(rt, alloc, input, output, as_many(workers), form) {
                Ok(outcome) => outcome.status(),
                Err(fault) => tell_fault(errors, &fault),
            }
        }
    }
}
