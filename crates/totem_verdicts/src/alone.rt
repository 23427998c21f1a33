//! The auditor: the program without the commands that make runs.
ghost use Rattle.std.specs.Prelude.{◌≡◌, []};
ghost use Rattle.totem_names.specs.Sources.{seen};
ghost use Rattle.totem_names.specs.Writing.{held};
ghost use Rattle.totem_verdicts.specs.Endings.{Ends, bare};

use crate::answering::answer;
use crate::judging::judge_io;
use crate::telling::tell;
use crate::words::{Words, read_words};
use std::alloc::Global;
use std::sync::Wait;
use std::thread::Threads;
use totem_names::{Sink, Source};

/// What is printed if the auditor is asked for a run.
const LACKING: &str = "\
totem: this is the auditor alone: sim, run and explain --script need the whole program (./totem prove builds it)
";

/// The auditor over any three streams. It answers as the whole program does if the arguments ask for a verdict, help or the version. The
/// first of `words` is the program's name. Returns the exit status.
pub fn auditor<T: Threads + Wait + Sync, R: Source, W: Sink, E: Sink>(
    rt: &T,
    alloc: Global,
    words: &[String],
    input: &mut R,
    output: &mut W,
    errors: &mut E,
) -> u8
    ensures { Ends (seen R.remaining R.failures input.old) (seen R.remaining R.failures input.new)
        (held W.contents W.failures [] output.old) (held W.contents W.failures [] output.new)
        (bare E.contents E.failures errors.old) (bare E.contents E.failures errors.new) result }
{
    match read_words(alloc, words) {
        Err(error) => answer(alloc, &error, output, errors),
        Ok(Words::Verdict(asked)) => judge_io(rt, alloc, asked, input, output, errors),
        Ok(_) => {
            tell(errors, LACKING.as_bytes());
            64
        }
    }
}
