//! The command `totem`: calls the program with its arguments and the standard streams.
//!
//! It claims nothing of its own: what it reads, writes and returns is by the contract of `totem_cluster::program_with_progress`
//! (`Ends`, specs/Endings). What it adds is for runs in threads: a line of progress on a terminal, and a line that says what came of a run.
#![tactic(auto)]

mod progress_line;

use progress_line::ProgressLine;
use std::io::IsTerminal;
use std::process::ExitCode;
use totem_cluster::program_with_progress;
use totem_names::{Buffered, Sink, ToWrite};
use totem_verdicts::{VerdictFault, listed, no_words, tell_fault};

fn out_of_memory<E: Sink>(errors: &mut E) -> ExitCode {
    ExitCode::from(tell_fault(errors, &VerdictFault::Memory))
}

fn main(rt: HostRuntime) -> ExitCode {
    let alloc = rt.alloc();
    let mut errors = ToWrite::new(rt.stderr());
    let words = match std::env::args(&rt) {
        Ok(words) => words,
        Err(error) => return ExitCode::from(no_words(&error, &mut errors)),
    };
    let Ok(words) = listed(alloc, words) else {
        return out_of_memory(&mut errors);
    };
    let Ok(mut input) = Buffered::new(alloc, rt.stdin()) else {
        return out_of_memory(&mut errors);
    };
    let mut output = ToWrite::new(rt.stdout());
    let is_terminal = rt.stderr().is_terminal();
    let mut progress = ProgressLine::new(&rt, alloc, ToWrite::new(rt.stderr()), is_terminal);
    let status = program_with_progress(
        &rt,
        alloc,
        words.as_slice(),
        &mut input,
        &mut output,
        &mut errors,
        &mut progress,
    );
    ExitCode::from(status)
}
