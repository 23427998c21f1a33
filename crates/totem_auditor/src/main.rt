//! The command `totem` for verdicts only: calls the auditor with its arguments and the standard streams.
//!
//! It claims nothing of its own: what it reads, writes and returns is by the contract of `totem_verdicts::auditor` (`Ends`,
//! specs/Endings). `./totem` answers with this program as long as the whole one is not built: it depends on no crate of the nodes,
//! so it takes half the time to prove.
#![tactic(auto)]

use std::process::ExitCode;
use totem_names::{Buffered, Sink, ToWrite};
use totem_verdicts::{VerdictFault, auditor, listed, no_words, tell_fault};

fn out_of_memory<E: Sink>(errors: &mut E) -> ExitCode {
    ExitCode::from(tell_fault(errors, &VerdictFault::Memory))
}

fn main(rt: HostRuntime) -> ExitCode {
    let alloc = rt.alloc();
    let mut errors = ToWrite::new(rt.stderr());
    let words = match std::env::args(&rt) {
        Ok(words) => words,
        Err(error) => return ExitCode::from(no_words(&error, &mut errors)),
    };
    let Ok(words) = listed(alloc, words) else {
        return out_of_memory(&mut errors);
    };
    let Ok(mut input) = Buffered::new(alloc, rt.stdin()) else {
        return out_of_memory(&mut errors);
    };
    let mut output = ToWrite::new(rt.stdout());
    let status = auditor(
        &rt,
        alloc,
        words.as_slice(),
        &mut input,
        &mut output,
        &mut errors,
    );
    ExitCode::from(status)
}
