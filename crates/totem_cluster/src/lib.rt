//! The program over any three streams: gives the verdicts of totem_verdicts, and makes runs from scripts or with nodes in threads
//! (docs/PROGRAM.md).
//!
//! What may be relied on:
//! - `audit_io` and `check_io` are those of totem_verdicts, with their faults among this crate's (`Gives`,
//!   specs/IoFaults).
//! - `sim_io` and `follow_io`: with an outcome, a script was read to its end, and what was written is the text of its run
//!   (`Simulates`, specs/SimIo).
//! - `run_threads`: the run is that of closed books, one for each node. `run_io` writes its text and nothing else (`Records`,
//!   specs/RunIo).
//! - `weave_io` writes the woven ring of such a run, or the call that fits no schedule (`WeavesRun`, specs/WeaveIo).
//! - `program` and `program_with_progress`: each status comes only with these streams (`Ends`, specs/Endings).
//!
//! Whoever wants only verdicts needs totem_verdicts and not this crate, under which all crates of the nodes are.
#![tactic(auto)]

mod io_fault;
mod judging;
mod planning;
mod recording;
mod script_words;
mod shell;
mod simulating;
mod tally;
mod telling;
mod weaving;

pub use io_fault::IoFault;
pub use judging::{audit_io, check_io};
pub use recording::{run_io, run_threads};
pub use shell::{program, program_with_progress};
pub use simulating::{Unmade, follow_io, sim_io};
pub use telling::tell_fault;
pub use totem_audit::Workers;
pub use totem_net::{Logged, Progress, Tally, Traffic};
pub use totem_threads::{BookTrouble, RunPlan};
pub use totem_verdicts::Outcome;
pub use totem_weave::{RingMove, WeaveFault, Woven, weave};
pub use weaving::{Weave, weave_io};
