//! The audit of a run: the verdict of its passes, its parts as calls of their own, and the walk that decides for two processes whether one
//! keeps the order of the other.
//!
//! The events are ordered first, and the run is judged along that order, as the checker does (totem_check). What may be relied on:
//! - The verdict of `audit`, and of `audit_with` for any number of workers, is the answer that docs/SPECIFICATIONS.md ("Passes")
//!   defines (`IsAnswered`), and means what it says (`IsSound`, both of totem_evs): a yes that the run meets specifications 1 to 7,
//!   with its certificate and all that is left open; a no that the places of each fault break its specification.
//! - `early` lists the faults of the first of passes A, B and C that has one (`ListsEarly`, specs/Early).
//! - `do_job` and `collect` give the faults of pass D, whatever results are collected (`IsResultOf`, specs/Results).
//!
//! docs/LIBRARY.md says how to call the parts.
#![tactic(auto)]

mod auditor;
mod batch;
mod collecting;
mod first_passes;
mod gate;
mod job;
mod job_result;
mod last_pass;
mod sharing;
mod spans;
mod verdict;
mod workers;

pub use auditor::{audit, audit_with};
pub use collecting::collect;
pub use first_passes::early;
pub use gate::{Gate, OpenGate};
pub use job_result::{JobResult, do_job};
pub use totem_stitch::Stitch;
pub use totem_walk::walk;
pub use verdict::Verdict;
pub use workers::Workers;
