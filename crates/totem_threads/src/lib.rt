//! Runs in threads: a network of channels, and nodes each of which has threads that share its book (docs/PROTOCOL.md, "A run in
//! threads").
//!
//! What may be relied on:
//! - `run_nodes` returns one closed book for each node, in ascending order and begun on ring 4.1, and the run of these books' logs
//!   (`IsRunOf`, specs/Books). Each book is the replay of its calls (totem_books).
//! - If there is no run, memory or a thread was refused (`Memory`), or a book or its log is full: of all that a book refuses, only
//!   `Long` ends a run (`EndsRun`, specs/Faults).
//! - `RunPlan::new` returns a plan exactly for 1 to 32 nodes and 1 to 1,000,000 ticks (`IsInRange`, specs/Starts).
//!
//! The contract leaves open which run it is: of what comes through the channels nothing is known.
#![tactic(auto)]

mod fault;
mod firsts;
mod logged;
mod logs;
mod node;
mod plan;
mod run;
mod sending;
mod serving;
mod task;
mod word;

pub use fault::{BookTrouble, ThreadsFault};
pub use plan::RunPlan;
pub use run::run_nodes;
