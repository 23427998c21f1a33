//! A client of the crates: it imports what each of them hands out to callers, by the path that callers use, and makes the calls that no
//! other crate of tests makes, in the form that callers write.
//!
//! Nothing here runs: contracts fix what the calls answer. What it shows is that it compiles: a name, a path or an argument that changes is
//! seen here, and so is a `requires` that a caller can't meet.
#![tactic(auto)]

pub mod names;
pub mod networks;
pub mod nodes;
pub mod programs;
pub mod rings;
pub mod runs;
