//! Causal delivery between two processes: one walk along the log of each (docs/SPECIFICATIONS.md, "5 Causal delivery").
//!
//! What may be relied on, in a run that has passed A and B, with the tables of this run:
//! - `walk` returns `true` exactly if 5 holds between a sender and a receiver in a regular configuration (`IsCausalBetween`,
//!   specs/Between). With `false` two sends and a delivery of theirs break 5 (`BreaksBetween`).
//! - `looks` grows by at most the number of entries of both logs, and by all of them with `true` (`entries_of_both`); if memory
//!   runs out, it stays.
//! - Specification 5 in a configuration, among pairs in one log, is what holds between each two processes: the law
//!   `causality_is_of_pairs`.
//!
//! No verdict uses this crate: pass D decides 5 for all processes at once. It is for callers of the crates; totem_audit re-exports
//! `walk`.
#![tactic(auto)]

mod acts;
mod between;
mod deliveries;
mod order;
mod pace;
mod reading;

pub use between::{causality_is_of_pairs, walk};
pub use reading::entries_of;
