//! The judge: it reads a run in the order of its certificate, and applies the rules to what it observes.
//!
//! `observe` tests the rules of the whole run, gathers the traffic of each regular configuration in one walk along the numbers, and
//! compares it with the logs, entry by entry. What may be relied on:
//! - If it returns a `View`, the run meets the specifications of passes A and B, the view has the traffic of all its regular
//!   configurations, and what is pending, in ascending order (`IsView`, specs/Judged).
//! - A `true` of `View::agrees` means that the rules of all configurations are met (`Agree`); then the run meets specifications 1
//!   to 7 (`settled`, proofs/Settled; `totem_check::check` says so).
//! - What `None` or `false` means is left open.
//!
//! The walk that gathers promises nothing. What is observed depends on no table, search or pass of the audit.
#![tactic(auto)]

mod covered;
mod ends;
mod following;
mod gather;
mod gathered;
mod judging;
mod members;
mod pending;
mod replay;
mod sends;
mod stay;
mod traffic;

pub use judging::{View, observe};
