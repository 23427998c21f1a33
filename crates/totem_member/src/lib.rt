//! Membership: which processes gather, and the commit token that forms their ring (docs/PROTOCOL.md, "Gathering" and "The commit
//! token").
//!
//! What may be relied on:
//! - `Gather::new`, `on_join` and `on_timeout` take the steps of specs/Gathers; a refused call changes nothing, and its fault is
//!   that of the rules, or `Memory` where the rules would not refuse (`Begins`, `IsStep`, specs/Steps).
//! - `Gather::consensus` returns the set on which there is consensus, with the process itself in it (`consensus`).
//! - `first_commit` and `on_commit` make and take a commit token as specs/Commits says (`IsAnswer`). `on_commit` is two calls:
//!   `commit_act` returns in which way the token is taken, or why it is refused, without allocating memory, and `passed_on` makes the
//!   token that goes on (specs/Acts).
//! - `after_join` and `after_timeout` return what `on_join` and `on_timeout` make of a gathering, `consensus_after` and
//!   `consensus_after_timeout` the consensus then, without allocating memory.
//!
//! It is not claimed that a gathering ends.
#![tactic(auto)]

mod act;
mod commit;
mod fault;
mod gather;
mod join_sets;
mod views;

pub use act::commit_act;
pub use commit::{first_commit, on_commit, passed_on};
pub use fault::MemberFault;
pub use gather::Gather;
pub use join_sets::{Noted, Sets};
pub use totem_packets::Report;
pub use views::{Act, CommitOut, CommitView, GatherOut, Phase};
