//! The first passes of the audit. The module of each specification finds the least events that break it.
//!
//! What may be relied on:
//! - `pass_a_and_b` lists, of 1.4, 2.1, 2.2, 2.3 and 2.4, each that the run breaks, with the least events that break it, and nothing for
//!   those that the run meets; if it meets them all, it does the same for 1.3 (`ListsFirst`, specs/Listed).
//!
//! The contract holds for every run. The checker uses this crate as well: if a rule says no, passes A, B and D name what is broken.
#![tactic(auto)]

mod configuration_2_3;
mod ends_2_1;
mod met;
mod misplaced_2_2;
mod pass;
mod succession_2_4;
mod twice_1_4;
mod unsent_1_3;

pub use pass::pass_a_and_b;
