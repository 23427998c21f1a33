//! Laws of the verdict: about each specification, about what a yes leaves open, and that a run has one answer.
//!
//! Each law is the contract of a function with an empty body:
//! - `broken_is_not_met`, `faults_are_not_met`: a run in which places break a specification does not meet it (`BrokenIsNotMet`,
//!   specs/Laws).
//! - `each_is_met`: a run meets specifications 1 to 7 exactly if it meets each one that a fault can name (`EachIsMet`).
//! - `installed_breaks_with_safety`: if 2.2 holds, what breaks 7.2 breaks 7.1, too.
//! - `sender_is_pending`, `member_is_pending`: what 3 and 7.1 excuse is listed as pending (specs/Excuses).
//! - `answers_are_one`: a run has at most one answer, and at most one of each of its parts (`least_breaks_are_one` and the like,
//!   specs/OneAnswer).
//!
//! Nothing of it runs: it says what the definitions of totem_evs mean together. The audit uses that a run has one list of its rings.
#![tactic(auto)]

mod excuses;
mod one_answer;
mod specifications;

pub use excuses::{member_is_pending, sender_is_pending};
pub use one_answer::{
    answers_are_one, certificates_are_one, configuration_faults_are_one, least_breaks_are_one,
    pass_faults_are_one, pending_is_one, rings_are_one, waiting_is_one,
};
pub use specifications::{
    broken_is_not_met, each_is_met, faults_are_not_met, installed_breaks_with_safety,
};
