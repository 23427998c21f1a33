//! The rules for a whole run: what specifications 1.4 and 2 require of it, and which processes wait for which.
//!
//! What may be relied on, by definitions of specs/Orderly and of totem_evs:
//! - A `true` of `sends_are_once`, `deliveries_are_once` or `end_together` means that the run meets the rule (`SendsAreOnce`,
//!   `DeliveriesAreOnce`, `EndsTogether`). What a `false` means is left open.
//! - A `true` of `is_orderly` means that a run with a certificate meets 1.4 and 2.2 to 2.4 (`IsOrderly`).
//! - `first_misplaced` returns the first entry of a log that breaks 2.2, and `first_end_alone` the first of a run that breaks 2.1;
//!   or `None`, exactly if there is none (`IsMisplaced`, `IsLeastBreak`).
//! - `waiting` lists exactly who waits in a run that meets 1.4 and 2.2 to 2.4, in ascending order (`AreWaiting`), and `in_order` puts
//!   what is pending in order.
//!
//! The passes of the audit use some of these rules, too: totem_pass_ab and totem_pass_d share this crate with totem_judge.
#![tactic(auto)]

mod changes_2_3;
mod ends_2_1;
mod first_changes;
mod misplaced_2_2;
mod once_1_4;
mod orderly;
mod standing;
mod succession_2_4;
mod waitings;

pub use ends_2_1::{end_together, first_end_alone};
pub use misplaced_2_2::first_misplaced;
pub use once_1_4::{deliveries_are_once, sends_are_once};
pub use orderly::is_orderly;
pub use standing::{has_failed, walk_to_change};
pub use succession_2_4::is_wrong_succession;
pub use waitings::{in_order, waiting};
