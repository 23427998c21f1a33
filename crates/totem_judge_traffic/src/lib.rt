//! The rules for one regular configuration and what follows it: what specifications 3 to 7 require there, in terms of
//! the sets of logs that deliver each message.
//!
//! A `Traffic` says what was sent and delivered in a configuration, and which logs end there or go on together. What may be relied
//! on:
//! - A `true` of `own_delivery_is_met`, `atomicity_is_met`, `causality_is_met`, `no_gap_is_left`, `safety_is_met` or
//!   `installed_is_met` means that each run that has passed A and B and has this traffic meets 3, 4, 5, 6.3, 7.1 or 7.2 there
//!   (`Shows`, specs/Clean).
//! - A `true` of `is_agreed` means all six (`ShowsAgreement`). What a `false` means is left open.
//! - `push_pending` appends exactly the messages that are pending there for the process of a log (`AddsPending`, specs/Pending).
//! - The operations of `LogSet` are those of sets of logs, by their index in the run (`Has`, specs/LogSets).
//!
//! `Shown::by` applies the six rules (`AreShown`). Nothing here reads a log: that the traffic is that of a run is proved in
//! totem_judge, and totem_pass_d spares the searches for what is shown.
#![tactic(auto)]

mod agreed;
mod atomicity_4;
mod causality_5;
mod gap_6_3;
mod installed_7_2;
mod log_set;
mod observed;
mod own_3;
mod pending;
mod rows;
mod safety_7_1;
mod traffic;

pub use agreed::{Shown, is_agreed};
pub use atomicity_4::atomicity_is_met;
pub use causality_5::causality_is_met;
pub use gap_6_3::no_gap_is_left;
pub use installed_7_2::installed_is_met;
pub use log_set::LogSet;
pub use observed::Observed;
pub use own_3::own_delivery_is_met;
pub use pending::push_pending;
pub use safety_7_1::safety_is_met;
pub use traffic::{Following, Got, MemberLogs, Sent, Traffic};
