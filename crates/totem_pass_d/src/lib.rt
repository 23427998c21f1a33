//! The last pass of the audit: which messages processes have to deliver, for themselves and for each other, in each regular configuration
//! and in what follows it; and what is pending (docs/SPECIFICATIONS.md, "Passes", "Pending and waiting").
//!
//! There is one job for each regular configuration. It asks the rules of totem_judge_traffic, if it is given the traffic, and
//! searches for what they don't show to be met. What may be relied on, in a run that has passed A and B:
//! - `pass_d_of` lists the faults: for each specification and configuration the least events that break it there, and
//!   none where the run meets it (`ListsConfigurations` of totem_evs).
//! - `Jobs::findings` finds the same for one configuration, in whatever order the jobs are done (`AreFindingsAt`, specs/Jobs).
//! - `pending_of` lists exactly what is pending, in ascending order (`ArePending`).
#![tactic(auto)]

mod atomicity_4;
mod causality_5;
mod comings;
mod findings;
mod gap_6_3;
mod indexes;
mod installed_7_2;
mod jobs;
mod own_3;
mod pass;
mod pendings;
mod safety_7_1;
mod search;
mod stays;
mod suspects;

pub use findings::Findings;
pub use jobs::Jobs;
pub use pass::{Found, pass_d_of};
pub use pendings::pending_of;
