//! Explanations of an audit for people: what happened at the places of a fault, what is missing, and the log lines around them
//! (docs/PROGRAM.md, "Explanations").
//!
//! What may be relied on:
//! - `explain_no` explains each fault that it is given, once and in their order (its contract compares the faults).
//! - `line_of` returns the entry's line as in the run's text (`entry_text`, totem_evs specs/RunText).
//! - `Counts::of` counts the entries of each kind as they are (`IsSizeOf`, specs/Sizes).
//! - Every call returns, whatever run, faults and lists it is given, and fails only as out of memory: `apart_lines`, `explain_yes`,
//!   `explain_message`, `explain_views`, `explain_refusal`, `rule_of`.
//!
//! That the wording and the other counts are right is tested and not proved. Lanes and their layout (`Lane`, `lay_out`) are shared
//! with totem_draw.
#![tactic(auto)]

mod absence;
mod apart;
mod circle;
mod columns;
mod counts;
mod cycle;
mod event;
mod fate;
mod fitted;
mod groups;
mod lane;
mod layout;
mod lookup;
mod members;
mod message;
mod messages;
mod missing;
mod next;
mod no;
mod parted;
mod partings;
mod pass;
mod reason;
mod refusal;
mod required;
mod rule;
mod shared;
mod sites;
mod size;
mod survey;
mod tested;
mod traffic;
mod twice;
mod unsent;
mod views;
mod visits;
mod yes;

pub use absence::{Absence, Lacked};
pub use counts::Counts;
pub use event::{event_at, line_of, place_name};
pub use lane::{Excerpt, Gap, Lane, Spot, What};
pub use layout::lay_out;
pub use lookup::{entry_at, message_of};
pub use message::{Traced, explain_message};
pub use no::{Explained, ExplainedNo, explain_no, stopped_by};
pub use parted::apart_lines;
pub use reason::Reason;
pub use refusal::explain_refusal;
pub use required::{Lacking, REQUIRABLE, Required};
pub use rule::rule_of;
pub use views::explain_views;
pub use visits::{Visit, Visits, visits_by};
pub use yes::explain_yes;
