//! The search for the least list of events of a run that breaks a specification, which the plain checker and the passes share.
//!
//! What may be relied on:
//! - `least` returns the least list of events for which a `Relation` holds, or that there is none (`IsLeast`, `HoldsOfNone`), and
//!   `least_bad` does so for single events of which a `Test` says that they are bad.
//! - `find_twice`, `find_unsent`, `find_two_forms` and `find_turns` return the least events that break 1.4, 1.3, 2.3 and 2.4 (`Finds`).
//!
//! `QuickTests` can make most searches of these four unnecessary. For a run alone, without any, each event is searched for. No rule uses
//! any of this.
#![tactic(auto)]

mod configuration_2_3;
mod entries;
mod following;
mod neighbours;
mod pairs;
mod quick;
mod search;
mod succession_2_4;
mod twice_1_4;
mod unsent_1_3;

pub use configuration_2_3::find_two_forms;
pub use entries::{EntryTest, some_entry, some_event};
pub use following::{
    change_at, changes_to_at, first_change, is_change, is_or_follows, next_change,
};
pub use neighbours::{Succession, is_transitional, succession_at};
pub use pairs::Standing;
pub use quick::QuickTests;
pub use search::{
    FoundList, FoundPlaces, Relation, Test, bad_places, begin_at, joined, least, least_bad,
    least_places, places_of, with_found,
};
pub use succession_2_4::find_turns;
pub use twice_1_4::find_twice;
pub use unsent_1_3::find_unsent;
