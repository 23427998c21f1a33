//! Recovery: what members report of their old rings, and what they write when they leave them (docs/PROTOCOL.md, "Recovery" and
//! "The finish").
//!
//! What may be relied on:
//! - `Recovery::new` begins the recovery that a commit token asks for, where `is_ready` allows it (`IsReady`, `new_recovery`,
//!   specs/Exchange).
//! - `next_bodies`, `on_ring`, `last_mark` and `is_done` are the functions of the same names in specs/Exchange.
//! - `finish` returns exactly the entries of `finish` (specs/Finish).
//! - Members of one transitional set that hold the same messages leave the old ring alike: the law `members_leave_alike`
//!   (`LeavesAlike`, specs/Together). A member that leaves its old ring delivers what it holds and owes, its own messages
//!   among it: `owed_are_delivered`, `a_member_owes_itself` (specs/Owed).
//!
//! It is not claimed that a recovery ends. The auditor uses nothing of this: it sees only the entries.
#![tactic(auto)]

mod beginning;
mod finishing;
mod laws;
mod lives;
mod marks;
mod recovery;
mod sending;

pub use beginning::is_ready;
pub use finishing::deliver;
pub use laws::{a_member_owes_itself, members_leave_alike, owed_are_delivered};
pub use lives::{first_members, ids_of, members_with};
pub use recovery::Recovery;
pub use sending::copies_of;
