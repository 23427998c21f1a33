//! The woven ring: one schedule of the steps of all members of a ring, found from their closed books (docs/PROTOCOL.md, "The woven
//! ring").
//!
//! What may be relied on:
//! - `weave` returns a schedule of the ring with each step that the books report of it, once and in its book's order, and no other
//!   (`IsWoven`, specs/Woven). Of the lists of messages that any two members delivered to their nodes, one is a prefix of the other
//!   (`AreOneOrder`).
//! - `Members` comes exactly if books and members don't fit; an `Orphan` is a member's call that is in no schedule (`Refuses`).
//! - A node takes no step on a ring after it has adopted a message of it: the law `only_adopts_last`, and of
//!   a closed book `books_adopt_last` (specs/Adopting).
//! - The laws from `state_is_own` to `whole_is_one_order` say why a search member by member finds all (specs/Laws).
//!
//! Nothing is assumed of the network or the threads: the books alone say what was on the ring.
#![tactic(auto)]

mod adopting;
mod fault;
mod handing;
mod laws;
mod membership;
mod orphan;
mod recorded;
mod seat;
mod sent;
mod track;
mod weaver;
mod weaving;
mod woven;

pub use adopting::{books_adopt_last, only_adopts_last};
pub use fault::WeaveFault;
pub use laws::{
    left_is_orphan, others_leave, own_sent_grows, sent_grows, sent_is_own, state_is_own,
    stuck_is_greatest, whole_is_found, whole_is_one_order,
};
pub use totem_ring::RingMove;
pub use weaving::weave;
pub use woven::Woven;
