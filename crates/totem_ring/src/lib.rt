//! One ring: the steps of each member, and the order that every schedule of steps keeps (docs/PROTOCOL.md, "The ring").
//!
//! What may be relied on:
//! - `submit`, `on_message`, `on_token`, `on_resend` and `adopt` of `RingState` are the defined steps, for every state and packet
//!   (specs/Steps). With `Ok` state, packets and deliveries are those of the step; a refusal, `Memory` included, leaves the state
//!   as it was (`Answers`, specs/Answers).
//! - `message_refusal` and `token_refusal_with` return why a step would be refused, without taking it (specs/Refusals). `visit_with`
//!   takes a token that is not refused, with further bodies.
//! - `undo` and `undo_visit` take the last step back: the state is exactly the one before it (`taken_back`, specs/Undoing).
//! - `first_token` is the token with which a ring begins (specs/Rings), made without allocating memory.
//! - Of the lists of messages that any two members deliver to their nodes, one is a prefix of the other, in every schedule, with
//!   packets lost, repeated, late and in any order: the law `one_order` (`OneOrder`, specs/Order), over the same steps.
//!
//! Nothing is claimed about several rings that follow each other, nor that anything is ever delivered.
#![tactic(auto)]

mod departure;
mod fault;
mod held;
mod moves;
mod order;
mod outcome;
mod refusals;
mod requests;
mod start;
mod state;
mod undo;
mod walks;

pub use fault::RingFault;
pub use held::is_agreed;
pub use moves::{Act, RingMove};
pub use order::one_order;
pub use outcome::{RingOut, To};
pub use start::first_token;
pub use state::{MOST_WAITING, RingState, is_same_ring};
pub use undo::{RingUndo, VisitUndo};
