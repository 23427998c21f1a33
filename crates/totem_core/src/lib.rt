//! A node of the protocol: ring, membership and recovery, put together as one state machine over inputs (docs/PROTOCOL.md, "The
//! node").
//!
//! What may be relied on:
//! - `NodeCore::new` returns the node that starts on a ring, in one of its lives, and the first entry of its log (`new_node`,
//!   specs/Nodes; `first_change`, specs/Replay).
//! - `NodeCore::step` is the defined step, for every state and input: with `Ok` the state, the packets, the entries and the steps
//!   on rings are exactly those of `step` (specs/Table). A refused step changes nothing, and has the defined fault, or `Memory` if it
//!   would otherwise be taken (`IsStep`, specs/Answers).
//!
//! A step waits for nothing, and reads no clock: timers and packets are inputs. So scripts (totem_script), books (totem_books) and
//! threads (totem_threads) all run the same node. That the logs meet the specifications is not claimed (docs/PROTOCOL.md, "Why runs
//! are audited").
#![tactic(auto)]

mod clients;
mod commits;
mod fault;
mod gathering;
mod input;
mod joins;
mod laws;
mod leaving;
mod messages;
mod node_core;
mod outcome;
mod recovering;
mod reporting;
mod ring_step;
mod state;
mod step;
mod timers;
mod tokens;
mod told;
mod transition;

pub use fault::NodeFault;
pub use input::Input;
pub use laws::first_lives_stay;
pub use node_core::NodeCore;
pub use outcome::StepOut;
pub use ring_step::RingStep;
pub use state::{Recovering, State};
