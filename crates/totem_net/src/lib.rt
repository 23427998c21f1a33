//! The network of a run in threads: the plan of losses, the fates of packets, the ways to the receivers, and the switch
//! (docs/PROTOCOL.md, "The network").
//!
//! What may be relied on:
//! - `Plan::new` returns a plan exactly if at most 100 of 100 packets are lost or repeated.
//! - `fate` is the formula `fate_of` (specs/Fates), and the n-th fate of a seed comes from the generator's n-th word:
//!   `Fates::next`, `Fates::nth` (specs/Words).
//! - `Ways::carry` takes the defined step: what is forwarded and in which order, what is held, and which fates are drawn
//!   (`all_handed`, `all_held`, `past_all`, specs/Ways). Out of memory changes nothing.
//! - No copy is lost or made on the way, and each waits exactly as long as it has to: the laws `no_copy_is_lost`,
//!   `copies_wait_their_time` (specs/Waiting).
//! - `Turns::tick` says which node has its turn (`next_turn`, specs/Turns); `Network::new` makes one end for each node.
//!
//! `Switch`, `Pacer` and the channels are only proved safe: what they do is tested, and no contract relies on what comes through
//! them.
#![tactic(auto)]

mod address;
mod copies;
mod credit;
mod delivery;
mod drawn;
mod ends;
mod fates;
mod formula;
mod held;
mod laws;
mod network;
mod pacer;
mod plan;
mod port;
mod ports;
mod progress;
mod sending;
mod start;
mod switch;
mod turn;
mod turns;
mod ways;
mod wire;
mod words;

pub use address::Address;
pub use copies::Fate;
pub use delivery::Delivery;
pub use drawn::Drawn;
pub use ends::{NodeEnds, Outlet, ThreadEnd};
pub use fates::Fates;
pub use formula::fate;
pub use laws::{copies_wait_their_time, no_copy_is_lost};
pub use network::Network;
pub use pacer::Pacer;
pub use plan::Plan;
pub use progress::{Logged, Progress, Tally, Traffic, Unwatched};
pub use start::{Quiet, Start};
pub use switch::Switch;
pub use turn::Turn;
pub use turns::Turns;
pub use ways::Ways;
pub use words::{ClientWord, Inbound, Pace, PacketWord, TimerWord};
