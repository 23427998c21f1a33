//! Names of a run: processes, rings, configurations, messages and places; their texts; and the streams of bytes that texts are read
//! from and written to.
//!
//! What may be relied on:
//! - No name has the number 0: `ProcId::new`, `Proc::new`, `RingId::new`, `MsgId::new` and `Place::new` return `None` for it.
//! - `is_below` of `Proc`, `RingId`, `MsgId`, `Place` and `ConfId` is the order of specs/Orders and specs/Ranks, which is strict
//!   and total: `life_order`, `ring_order`, `message_order`, `place_order`, `conf_order`.
//! - `read_ring`, `read_conf`, `read_message`, `read_place`, `read_process`, `number` and `word` give the answer of their grammar
//!   for the bytes that they took, whatever follows them (`Reads`, specs/Sources). `Pieces::put_ring` and the like write the one
//!   spelling (`Writes`, specs/Writing). By the laws `ring_spelling`, `life_spelling` and the like, each grammar reads what is
//!   spelled, and nothing else (`Spells`).
//! - `bounded` and `rising` accept a list exactly if it keeps its rule (`IsListOf`), and otherwise give it back with the first rule
//!   that it breaks (`Refuses`, specs/Lists); `rising_fault` returns that rule alone. All lists of packets, runs and certificates are
//!   made with these, except the numbers of a certificate.
//! - Contracts see the bytes that a `Source` has left and those that a `Sink` holds, where these are known, and count each failure:
//!   `FromRead`, `Buffered` and `ToWrite` over streams of the standard library, and `Fused`, which fails on purpose.
#![tactic(auto)]

mod at_hand;
mod backward;
mod buffered;
mod conf;
mod display;
mod fault;
mod fused;
mod laws;
mod life;
mod listed;
mod lists;
mod message;
mod names;
mod pieces;
mod place;
mod process;
mod process_laws;
mod processes;
mod reading;
mod refused;
mod retry;
mod ring;
mod services;
mod sink;
mod source;
mod text_place;
mod version;
mod writing;

pub use at_hand::{byte_in, conf_in, message_in, service_in, word_in};
pub use backward::{write_message, write_number, write_process};
pub use buffered::Buffered;
pub use conf::ConfId;
pub use fault::{ReadError, TextFault};
pub use fused::Fused;
pub use laws::{
    conf_fits, conf_order, conf_spelling, message_fits, message_order, message_spelling,
    number_spelling, place_order, process_fits, process_spelling, ring_fits, ring_order,
    ring_spelling,
};
pub use life::{Proc, WrittenProc};
pub use lists::{Keyed, Listed, are_same, bounded, copied, rising, rising_fault};
pub use message::{MsgId, Service};
pub use names::{read_conf, read_message, read_ring};
pub use pieces::Pieces;
pub use place::Place;
pub use process::ProcId;
pub use process_laws::{
    life_fits, life_order, life_spelling, place_fits, place_spelling, service_spelling,
};
pub use processes::{read_place, read_process, read_process_to};
pub use reading::{next, number, number_to, number_within, read_proc, word};
pub use refused::{ListFault, Refused};
pub use ring::RingId;
pub use services::read_service;
pub use sink::{Sink, ToWrite};
pub use source::{Failed, FromRead, Source};
pub use text_place::TextPlace;
pub use version::Version;
