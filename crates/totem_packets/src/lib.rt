//! Packets: what nodes send to each other, and their bytes (docs/PROTOCOL.md, "Packets" and "Sets of processes").
//!
//! What may be relied on:
//! - `Number`, `Life`, `TokenSeq`, `Payload`, `Requests`, `Processes` and `CommitMembers` keep their ranges; their `new` refuses
//!   anything else, and gives a list or a payload back.
//! - `Packet::encode` returns `packet_bytes` (specs/Spelling), the packet's one spelling. `Packet::decode` returns the packet that
//!   the bytes spell or the fault of `decode_packet` (specs/Grammar), whatever bytes come. Bytes of no kind of packet take no
//!   memory.
//! - By the laws `read_is_spelled`, `spelled_is_read` and `no_packet_begins_another` grammar and spelling fit, and each fault has
//!   its place (`a_cut_packet_is_short`, `kind_is_the_first_byte`, `range_is_known_at_once`).
//! - `Processes` is a set of fixed size: it takes no memory, and is copied like a number. `with`, `union`, `without` and
//!   `next_after` are the operations of specs/Sets; the first two refuse what would have more than 32 processes (`TooMany`).
//! - `transitional_set`, `least_aru`, `greatest_delivered` and `obligation_union` of `CommitMembers` say what the reports of a
//!   commit token come to (specs/OldRings).
//!
//! The auditor knows no packets: its crates don't depend on this one.
#![tactic(auto)]

mod commit;
mod commit_member;
mod commit_members;
mod decoding;
mod encoding;
mod fault;
mod join;
mod laws;
mod life;
mod listed;
mod lives;
mod message;
mod number;
mod old_rings;
mod packet;
mod payload;
mod processes;
mod ranges;
mod read_commit;
mod read_lists;
mod read_message;
mod reader;
mod requests;
mod sets;
mod short_list;
mod token;
mod token_seq;
mod too_many;
mod write_commit;
mod write_message;
mod writing;

pub use commit::{CommitToken, Round};
pub use commit_member::{CommitMember, Report};
pub use commit_members::CommitMembers;
pub use fault::PacketFault;
pub use join::Join;
pub use laws::{
    a_cut_packet_is_short, kind_5_tells_later_lives, kind_is_the_first_byte,
    memory_is_no_fault_of_bytes, no_packet_begins_another, range_is_known_at_once, read_is_spelled,
    short_has_nothing_wrong, spelled_is_read, trailing_is_behind_a_packet,
};
pub use life::Life;
pub use message::{Body, Message};
pub use number::Number;
pub use packet::Packet;
pub use payload::Payload;
pub use processes::Processes;
pub use requests::Requests;
pub use sets::is_among;
pub use short_list::ShortList;
pub use token::Token;
pub use token_seq::TokenSeq;
pub use too_many::TooMany;
pub use totem_names::{ListFault, Refused};
