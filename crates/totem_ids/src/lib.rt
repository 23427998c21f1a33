//! Names and packets, for callers: hands out all of totem_names and totem_packets, and has nothing of its own.
//!
//! What may be relied on is said there. The crates of the product use those two themselves, so that the auditor loads no packets.
#![tactic(auto)]

pub use totem_names::{
    Buffered, ConfId, Failed, FromRead, Fused, Keyed, ListFault, Listed, MsgId, Pieces, Place,
    Proc, ProcId, ReadError, Refused, RingId, Service, Sink, Source, TextFault, TextPlace, ToWrite,
    Version, WrittenProc, are_same, bounded, byte_in, conf_fits, conf_in, conf_order,
    conf_spelling, copied, life_fits, life_order, life_spelling, message_fits, message_in,
    message_order, message_spelling, next, number, number_spelling, number_to, number_within,
    place_fits, place_order, place_spelling, process_fits, process_spelling, read_conf,
    read_message, read_place, read_proc, read_process, read_process_to, read_ring, read_service,
    ring_fits, ring_order, ring_spelling, rising, rising_fault, service_in, service_spelling, word,
    word_in, write_message, write_number, write_process,
};
pub use totem_packets::{
    Body, CommitMember, CommitMembers, CommitToken, Join, Life, Message, Number, Packet,
    PacketFault, Payload, Processes, Report, Requests, Round, ShortList, Token, TokenSeq, TooMany,
    a_cut_packet_is_short, is_among, kind_5_tells_later_lives, kind_is_the_first_byte,
    memory_is_no_fault_of_bytes, no_packet_begins_another, range_is_known_at_once, read_is_spelled,
    short_has_nothing_wrong, spelled_is_read, trailing_is_behind_a_packet,
};
