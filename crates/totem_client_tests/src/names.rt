//! Names, packets and their laws: totem_ids.
use std::alloc::{AllocError, Global};
pub use totem_ids::{
    Body, Buffered, CommitMember, CommitMembers, CommitToken, ConfId, Failed, FromRead, Fused,
    Join, Life, ListFault, Message, MsgId, Number, Packet, PacketFault, Payload, Pieces, Place,
    Proc, ProcId, Processes, ReadError, Refused, Report, Requests, RingId, Round, Service, Sink,
    Source, ToWrite, Token, TokenSeq, TooMany, Version, WrittenProc, a_cut_packet_is_short,
    conf_fits, conf_order, conf_spelling, is_among, kind_5_tells_later_lives,
    kind_is_the_first_byte, life_fits, life_order, life_spelling, memory_is_no_fault_of_bytes,
    message_fits, message_order, message_spelling, no_packet_begins_another, number_spelling,
    place_fits, place_order, place_spelling, process_fits, process_spelling,
    range_is_known_at_once, read_conf, read_is_spelled, read_message, read_place, read_process,
    read_ring, read_service, ring_fits, ring_order, ring_spelling, service_spelling,
    short_has_nothing_wrong, spelled_is_read, trailing_is_behind_a_packet,
};

pub fn in_order(left: &RingId, right: &RingId) -> bool {
    left.is_below(right)
}

pub fn rank(process: Proc) -> u32 {
    process.rank()
}

pub fn copy(alloc: Global, packet: &Packet) -> Result<Packet, AllocError> {
    packet.try_clone(alloc)
}

pub fn copies(
    alloc: Global,
    message: &Message,
    token: &Token,
    commit: &CommitToken,
) -> Result<(), AllocError> {
    let _ = message.try_clone()?;
    let _ = message.body.try_clone()?;
    let _ = token.try_clone(alloc)?;
    let _ = commit.try_clone(alloc)?;
    Ok(())
}

pub fn union(left: &Processes, right: &Processes) -> Result<Processes, TooMany> {
    left.union(right)
}

pub fn relation(left: &Processes, right: &Processes) -> (bool, bool) {
    (left.is_within(right), left.is(right))
}

pub fn place_of(processes: &Processes, proc: ProcId) -> (bool, bool, ProcId) {
    let is_there = is_among(processes.as_slice(), proc);
    (
        is_there,
        processes.is_least(proc),
        processes.next_after(proc),
    )
}

pub fn marks(members: &CommitMembers, old: &RingId) -> (u32, u32) {
    (members.least_aru(old), members.greatest_delivered(old))
}

pub fn together(members: &CommitMembers, old: &RingId, proc: ProcId) -> Option<Processes> {
    members
        .is_from(old, proc)
        .then_some(members.transitional_set(old))
}

pub fn owed(members: &CommitMembers, old: &RingId) -> Result<Processes, TooMany> {
    members.obligation_union(old)
}

pub fn lives(
    alloc: Global,
    members: &CommitMembers,
    old: &RingId,
) -> Result<Option<Vec<Proc>>, AllocError> {
    if !members.has_later_life() {
        return Ok(None);
    }
    Ok(Some(members.transitional_lives(alloc, old)?))
}

pub fn lists(members: CommitMembers, requests: Requests) -> (Vec<CommitMember>, Vec<Number>) {
    (members.into_vec(), requests.into_vec())
}

pub fn of_spellings() {
    number_spelling();
    process_spelling();
    ring_spelling();
    conf_spelling();
    message_spelling();
    place_spelling();
    service_spelling();
    life_spelling();
}

pub fn of_orders() {
    ring_order();
    conf_order();
    message_order();
    place_order();
    life_order();
}

pub fn of_ranges(version: Version, process: Proc, conf: &ConfId, message: &MsgId, place: &Place) {
    process_fits(process.id());
    ring_fits(&message.ring);
    conf_fits(conf);
    message_fits(message);
    life_fits(version, process);
    place_fits(version, place);
}

pub fn of_packets() {
    read_is_spelled();
    spelled_is_read();
    no_packet_begins_another();
    a_cut_packet_is_short();
    short_has_nothing_wrong();
    kind_is_the_first_byte();
    kind_5_tells_later_lives();
    range_is_known_at_once();
    trailing_is_behind_a_packet();
    memory_is_no_fault_of_bytes();
}
