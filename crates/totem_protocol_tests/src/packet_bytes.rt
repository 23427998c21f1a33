//! Packets compared with their bytes, which are written out by hand.
use crate::packet_sizes;
use crate::values::{ring, set};
use bytes::Bytes;
use std::alloc::{AllocError, Global};
use std::test::Fail;
use totem_names::{ProcId, Service};
use totem_packets::{
    Body, CommitMember, CommitMembers, CommitToken, Join, Life, Message, Number, Packet,
    PacketFault, Payload, Report, Requests, Round, Token, TokenSeq,
};

/// The token that the third process of ring 4.1 passes on if no process holds message 1 yet.
const TOKEN: [u8; 30] = [
    2, 0, 0, 0, 4, 0, 1, 0, 0, 0, 0, 0, 0, 0, 4, 0, 0, 0, 2, 0, 0, 0, 0, 0, 3, 1, 0, 0, 0, 1,
];

/// Message 4.1#1 of process 1, agreed, with the payload `x`.
const MESSAGE: [u8; 17] = [1, 0, 0, 0, 4, 0, 1, 0, 0, 0, 1, 0, 1, 0, 0, 1, 120];

/// The same message, but safe and without bytes.
const SAFE: [u8; 16] = [1, 0, 0, 0, 4, 0, 1, 0, 0, 0, 1, 0, 1, 1, 0, 0];

/// Message 8.1#3 of process 2, which carries 4.1#5 of process 1: agreed, `hi`.
pub(crate) const OLD: [u8; 30] = [
    1, 0, 0, 0, 8, 0, 1, 0, 0, 0, 3, 0, 2, 2, 0, 0, 0, 4, 0, 1, 0, 0, 0, 5, 0, 1, 0, 2, 104, 105,
];

/// The same message, but the carried one is safe.
const OLD_SAFE: [u8; 30] = [
    1, 0, 0, 0, 8, 0, 1, 0, 0, 0, 3, 0, 2, 3, 0, 0, 0, 4, 0, 1, 0, 0, 0, 5, 0, 1, 0, 2, 104, 105,
];

/// The mark of process 2, 8.1#4.
const MARK: [u8; 14] = [1, 0, 0, 0, 8, 0, 1, 0, 0, 0, 4, 0, 2, 4];

/// The Join of process 1, which knows 2 and 3, of which 3 failed, and ring number 8.
const JOIN: [u8; 17] = [3, 0, 1, 0, 0, 0, 8, 3, 0, 1, 0, 2, 0, 3, 1, 0, 3];

/// The commit token of ring 8.1 with 1, which reports ring 4.1, and 2, which has not reported yet.
const COMMIT: [u8; 34] = [
    4, 0, 0, 0, 8, 0, 1, 1, 2, 0, 1, 1, 0, 0, 0, 4, 0, 1, 0, 0, 0, 5, 0, 0, 0, 4, 2, 0, 1, 0, 3, 0,
    2, 0,
];

/// The commit token of ring 8.1 with 1 alone, which reports ring 4.1 in its first life.
const COMMIT_OF_ONE: [u8; 27] = [
    4, 0, 0, 0, 8, 0, 1, 1, 1, 0, 1, 1, 0, 0, 0, 4, 0, 1, 0, 0, 0, 0, 0, 0, 0, 0, 0,
];

/// The same commit token, but 1 reports in its second life.
const COMMIT_OF_LIVES: [u8; 29] = [
    5, 0, 0, 0, 8, 0, 1, 1, 1, 0, 1, 1, 0, 2, 0, 0, 0, 4, 0, 1, 0, 0, 0, 0, 0, 0, 0, 0, 0,
];

/// The names of packets, which `packet` makes, with their bytes. A packet with another name is read from its bytes.
const PACKETS: [(&str, &[u8]); 19] = [
    ("token", &TOKEN),
    ("agreed message", &MESSAGE),
    ("safe message", &SAFE),
    ("agreed old message", &OLD),
    ("safe old message", &OLD_SAFE),
    ("mark", &MARK),
    ("join", &JOIN),
    ("commit token", &COMMIT),
    ("commit token of life 1", &COMMIT_OF_ONE),
    ("commit token of life 2", &COMMIT_OF_LIVES),
    // 4.1#1 of 2, safe, `x`
    (
        "message that was read",
        &[1, 0, 0, 0, 4, 0, 1, 0, 0, 0, 1, 0, 2, 1, 0, 1, 120],
    ),
    // all members hold the messages up to 2, and 3 is requested
    (
        "token that was read",
        &[
            2, 0, 0, 0, 4, 0, 1, 0, 0, 0, 0, 0, 0, 0, 1, 0, 0, 0, 3, 0, 0, 0, 2, 0, 0, 1, 0, 0, 0,
            3,
        ],
    ),
    // 1 would form a ring with 2, which failed; it knows ring number 4
    (
        "join that was read",
        &[3, 0, 1, 0, 0, 0, 4, 2, 0, 1, 0, 2, 1, 0, 2],
    ),
    // ring 4.1 of 2, in the second round; it reports ring 4.1, holds up to 3, delivered up to 2, and owes messages to 1 and 2
    (
        "commit token that was read",
        &[
            4, 0, 0, 0, 4, 0, 1, 2, 1, 0, 2, 1, 0, 0, 0, 4, 0, 1, 0, 0, 0, 3, 0, 0, 0, 2, 2, 0, 1,
            0, 2,
        ],
    ),
    // ring 8.1 of 1 in its first life, of 2, which has not reported yet, and of 3 in its last life
    (
        "commit token of lives that was read",
        &[
            5, 0, 0, 0, 8, 0, 1, 1, 3, 0, 1, 1, 0, 1, 0, 0, 0, 4, 0, 1, 0, 0, 0, 5, 0, 0, 0, 4, 0,
            0, 2, 0, 0, 3, 1, 255, 255, 0, 0, 0, 4, 0, 3, 0, 0, 0, 3, 0, 0, 0, 2, 1, 0, 1,
        ],
    ),
    // the largest packets have their bytes in `packet_sizes`
    ("largest token", &[]),
    ("largest message", &[]),
    ("largest commit token", &[]),
    ("largest join", &[]),
];

fn token(alloc: Global) -> Result<Packet, Fail> {
    let mut numbers = Vec::new(alloc);
    numbers.push(Number::of(1))?;
    Ok(Packet::Token(Token {
        ring: ring(4),
        token_seq: TokenSeq::of(4),
        seq: 2,
        aru: 0,
        aru_id: ProcId::new(3),
        rtr: Requests::new(numbers)?,
    }))
}

fn app(service: Service, bytes: &'static [u8]) -> Result<Packet, Fail> {
    Ok(Packet::Message(Message {
        ring: ring(4),
        number: Number::of(1),
        sender: ProcId::of(1),
        body: Body::App {
            service,
            payload: Payload::new(Bytes::from_static(bytes))?,
        },
    }))
}

/// Returns a message that carries 4.1#5 of process 1 with this payload.
pub(crate) fn old(service: Service, payload: Payload) -> Packet {
    Packet::Message(Message {
        ring: ring(8),
        number: Number::of(3),
        sender: ProcId::of(2),
        body: Body::Old {
            ring: ring(4),
            number: Number::of(5),
            sender: ProcId::of(1),
            service,
            payload,
        },
    })
}

fn old_hi(service: Service) -> Result<Packet, Fail> {
    Ok(old(service, Payload::new(Bytes::from_static(b"hi"))?))
}

fn mark() -> Packet {
    Packet::Message(Message {
        ring: ring(8),
        number: Number::of(4),
        sender: ProcId::of(2),
        body: Body::Mark,
    })
}

fn join(alloc: Global) -> Result<Packet, Fail> {
    Ok(Packet::Join(Join {
        sender: ProcId::of(1),
        seq: Number::of(8),
        processes: set(alloc, "1-3")?,
        failed: set(alloc, "3")?,
    }))
}

/// Returns process 1 as a member that reports ring 4.1.
fn reporting(alloc: Global) -> Result<CommitMember, Fail> {
    Ok(CommitMember {
        proc: ProcId::of(1),
        report: Some(Report {
            life: Life::first(),
            ring: ring(4),
            aru: 5,
            delivered: 4,
            obligation: set(alloc, "1,3")?,
        }),
    })
}

fn commit(alloc: Global) -> Result<Packet, Fail> {
    let mut list = Vec::new(alloc);
    list.push(reporting(alloc)?)?;
    list.push(CommitMember {
        proc: ProcId::of(2),
        report: None,
    })?;
    Ok(Packet::Commit(CommitToken {
        ring: ring(8),
        round: Round::First,
        members: CommitMembers::new(list)?,
    }))
}

/// Returns a commit token whose one member reports, in this life, that it comes from ring 4.1 with no message.
fn commit_of_life(alloc: Global, life: u16) -> Result<Packet, Fail> {
    let mut list = Vec::new(alloc);
    list.push(CommitMember {
        proc: ProcId::of(1),
        report: Some(Report {
            life: Life::of(life.max(1)),
            ring: ring(4),
            aru: 0,
            delivered: 0,
            obligation: set(alloc, "")?,
        }),
    })?;
    Ok(Packet::Commit(CommitToken {
        ring: ring(8),
        round: Round::First,
        members: CommitMembers::new(list)?,
    }))
}

/// Returns the packet with this name, or the one that is read from the bytes if there is no such name.
fn packet(alloc: Global, name: &str, bytes: &[u8]) -> Result<Packet, Fail> {
    match name {
        "token" => token(alloc),
        "agreed message" => app(Service::Agreed, b"x"),
        "safe message" => app(Service::Safe, b""),
        "agreed old message" => old_hi(Service::Agreed),
        "safe old message" => old_hi(Service::Safe),
        "mark" => Ok(mark()),
        "join" => join(alloc),
        "commit token" => commit(alloc),
        "commit token of life 1" => commit_of_life(alloc, 1),
        "commit token of life 2" => commit_of_life(alloc, 2),
        _ => Ok(Packet::decode(alloc, bytes)?),
    }
}

/// Returns why these bytes are not a packet.
fn fault_of(alloc: Global, bytes: &[u8]) -> Option<PacketFault> {
    Packet::decode(alloc, bytes).err()
}

/// Returns whether each proper prefix of the bytes is Short.
fn is_short_before(alloc: Global, bytes: &[u8]) -> bool {
    for end in 0..bytes.len() {
        if fault_of(alloc, &bytes[..end]) != Some(PacketFault::Short) {
            return false;
        }
    }
    true
}

/// Returns whether the bytes with one more byte are Trailing.
fn is_trailing_behind(alloc: Global, bytes: &[u8]) -> Result<bool, AllocError> {
    let mut more = bytes.to_vec(alloc)?;
    more.push(0)?;
    Ok(fault_of(alloc, &more) == Some(PacketFault::Trailing))
}

fn is_encoded(alloc: Global, packet: &Packet, bytes: &[u8]) -> Result<bool, AllocError> {
    Ok(packet.encode(alloc)?.as_slice() == bytes)
}

fn is_decoded(alloc: Global, packet: &Packet, bytes: &[u8]) -> bool {
    match Packet::decode(alloc, bytes) {
        Ok(read) => packet.is(&read),
        Err(_) => false,
    }
}

fn is_message_copied(message: &Message) -> Result<bool, AllocError> {
    let body = message.body.try_clone()?;
    Ok(message.body.is(&body) && message.is(&message.try_clone()?))
}

/// Returns whether the copy of what the packet carries, and of each of its parts, is equal to it.
fn is_part_copied(alloc: Global, packet: &Packet) -> Result<bool, AllocError> {
    match packet {
        Packet::Message(message) => is_message_copied(message),
        Packet::Token(token) => Ok(token.is(&token.try_clone(alloc)?)),
        Packet::Join(join) => Ok(join.is(join)),
        Packet::Commit(token) => Ok(token.is(&token.try_clone(alloc)?)),
    }
}

/// What is reported of a packet and its bytes if everything holds.
const ALL_HOLDS: &str =
    "encoded true, decoded true, copied true, in parts true, short true, trailing true";

/// Returns whether the packet has these bytes, is read from them, and is equal to its copy, as are its parts; whether
/// each proper prefix of the bytes is Short, and whether the bytes with one more byte are Trailing.
pub(crate) fn told_of_bytes(alloc: Global, packet: &Packet, bytes: &[u8]) -> Result<String, Fail> {
    let is_encoded = is_encoded(alloc, packet, bytes)?;
    let is_decoded = is_decoded(alloc, packet, bytes);
    let is_copied = packet.is(&packet.try_clone(alloc)?);
    let in_parts = is_part_copied(alloc, packet)?;
    let is_short = is_short_before(alloc, bytes);
    let is_trailing = is_trailing_behind(alloc, bytes)?;
    let told = format!(in alloc;
        "encoded {is_encoded}, decoded {is_decoded}, copied {is_copied}, in parts {in_parts}, short {is_short}, trailing {is_trailing}"
    )?;
    Ok(told)
}

/// Returns the same for the packet with this name.
fn told(alloc: Global, name: &str, bytes: &[u8]) -> Result<String, Fail> {
    if bytes.is_empty() {
        return packet_sizes::told(alloc, name);
    }
    let packet = packet(alloc, name, bytes)?;
    told_of_bytes(alloc, &packet, bytes)
}

/// Packets are encoded to the bytes that are written out here, and decoded from them.
#[test]
fn packets_have_their_bytes(rt: HostRuntime) -> Result<(), Fail> {
    for (name, bytes) in &PACKETS {
        let told = told(rt.alloc(), name, bytes)?;
        assert_eq!(rt; told.as_str(), ALL_HOLDS, "the {name}");
    }
    Ok(())
}

/// Bytes that are not a packet, the fault, and the fault without the last byte.
const NO_PACKETS: [(&[u8], &str); 33] = [
    // first bytes of no kind
    (&[0], "Kind Short"),
    (&[0, 0, 0], "Kind Kind"),
    (&[6], "Kind Short"),
    (&[6, 0, 0], "Kind Kind"),
    (&[255], "Kind Short"),
    (&[255, 0, 0], "Kind Kind"),
    // a token that requests 65 numbers and has one of them
    (
        &[
            2, 0, 0, 0, 4, 0, 1, 0, 0, 0, 0, 0, 0, 0, 4, 0, 0, 0, 2, 0, 0, 0, 0, 0, 3, 65, 0, 0, 0,
            1,
        ],
        "Range Range",
    ),
    // wrong values at the end: of a message the ring's number, its representative, the number, the sender, the kind, the length
    (&[1, 0, 0, 0, 0], "Range Short"),
    (&[1, 0, 0, 0, 4, 0, 0], "Range Short"),
    (&[1, 0, 0, 0, 4, 0, 1, 0, 0, 0, 0], "Range Short"),
    (&[1, 0, 0, 0, 4, 0, 1, 0, 0, 0, 1, 0, 0], "Range Short"),
    (&[1, 0, 0, 0, 4, 0, 1, 0, 0, 0, 1, 0, 1, 5], "Range Short"),
    (
        &[1, 0, 0, 0, 4, 0, 1, 0, 0, 0, 1, 0, 1, 0, 4, 1],
        "Range Short",
    ),
    // a token: its count of passes, 65 numbers, a number 0, a number that does not ascend
    (
        &[2, 0, 0, 0, 4, 0, 1, 0, 0, 0, 0, 0, 0, 0, 0],
        "Range Short",
    ),
    (
        &[
            2, 0, 0, 0, 4, 0, 1, 0, 0, 0, 0, 0, 0, 0, 4, 0, 0, 0, 2, 0, 0, 0, 0, 0, 3, 65,
        ],
        "Range Short",
    ),
    (
        &[
            2, 0, 0, 0, 4, 0, 1, 0, 0, 0, 0, 0, 0, 0, 4, 0, 0, 0, 2, 0, 0, 0, 0, 0, 0, 1, 0, 0, 0,
            0,
        ],
        "Range Short",
    ),
    (
        &[
            2, 0, 0, 0, 4, 0, 1, 0, 0, 0, 0, 0, 0, 0, 4, 0, 0, 0, 2, 0, 0, 0, 0, 0, 0, 2, 0, 0, 0,
            2, 0, 0, 0, 2,
        ],
        "Range Short",
    ),
    // a join: its number, 33 processes, processes that do not ascend
    (&[3, 0, 1, 0, 0, 0, 0], "Range Short"),
    (&[3, 0, 1, 0, 0, 0, 8, 33], "Range Short"),
    (&[3, 0, 1, 0, 0, 0, 8, 2, 0, 2, 0, 1], "Range Short"),
    // a commit token: rounds 0 and 3, no member, 33 members, a byte before the report
    (&[4, 0, 0, 0, 8, 0, 1, 0], "Range Short"),
    (&[4, 0, 0, 0, 8, 0, 1, 3], "Range Short"),
    (&[4, 0, 0, 0, 8, 0, 1, 2, 0], "Range Short"),
    (&[4, 0, 0, 0, 8, 0, 1, 2, 33], "Range Short"),
    (&[4, 0, 0, 0, 8, 0, 1, 2, 2, 0, 1, 2], "Range Short"),
    // its second member is not above the first
    (&[4, 0, 0, 0, 8, 0, 1, 2, 2, 0, 1, 0, 0, 1], "Range Short"),
    // the first byte of a commit token with lives, alone
    (&[5], "Short Short"),
    // a life of 0
    (&[5, 0, 0, 0, 8, 0, 1, 1, 1, 0, 1, 1, 0, 0], "Range Short"),
    // no life is above the first: this is known at the last byte of the last field, whatever follows
    (
        &[
            5, 0, 0, 0, 8, 0, 1, 1, 1, 0, 1, 1, 0, 1, 0, 0, 0, 4, 0, 1, 0, 0, 0, 0, 0, 0, 0, 0, 0,
        ],
        "Range Short",
    ),
    (
        &[
            5, 0, 0, 0, 8, 0, 1, 1, 1, 0, 1, 1, 0, 1, 0, 0, 0, 4, 0, 1, 0, 0, 0, 0, 0, 0, 0, 0, 0,
            0,
        ],
        "Range Range",
    ),
    // the last field is the last process of the obligation set, and without a report the byte that says so
    (
        &[
            5, 0, 0, 0, 8, 0, 1, 1, 1, 0, 1, 1, 0, 1, 0, 0, 0, 4, 0, 1, 0, 0, 0, 0, 0, 0, 0, 0, 1,
            0, 1,
        ],
        "Range Short",
    ),
    (&[5, 0, 0, 0, 8, 0, 1, 1, 1, 0, 1, 0], "Range Short"),
    (
        &[5, 0, 0, 0, 8, 0, 1, 1, 2, 0, 1, 0, 0, 2, 0],
        "Range Short",
    ),
];

fn fault_name(alloc: Global, bytes: &[u8]) -> &'static str {
    match Packet::decode(alloc, bytes) {
        Ok(_) => "none",
        Err(fault) => fault.name(),
    }
}

fn fault_names(alloc: Global, bytes: &[u8]) -> Result<String, AllocError> {
    let front = match bytes.split_last() {
        None => bytes,
        Some((_, front)) => front,
    };
    format!(in alloc; "{} {}", fault_name(alloc, bytes), fault_name(alloc, front))
}

/// A wrong value is refused as Range at the byte at which it is known, and the bytes before it are Short.
#[test]
fn wrong_values_are_known_at_once(rt: HostRuntime) -> Result<(), Fail> {
    for (bytes, wanted) in &NO_PACKETS {
        let names = fault_names(rt.alloc(), bytes)?;
        assert_eq!(rt; names.as_str(), *wanted, "the bytes {bytes:?}");
    }
    Ok(())
}
