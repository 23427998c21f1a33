//! The largest packets, and their bytes.
use crate::packet_bytes::{OLD, old, told_of_bytes};
use crate::values::{proc, ring, set};
use bytes::Bytes;
use std::alloc::{AllocError, Global};
use std::test::Fail;
use totem_names::{ProcId, RingId, Service};
use totem_packets::{
    CommitMember, CommitMembers, CommitToken, Join, Life, Number, Packet, Payload, Report,
    Requests, Round, Token, TokenSeq,
};

/// Returns a token that requests the last 64 numbers.
fn largest_token(alloc: Global) -> Result<Packet, Fail> {
    let mut numbers = Vec::new(alloc);
    for low in 192..256u32 {
        numbers.push(Number::of(4_294_967_040 + low))?;
    }
    Ok(Packet::Token(Token {
        ring: RingId {
            seq: 4_294_967_295,
            rep: ProcId::of(65_535),
        },
        token_seq: TokenSeq::of(18_446_744_073_709_551_615),
        seq: 4_294_967_295,
        aru: 4_294_967_295,
        aru_id: ProcId::new(65_535),
        rtr: Requests::new(numbers)?,
    }))
}

fn largest_token_bytes(alloc: Global) -> Result<Vec<u8>, AllocError> {
    let mut bytes = [
        2, 255, 255, 255, 255, 255, 255, 255, 255, 255, 255, 255, 255, 255, 255, 255, 255, 255,
        255, 255, 255, 255, 255, 255, 255, 64,
    ]
    .to_vec(alloc)?;
    for low in 192..256u32 {
        bytes.extend_from_slice(&[255, 255, 255, low as u8])?;
    }
    Ok(bytes)
}

/// Returns a carried message of 1,024 bytes.
fn largest_message(alloc: Global) -> Result<Packet, Fail> {
    let text = vec![in alloc; 7; 1_024]?;
    let payload = Payload::new(Bytes::copy_from_slice(alloc, &text)?)?;
    Ok(old(Service::Agreed, payload))
}

fn largest_message_bytes(alloc: Global) -> Result<Vec<u8>, AllocError> {
    let mut bytes = OLD[..26].to_vec(alloc)?;
    bytes.extend_from_slice(&[4, 0])?;
    bytes.extend_from_slice(&[7; 1_024])?;
    Ok(bytes)
}

/// Appends the count of the processes 1 to 32, and then their numbers.
fn push_all_processes(bytes: &mut Vec<u8>) -> Result<(), AllocError> {
    bytes.extend_from_slice(&[32])?;
    for process in 1..33u8 {
        bytes.extend_from_slice(&[0, process])?;
    }
    Ok(())
}

/// Returns a member that reports ring 4.1 in its last life, where it delivered the greatest number.
fn largest_member(alloc: Global, number: u16) -> Result<CommitMember, Fail> {
    Ok(CommitMember {
        proc: proc(number),
        report: Some(Report {
            life: Life::of(65_535),
            ring: ring(4),
            aru: 0,
            delivered: 4_294_967_295,
            obligation: set(alloc, "1-32")?,
        }),
    })
}

fn largest_commit_token(alloc: Global) -> Result<Packet, Fail> {
    let mut list = Vec::new(alloc);
    for number in 1..33u16 {
        let member = largest_member(alloc, number)?;
        // Without this the prover does not know the type of a report here.
        let _has_reported = member.report.is_some();
        list.push(member)?;
    }
    Ok(Packet::Commit(CommitToken {
        ring: ring(8),
        round: Round::Second,
        members: CommitMembers::new(list)?,
    }))
}

fn largest_commit_token_bytes(alloc: Global) -> Result<Vec<u8>, AllocError> {
    let mut bytes = [5, 0, 0, 0, 8, 0, 1, 2, 32].to_vec(alloc)?;
    for number in 1..33u8 {
        bytes.extend_from_slice(&[
            0, number, 1, 255, 255, 0, 0, 0, 4, 0, 1, 0, 0, 0, 0, 255, 255, 255, 255,
        ])?;
        push_all_processes(&mut bytes)?;
    }
    Ok(bytes)
}

fn largest_join(alloc: Global) -> Result<Packet, Fail> {
    Ok(Packet::Join(Join {
        sender: ProcId::of(65_535),
        seq: Number::of(4_294_967_295),
        processes: set(alloc, "1-32")?,
        failed: set(alloc, "1-32")?,
    }))
}

fn largest_join_bytes(alloc: Global) -> Result<Vec<u8>, AllocError> {
    let mut bytes = [3, 255, 255, 255, 255, 255, 255].to_vec(alloc)?;
    push_all_processes(&mut bytes)?;
    push_all_processes(&mut bytes)?;
    Ok(bytes)
}

/// Returns the packet with this name.
fn largest(alloc: Global, name: &str) -> Result<Packet, Fail> {
    match name {
        "largest token" => largest_token(alloc),
        "largest message" => largest_message(alloc),
        "largest commit token" => largest_commit_token(alloc),
        _ => largest_join(alloc),
    }
}

/// Returns the bytes of the packet with this name.
fn largest_bytes(alloc: Global, name: &str) -> Result<Vec<u8>, AllocError> {
    match name {
        "largest token" => largest_token_bytes(alloc),
        "largest message" => largest_message_bytes(alloc),
        "largest commit token" => largest_commit_token_bytes(alloc),
        _ => largest_join_bytes(alloc),
    }
}

/// Returns what is reported of the packet with this name and its bytes.
pub(crate) fn told(alloc: Global, name: &str) -> Result<String, Fail> {
    let bytes = largest_bytes(alloc, name)?;
    let packet = largest(alloc, name)?;
    told_of_bytes(alloc, &packet, &bytes)
}
