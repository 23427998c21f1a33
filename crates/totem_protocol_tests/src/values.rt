//! Values that several modules of tests need.
use bytes::Bytes;
use std::alloc::{AllocError, Global};
use std::fmt::Debug;
use totem_names::{Proc, ProcId, RingId, Service};
use totem_packets::{Body, Payload, Processes};
use totem_ring::RingState;

/// Steps and questions in words, and their expected results.
pub type Case = (&'static str, &'static str);

pub fn proc(number: u16) -> ProcId {
    ProcId::of(number.max(1))
}

/// Returns a ring with the representative 1.
pub fn ring(seq: u32) -> RingId {
    RingId {
        seq: seq.max(1),
        rep: proc(1),
    }
}

/// Adds the number of a text such as `7`, or the numbers of one such as `1-32`.
fn push_range(list: &mut Vec<u32>, text: &str) -> Result<(), AllocError> {
    let (low, high) = text.split_once('-').unwrap_or((text, text));
    let last = high.parse::<u32>().unwrap_or(0);
    for number in low.parse::<u32>().unwrap_or(0)..last.saturating_add(1) {
        list.push(number)?;
    }
    Ok(())
}

/// Returns the numbers of a text such as `1,5-7`; an empty text has none.
pub fn numbers(alloc: Global, text: &str) -> Result<Vec<u32>, AllocError> {
    let mut list = Vec::new(alloc);
    if !text.is_empty() {
        for range in text.split(',') {
            push_range(&mut list, range)?;
        }
    }
    Ok(list)
}

/// Returns the processes of such a text.
pub fn procs(alloc: Global, text: &str) -> Result<Vec<ProcId>, AllocError> {
    let mut list = Vec::new(alloc);
    for number in &numbers(alloc, text)? {
        list.push(proc(u16::try_from(*number).unwrap_or(0)))?;
    }
    Ok(list)
}

/// Returns the set of these processes, or the empty set if they do not ascend.
pub fn set(alloc: Global, text: &str) -> Result<Processes, AllocError> {
    Ok(Processes::new(&procs(alloc, text)?).unwrap_or(Processes::none()))
}

/// Returns the part of a word after this many `:`.
pub fn part(word: &str, at: usize) -> &str {
    word.split(':').nth(at).unwrap_or("")
}

/// Returns a client's body `x`.
pub fn say(service: Service) -> Body {
    Body::App {
        service,
        payload: Payload::of(Bytes::from_static(b"x")),
    }
}

/// Returns a member of a ring of these processes, or of a ring of itself if there are none. It holds nothing yet.
pub fn state(
    alloc: Global,
    me: ProcId,
    ring: RingId,
    members: &[ProcId],
) -> Result<RingState, AllocError> {
    if members.is_empty() {
        return RingState::new(alloc, me, ring, &[me]);
    }
    RingState::new(alloc, me, ring, members)
}

pub fn push_number(alloc: Global, text: &mut String, number: u64) -> Result<(), AllocError> {
    push(text, format!(in alloc; " {number}"))
}

pub fn push_procs(alloc: Global, text: &mut String, procs: &[ProcId]) -> Result<(), AllocError> {
    for proc in procs {
        push_number(alloc, text, u64::from(proc.number()))?;
    }
    Ok(())
}

/// Adds these processes, each with its life if it is not the first.
pub fn push_lives(alloc: Global, text: &mut String, procs: &[Proc]) -> Result<(), AllocError> {
    for proc in procs {
        let written = proc.written(proc.first_version());
        push(text, format!(in alloc; " {written}"))?;
    }
    Ok(())
}

pub fn push_truth(text: &mut String, holds: bool) -> Result<(), AllocError> {
    text.push_str(if holds { " yes" } else { " no" })
}

/// Returns whether both values are shown by the same text.
pub fn is_shown_alike<T: Debug>(alloc: Global, value: &T, other: &T) -> Result<bool, AllocError> {
    let shown = format!(in alloc; "{value:?}")?;
    Ok(shown == format!(in alloc; "{other:?}")?)
}

/// Adds a piece of text.
pub fn push(text: &mut String, piece: Result<String, AllocError>) -> Result<(), AllocError> {
    match piece {
        Ok(piece) => text.push_str(piece.as_str()),
        Err(fault) => Err(fault),
    }
}
