//! Rings, messages and commit tokens for the tests, and entries as lines of text.
use crate::values::{part, proc, procs, push, push_lives, say, set, state};
use std::alloc::{AllocError, Global};
use std::test::Fail;
use totem_evs::Entry;
use totem_names::{ProcId, RingId, Service};
use totem_packets::{
    Body, CommitMember, CommitMembers, CommitToken, Life, Message, Number, Report, Round,
};
use totem_recover::{Recovery, is_ready};
use totem_ring::RingState;

/// Returns the ring of a text such as `4.1`.
pub fn ring_of(text: &str) -> RingId {
    let (seq, rep) = text.split_once('.').unwrap_or((text, ""));
    RingId {
        seq: seq.parse::<u32>().unwrap_or(0).max(1),
        rep: proc(rep.parse::<u16>().unwrap_or(0)),
    }
}

pub fn message(ring: RingId, number: u32, sender: u16, body: Body) -> Message {
    Message {
        ring,
        number: Number::of(number.max(1)),
        sender: proc(sender),
        body,
    }
}

fn body(name: &str) -> Body {
    match name {
        "mark" => Body::Mark,
        "safe" => say(Service::Safe),
        _ => say(Service::Agreed),
    }
}

/// Takes the message of a word such as `3:2:safe`: number 3, of process 2, safe.
pub fn hear(alloc: Global, state: &mut RingState, word: &str) -> Result<(), Fail> {
    let number = part(word, 0).parse::<u32>().unwrap_or(0);
    let sender = part(word, 1).parse::<u16>().unwrap_or(0);
    let message = message(state.ring(), number, sender, body(part(word, 2)));
    state.on_message(alloc, &message)?;
    Ok(())
}

/// Takes clients' messages, one for each word.
fn hear_all(alloc: Global, state: &mut RingState, words: &str) -> Result<(), Fail> {
    for word in words.split_whitespace() {
        hear(alloc, state, word)?;
    }
    Ok(())
}

/// Returns the member of a word such as `1:4.1:6:2:3` with its report: it comes from ring 4.1, has the aru 6, has
/// delivered up to 2 and owes messages to 3. After that a word may give the life (the first by default).
fn member(alloc: Global, word: &str) -> Result<CommitMember, AllocError> {
    Ok(CommitMember {
        proc: proc(part(word, 0).parse::<u16>().unwrap_or(0)),
        report: Some(Report {
            life: Life::of(part(word, 5).parse::<u16>().unwrap_or(1).max(1)),
            ring: ring_of(part(word, 1)),
            aru: part(word, 2).parse::<u32>().unwrap_or(0),
            delivered: part(word, 3).parse::<u32>().unwrap_or(0),
            obligation: set(alloc, part(word, 4))?,
        }),
    })
}

fn members(alloc: Global, words: &str) -> Result<Vec<CommitMember>, AllocError> {
    let mut list = Vec::new(alloc);
    for word in words.split_whitespace() {
        let member = member(alloc, word)?;
        // Without this the prover does not know the type of a report here.
        let _has_reported = member.report.is_some();
        list.push(member)?;
    }
    Ok(list)
}

/// Returns the commit token of this ring with these members, all of which have reported.
pub fn token(alloc: Global, ring: RingId, words: &str) -> Result<CommitToken, Fail> {
    Ok(CommitToken {
        ring,
        round: Round::Second,
        members: CommitMembers::new(members(alloc, words)?)?,
    })
}

/// Returns a ring of these processes as `me` sees it, holding nothing yet.
pub fn ring_with(
    alloc: Global,
    me: ProcId,
    ring: RingId,
    members: &str,
) -> Result<RingState, AllocError> {
    let procs = procs(alloc, members)?;
    state(alloc, me, ring, &procs)
}

/// Returns such a ring after these messages were taken.
pub fn heard_ring(
    alloc: Global,
    me: ProcId,
    ring: RingId,
    members: &str,
    messages: &str,
) -> Result<RingState, Fail> {
    let mut state = ring_with(alloc, me, ring, members)?;
    hear_all(alloc, &mut state, messages)?;
    Ok(state)
}

/// Begins the recovery of `me` with the token of this ring and these members.
pub fn begun_with(
    alloc: Global,
    me: ProcId,
    prev: &RingState,
    ring: RingId,
    members: &str,
) -> Result<Recovery, Fail> {
    let token = token(alloc, ring, members)?;
    begun(alloc, me, prev, &token)
}

fn begun(
    alloc: Global,
    me: ProcId,
    prev: &RingState,
    token: &CommitToken,
) -> Result<Recovery, Fail> {
    if !is_ready(me, prev, token) {
        return Err("it may not begin".into());
    }
    Ok(Recovery::new(alloc, me, prev, token)?)
}

fn push_line(alloc: Global, text: &mut String, entry: &Entry) -> Result<(), AllocError> {
    match entry {
        Entry::Conf(conf, members) => {
            push(text, format!(in alloc; "conf {conf}"))?;
            push_lives(alloc, text, members.as_slice())
        }
        Entry::Deliver(message, conf) => push(text, format!(in alloc; "dlv {conf} {message}")),
        Entry::Send(message, conf, service) => {
            push(text, format!(in alloc; "send {conf} {service} {message}"))
        }
        Entry::Fail(conf) => push(text, format!(in alloc; "fail {conf}")),
    }
}

/// Adds the entries as lines of a run's text, with `; ` for a line's end.
fn push_lines(alloc: Global, text: &mut String, entries: &[Entry]) -> Result<(), AllocError> {
    for entry in entries {
        push_line(alloc, text, entry)?;
        text.push_str("; ")?;
    }
    Ok(())
}

/// Adds what is written when a ring is left.
pub fn push_left(
    alloc: Global,
    text: &mut String,
    recovery: &Recovery,
    prev: &RingState,
) -> Result<(), AllocError> {
    let entries = recovery.finish(alloc, prev)?;
    push_lines(alloc, text, &entries)
}
