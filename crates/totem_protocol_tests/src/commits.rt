//! Commit tokens by direct calls: the members' views are given in words, and what the members do is text.
use crate::values::{Case, part, proc, push, push_procs, push_truth, ring, set};
use std::alloc::{AllocError, Global};
use totem_member::{CommitOut, CommitView, MemberFault, Phase, first_commit, on_commit};
use totem_names::RingId;
use totem_packets::{CommitToken, Life, Number, Report, Round};

/// Returns the state of a member: the ring whose token it has filled, its phase, and whether it has started that ring.
fn stage(name: &str) -> (Option<RingId>, Phase, bool) {
    match name {
        "filled" => (Some(ring(8)), Phase::Commit, false),
        "recovers" => (Some(ring(8)), Phase::Recovery, false),
        "started" => (Some(ring(8)), Phase::Recovery, true),
        _ => (None, Phase::Commit, false),
    }
}

/// Returns the view of a word such as `2:1-3:8:filled`: member 2 of 1 to 3, which knows ring number 8 and has filled
/// the token of ring 8.1.
fn view(alloc: Global, word: &str) -> Result<CommitView, AllocError> {
    let (filled, phase, started) = stage(part(word, 3));
    Ok(CommitView {
        me: proc(part(word, 0).parse::<u16>().unwrap_or(0)),
        members: set(alloc, part(word, 1))?,
        seq: Number::of(part(word, 2).parse::<u32>().unwrap_or(0).max(1)),
        filled,
        phase,
        started,
    })
}

/// Returns the report of a member that comes from ring 4.1. After its view a word may give the aru (3 by
/// default), the obligation set, and the life (the first by default).
fn report(alloc: Global, word: &str) -> Result<Report, AllocError> {
    Ok(Report {
        life: Life::of(part(word, 6).parse::<u16>().unwrap_or(1).max(1)),
        ring: ring(4),
        aru: part(word, 4).parse::<u32>().unwrap_or(3),
        delivered: 2,
        obligation: set(alloc, part(word, 5))?,
    })
}

/// Makes the commit token as this member does.
fn make(alloc: Global, view: &CommitView, word: &str) -> Result<CommitToken, MemberFault> {
    let report = report(alloc, word)?;
    if !view.members.contains(view.me) {
        return Err(MemberFault::Stranger);
    }
    first_commit(alloc, view, report)
}

fn made(alloc: Global, word: &str) -> Result<CommitToken, MemberFault> {
    let view = view(alloc, word)?;
    // Without this the prover does not know a type of the view here.
    let _is_first = view.filled.is_none();
    make(alloc, &view, word)
}

fn take(
    alloc: Global,
    token: &CommitToken,
    view: &CommitView,
    word: &str,
) -> Result<CommitOut, MemberFault> {
    let report = report(alloc, word)?;
    on_commit(alloc, token, view, report)
}

/// Lets the member take the token.
fn taken(alloc: Global, token: &CommitToken, word: &str) -> Result<CommitOut, MemberFault> {
    let view = view(alloc, word)?;
    // Without this the prover does not know a type of the view here.
    let _is_first = view.filled.is_none();
    take(alloc, token, &view, word)
}

/// Adds the token's ring, its round, whether all members have reported, and which ones have.
fn push_token(alloc: Global, text: &mut String, token: &CommitToken) -> Result<(), AllocError> {
    push(text, format!(in alloc; "{} {:?}", token.ring, token.round))?;
    push_truth(text, token.members.is_filled())?;
    for member in token.members.as_slice() {
        if member.report.is_some() {
            push_procs(alloc, text, &[member.proc])?;
        }
    }
    Ok(())
}

/// Adds what a member did, and the round of the token that it sends.
fn push_out(alloc: Global, text: &mut String, out: &CommitOut) -> Result<(), AllocError> {
    push(
        text,
        format!(in alloc; "{:?} {:?}", out.act, out.token.round),
    )
}

/// Adds the same for a copy.
fn push_copy(alloc: Global, text: &mut String, out: &CommitOut) -> Result<(), AllocError> {
    let copy = out.try_clone(alloc)?;
    push_out(alloc, text, &copy)
}

/// Replaces the token by the one that was sent, and adds what the member did and what a copy of its answer says.
fn push_answer(
    alloc: Global,
    text: &mut String,
    token: &mut CommitToken,
    answer: Result<CommitOut, MemberFault>,
) -> Result<(), AllocError> {
    match answer {
        Ok(out) => {
            push_copy(alloc, text, &out)?;
            *token = out.token;
            Ok(())
        }
        Err(fault) => text.push_str(fault.name()),
    }
}

/// Lets the member of a word take the token.
fn push_step(
    alloc: Global,
    text: &mut String,
    token: &mut CommitToken,
    word: &str,
) -> Result<(), AllocError> {
    let answer = taken(alloc, token, word);
    push_answer(alloc, text, token, answer)
}

/// Returns what the words show of a token, each with `; ` after it.
fn steps(alloc: Global, token: &mut CommitToken, words: &str) -> Result<String, AllocError> {
    let mut text = String::new(alloc);
    for word in words.split_whitespace() {
        match word {
            "token" => push_token(alloc, &mut text, token)?,
            "second" => token.round = Round::Second,
            _ => push_step(alloc, &mut text, token, word)?,
        }
        text.push_str("; ")?;
    }
    Ok(text)
}

/// Lets the member of the first word make the token, and the others take it.
pub(crate) fn told(alloc: Global, words: &str) -> Result<String, AllocError> {
    let (first, rest) = words.split_once(' ').unwrap_or((words, ""));
    match made(alloc, first) {
        Ok(mut token) => steps(alloc, &mut token, rest),
        Err(fault) => String::from_str(alloc, fault.name()),
    }
}

/// 1, 2 and 3 know ring number 4, so ring 8.1 is formed.
pub(crate) const COMMITS: [Case; 17] = [
    // the least makes the token and reports, each other member fills it, and all have reported in the first round
    (
        "1:1-3:4 token 2:1-3:4 token 3:1-3:4 token",
        "8.1 First no 1; Filled First; 8.1 First no 1 2; Filled First; 8.1 First yes 1 2 3; ",
    ),
    // the least enters the ring in the first round
    (
        "1:1-3:4 2:1-3:4 3:1-3:4 1:1-3:8:filled",
        "Filled First; Filled First; Entered Second; ",
    ),
    // the others enter it in the second round, and the least starts it
    (
        "1:1-3:4 2:1-3:4 3:1-3:4 second 2:1-3:8:filled",
        "Filled First; Filled First; ; Entered Second; ",
    ),
    (
        "1:1-3:4 2:1-3:4 3:1-3:4 second 3:1-3:8:filled",
        "Filled First; Filled First; ; Entered Second; ",
    ),
    (
        "1:1-3:4 2:1-3:4 3:1-3:4 second 1:1-3:8:recovers",
        "Filled First; Filled First; ; Started Second; ",
    ),
    // another member waits for the second round
    (
        "1:1-3:4 2:1-3:4 3:1-3:4 2:1-3:8:filled",
        "Filled First; Filled First; Stale; ",
    ),
    // the least enters once and starts it once
    (
        "1:1-3:4 2:1-3:4 3:1-3:4 second 1:1-3:8:filled",
        "Filled First; Filled First; ; Stale; ",
    ),
    (
        "1:1-3:4 2:1-3:4 3:1-3:4 second 1:1-3:8:started",
        "Filled First; Filled First; ; Stale; ",
    ),
    // a token of other members, and a token of a ring that is not newer
    ("1:1-3:4 2:1-2:4", "Stale; "),
    ("1:1-3:4 2:1-3:8", "Stale; "),
    // 1 would report the aru 4, but has reported 3
    (
        "1:1-3:4 2:1-3:4 3:1-3:4 1:1-3:8:filled:4",
        "Filled First; Filled First; Stale; ",
    ),
    // 1 would report its second life, but has reported the first
    (
        "1:1-3:4 2:1-3:4 3:1-3:4 1:1-3:8:filled:::2",
        "Filled First; Filled First; Stale; ",
    ),
    // no ring number is left
    ("1:1-3:4294967291 token", "4294967295.1 First no 1; "),
    ("1:1-3:4294967292 token", "Range"),
    // 1 owes messages to 3 to 19, 2 to the rest: with themselves 32 and 33
    (
        "1:1-2:4:::3-19 2:1-2:4:::18-32 1:1-2:8:filled::3-19",
        "Filled First; Entered Second; ",
    ),
    (
        "1:1-2:4:::3-19 2:1-2:4:::18-33 1:1-2:8:filled::3-19",
        "Filled First; Range; ",
    ),
    // a report is missing
    ("1:1-3:4 2:1-3:4 token", "Filled First; 8.1 First no 1 2; "),
];
