//! The tables of small runs, with answers read off the text by docs/SPECIFICATIONS.md, "Following".
use crate::values::{is_told, run_of};
use std::alloc::{AllocError, Global};
use std::test::Fail;
use totem_names::{ConfId, Proc, ProcId, RingId};
use totem_stitch::Stitch;

/// Returns the first life of this process.
fn process(number: u16) -> Proc {
    Proc::first(ProcId::of(number.max(1)))
}

/// Returns the ring with this number and the representative 1.
fn ring(seq: u32) -> RingId {
    RingId {
        seq: seq.max(1),
        rep: ProcId::of(1),
    }
}

/// Returns the transitional configuration before the regular one of this ring, with 1 as its least member.
fn toward(next: RingId) -> ConfId {
    ConfId::Transitional {
        next,
        least: ProcId::of(1),
    }
}

/// Adds what follows a ring at a process, and what precedes the transitional configuration before it or its regular one; nothing if
/// there is none.
fn push_ring(
    text: &mut String,
    stitch: &Stitch,
    proc: Proc,
    ring: RingId,
) -> Result<(), AllocError> {
    let id = proc.id();
    if let Some(follower) = stitch.follow(proc, ring) {
        write!(text, "at {id} {follower} follows {ring}; ")?;
    }
    for conf in [toward(ring), ConfId::Regular(ring)] {
        if let Some(origin) = stitch.before(proc, conf) {
            write!(text, "at {id} {origin} is before {conf}; ")?;
        }
    }
    Ok(())
}

/// Returns all that the tables answer about the processes 1 to 4 and the rings 4.1, 8.1, 12.1 and 16.1.
fn answers(alloc: Global, stitch: &Stitch) -> Result<String, AllocError> {
    let mut text = String::new(alloc);
    for number in [1, 2, 3, 4] {
        for seq in [4, 8, 12, 16] {
            push_ring(&mut text, stitch, process(number), ring(seq))?;
        }
    }
    Ok(text)
}

fn told(alloc: Global, logs: &str) -> Result<String, Fail> {
    let run = run_of(alloc, 1, logs)?;
    Ok(answers(alloc, &Stitch::build(alloc, &run)?)?)
}

/// What a run shows, its logs, and what follows or precedes what in it.
struct Row {
    shows: &'static str,
    logs: &'static str,
    told: &'static str,
}

const ROWS: [Row; 3] = [
    Row {
        shows: "1 and 2 move on without 3, and move on once more",
        logs: "log 1\nconf r4.1 1 2 3\nconf t8.1/1 1 2\nconf r8.1 1 2\nconf t12.1/1 1 2\ndlv t12.1/1 4.1#1\nconf r12.1 1 2\nopen\n\
        log 2\nconf r4.1 1 2 3\nconf t8.1/1 1 2\nconf r8.1 1 2\nconf t12.1/1 1 2\ndlv t12.1/1 4.1#1\nconf r12.1 1 2\nopen\n\
        log 3\nconf r4.1 1 2 3\nsend r4.1 a 4.1#1\ndlv r4.1 4.1#1\nopen\n",
        told: "at 1 t8.1/1 follows 4.1; at 1 t12.1/1 follows 8.1; at 1 4.1 is before t8.1/1; at 1 8.1 is before t12.1/1; \
        at 2 t8.1/1 follows 4.1; at 2 t12.1/1 follows 8.1; at 2 4.1 is before t8.1/1; at 2 8.1 is before t12.1/1; ",
    },
    Row {
        shows: "a ring is left twice: the first change counts",
        logs: "log 1\nconf r4.1 1\nconf t8.1/1 1\nconf r8.1 1\nconf r4.1 1\nconf t12.1/1 1\nopen\n",
        told: "at 1 t8.1/1 follows 4.1; at 1 4.1 is before t8.1/1; ",
    },
    Row {
        shows: "a transitional configuration follows two rings: the first one counts",
        logs: "log 1\nconf r8.1 1\nconf t12.1/1 1\nconf r4.1 1\nconf t12.1/1 1\nopen\n",
        told: "at 1 t12.1/1 follows 4.1; at 1 t12.1/1 follows 8.1; at 1 8.1 is before t12.1/1; ",
    },
];

/// The tables of small runs give what follows a configuration and what precedes it, and nothing else.
#[test]
fn tables_tell_what_follows_and_what_comes_before(rt: HostRuntime) -> Result<(), Fail> {
    for row in &ROWS {
        let told = told(rt.alloc(), row.logs)?;
        is_told(&rt, &told, row.told, row.shows);
    }
    Ok(())
}
