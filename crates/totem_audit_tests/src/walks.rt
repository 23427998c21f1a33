//! Walks between two processes, with what docs/SPECIFICATIONS.md, "5 Causal delivery", says about them.
ghost use Rattle.std.specs.Prelude.{IfOk};
ghost use Rattle.std.specs.Bool.{OnTrue};
ghost use Rattle.totem_evs.specs.Answers.{MeetsPasses};

use crate::values::{is_told, run_of};
use std::alloc::{AllocError, Global};
use std::test::Fail;
use totem_audit::{Stitch, early, walk};
use totem_evs::Run;
use totem_names::{Proc, ProcId, RingId};
use totem_walk::{causality_is_of_pairs, entries_of};

/// The logs of a run: these lines, or those of a run in which 1 sends this many messages and 1 and 2 deliver them.
enum Logs {
    Lines(&'static str),
    Messages(u32),
}

/// A walk on ring 4.1 from a sender to a receiver, how many entries it may read, and its result.
struct Row {
    about: &'static str,
    logs: Logs,
    sender: u16,
    receiver: u16,
    most: u64,
    told: &'static str,
}

fn push_messages(text: &mut String, count: u32) -> Result<(), AllocError> {
    text.push_str("log 1\nconf r4.1 1 2\n")?;
    for number in 1..=count {
        write!(text, "send r4.1 a 4.1#{number}\ndlv r4.1 4.1#{number}\n")?;
    }
    text.push_str("open\nlog 2\nconf r4.1 1 2\n")?;
    for number in 1..=count {
        write!(text, "dlv r4.1 4.1#{number}\n")?;
    }
    text.push_str("open\n")
}

/// Returns the text of the logs of a run.
fn text_of(alloc: Global, logs: &Logs) -> Result<String, AllocError> {
    let mut text = String::new(alloc);
    match logs {
        Logs::Lines(lines) => text.push_str(lines)?,
        Logs::Messages(count) => push_messages(&mut text, *count)?,
    }
    Ok(text)
}

/// Returns whether the run has no fault in the first three passes.
fn has_passed(alloc: Global, run: &Run) -> Result<bool, AllocError>
    ensures { IfOk result (λ passed. OnTrue passed (MeetsPasses run.now.logs)) }
{
    Ok(early(alloc, run)?.is_empty())
}

/// Adds the result of the walk, and if it read more entries than it may, their number.
fn push_walk(alloc: Global, text: &mut String, run: &Run, row: &Row) -> Result<(), AllocError> {
    if !has_passed(alloc, run)? {
        return text.push_str("faults of the first passes");
    }
    let stitch = Stitch::build(alloc, run)?;
    let ring = RingId {
        seq: 4,
        rep: ProcId::of(1),
    };
    let sender = Proc::first(ProcId::of(row.sender.max(1)));
    let receiver = Proc::first(ProcId::of(row.receiver.max(1)));
    let _ = entries_of(run, sender);
    let _ = entries_of(run, receiver);
    let mut looks = 0;
    let kept = walk(alloc, run, &stitch, ring, sender, receiver, &mut looks)?;
    write!(text, "{kept}")?;
    if looks > row.most {
        write!(text, " after {looks} looks")?;
    }
    Ok(())
}

/// Returns what the walk reports of the run.
fn told(alloc: Global, row: &Row) -> Result<String, Fail> {
    let run = run_of(alloc, 1, &text_of(alloc, &row.logs)?)?;
    let mut text = String::new(alloc);
    push_walk(alloc, &mut text, &run, row)?;
    Ok(text)
}

/// 2 delivers a message and sends another, and 3 delivers only the second.
const CAUSE_NOT_DELIVERED: &str =
    "log 1\nconf r4.1 1 2 3\nsend r4.1 a 4.1#1\ndlv r4.1 4.1#1\nopen\n\
    log 2\nconf r4.1 1 2 3\ndlv r4.1 4.1#1\nsend r4.1 a 4.1#2\nopen\n\
    log 3\nconf r4.1 1 2 3\ndlv r4.1 4.1#2\nopen\n";

/// 1 sends two messages, which 2 delivers in the other order.
const OTHER_ORDER: &str = "log 1\nconf r4.1 1 2\nsend r4.1 a 4.1#1\nsend r4.1 a 4.1#2\nopen\n\
    log 2\nconf r4.1 1 2\ndlv r4.1 4.1#2\ndlv r4.1 4.1#1\nopen\n";

/// 2 delivers the second message of 1 in the configuration that follows, and never the first one.
const FIRST_NEVER_DELIVERED: &str =
    "log 1\nconf r4.1 1 2\nsend r4.1 a 4.1#1\nsend r4.1 a 4.1#2\nconf t8.1/1 1 2\nopen\n\
    log 2\nconf r4.1 1 2\nconf t8.1/1 1 2\ndlv t8.1/1 4.1#2\nopen\n";

/// 2 delivers what 1 sends on another ring, and not what it sends on this one.
const OTHER_RING: &str =
    "log 1\nconf r4.1 1 2\nsend r4.1 a 4.1#1\nconf t8.1/1 1 2\nconf r8.1 1 2\nsend r8.1 a 8.1#1\nopen\n\
    log 2\nconf r4.1 1 2\nconf t8.1/1 1 2\nconf r8.1 1 2\ndlv r8.1 8.1#1\nopen\n";

const ROWS: [Row; 9] = [
    Row {
        about: "twenty thousand messages in one order",
        logs: Logs::Messages(20_000),
        sender: 1,
        receiver: 2,
        most: 240_008,
        told: "true",
    },
    Row {
        about: "from 2, which delivered what 1 sent, to 3, which did not",
        logs: Logs::Lines(CAUSE_NOT_DELIVERED),
        sender: 2,
        receiver: 3,
        most: 20,
        told: "false",
    },
    Row {
        about: "from 1, where 3 delivers nothing",
        logs: Logs::Lines(CAUSE_NOT_DELIVERED),
        sender: 1,
        receiver: 3,
        most: 20,
        told: "true",
    },
    Row {
        about: "from 2 to 1, which does not deliver what 2 sent",
        logs: Logs::Lines(CAUSE_NOT_DELIVERED),
        sender: 2,
        receiver: 1,
        most: 24,
        told: "true",
    },
    Row {
        about: "two messages in the other order",
        logs: Logs::Lines(OTHER_ORDER),
        sender: 1,
        receiver: 2,
        most: 24,
        told: "false",
    },
    Row {
        about: "the second message in what follows, without the first",
        logs: Logs::Lines(FIRST_NEVER_DELIVERED),
        sender: 1,
        receiver: 2,
        most: 28,
        told: "false",
    },
    Row {
        about: "what is delivered on another ring",
        logs: Logs::Lines(OTHER_RING),
        sender: 1,
        receiver: 2,
        most: 40,
        told: "true",
    },
    Row {
        about: "from a process without a log",
        logs: Logs::Lines(OTHER_ORDER),
        sender: 9,
        receiver: 2,
        most: 12,
        told: "true",
    },
    Row {
        about: "to a process without a log",
        logs: Logs::Lines(OTHER_ORDER),
        sender: 1,
        receiver: 9,
        most: 12,
        told: "true",
    },
];

/// A walk says whether causal delivery holds between two processes, and reads no more entries than it may.
#[test]
fn walks_tell_whether_order_is_kept(rt: HostRuntime) -> Result<(), Fail> {
    causality_is_of_pairs();
    for row in &ROWS {
        let told = told(rt.alloc(), row)?;
        is_told(&rt, &told, row.told, row.about);
    }
    Ok(())
}
