//! The judge and its rules: they report what a good run leaves open, and don't say yes to a run that breaks a specification.
use crate::values::{is_told, run_of};
use std::alloc::{AllocError, Global};
use std::test::Fail;
use totem_cert::{Order, positions};
use totem_evs::{Pending, Run};
use totem_judge::observe;
use totem_judge_run::in_order;
use totem_names::{MsgId, Proc, ProcId, RingId};

/// Adds the answer of the judge and its rules on a run, with the certificate that the auditor makes of it.
fn push_judged(alloc: Global, text: &mut String, run: &Run) -> Result<(), AllocError> {
    let Order::Positions(certificate) = positions(alloc, run)? else {
        return text.push_str("no certificate");
    };
    match observe(alloc, run, &certificate)? {
        Some(view) if view.agrees() => write!(text, "{} pending", view.pending.len()),
        Some(_) => text.push_str("no"),
        None => text.push_str("passes A and B say no"),
    }
}

/// Returns their answer on a run of these logs.
fn told(alloc: Global, logs: &str) -> Result<String, Fail> {
    let mut text = String::new(alloc);
    push_judged(alloc, &mut text, &run_of(alloc, 1, logs)?)?;
    Ok(text)
}

/// What a run shows, its logs, and the answer.
struct Row {
    shows: &'static str,
    logs: &'static str,
    told: &'static str,
}

const RUNS: [Row; 10] = [
    Row {
        shows: "a message that both deliver",
        logs: "log 1\nconf r4.1 1 2\nsend r4.1 s 4.1#1\ndlv r4.1 4.1#1\nopen\n\
        log 2\nconf r4.1 1 2\ndlv r4.1 4.1#1\nopen\n",
        told: "0 pending",
    },
    Row {
        shows: "a partition: one goes on alone, and one may still come",
        logs: "log 1\nconf r4.1 1 2\nsend r4.1 a 4.1#1\ndlv r4.1 4.1#1\nconf t8.1/1 1\nconf r8.1 1\nopen\n\
        log 2\nconf r4.1 1 2\nopen\n",
        told: "1 pending",
    },
    Row {
        shows: "deliveries in a transitional configuration",
        logs: "log 1\nconf r4.1 1 2\nsend r4.1 s 4.1#1\nconf t8.1/1 1\ndlv t8.1/1 4.1#1\nconf r8.1 1\nopen\n\
        log 2\nconf r4.1 1 2\nfail r4.1\nfailed\n",
        told: "0 pending",
    },
    Row {
        shows: "1.3: the message was never sent",
        logs: "log 1\nconf r4.1 1\ndlv r4.1 4.1#1\nopen\n",
        told: "passes A and B say no",
    },
    Row {
        shows: "3: a process goes on without its own message",
        logs: "log 1\nconf r4.1 1\nsend r4.1 a 4.1#1\nconf t8.1/1 1\nconf r8.1 1\nopen\n",
        told: "no",
    },
    Row {
        shows: "4: two go on together, and one delivers",
        logs: "log 1\nconf r4.1 1 2\nsend r4.1 a 4.1#1\ndlv r4.1 4.1#1\nconf t8.1/1 1 2\nconf r8.1 1 2\nopen\n\
        log 2\nconf r4.1 1 2\nconf t8.1/1 1 2\nconf r8.1 1 2\nopen\n",
        told: "no",
    },
    Row {
        shows: "5: a second message without the first of its sender",
        logs: "log 1\nconf r4.1 1 2\nsend r4.1 a 4.1#1\nsend r4.1 a 4.1#2\ndlv r4.1 4.1#1\ndlv r4.1 4.1#2\nopen\n\
        log 2\nconf r4.1 1 2\ndlv r4.1 4.1#2\nopen\n",
        told: "no",
    },
    Row {
        shows: "6.3: a later message, and not the earlier one, whose sender is there",
        logs: "log 1\nconf r4.1 1 2 3\nsend r4.1 a 4.1#1\ndlv r4.1 4.1#1\ndlv r4.1 4.1#2\nopen\n\
        log 2\nconf r4.1 1 2 3\nsend r4.1 a 4.1#2\ndlv r4.1 4.1#1\ndlv r4.1 4.1#2\nopen\n\
        log 3\nconf r4.1 1 2 3\ndlv r4.1 4.1#2\nopen\n",
        told: "no",
    },
    Row {
        shows: "7.1: a safe message that a member goes on without",
        logs: "log 1\nconf r4.1 1 2\nsend r4.1 s 4.1#1\ndlv r4.1 4.1#1\nopen\n\
        log 2\nconf r4.1 1 2\nconf t8.2/2 2\nconf r8.2 2\nopen\n",
        told: "no",
    },
    Row {
        shows: "7.2: a safe message where a member never came",
        logs: "log 1\nconf r4.1 1 2\nsend r4.1 s 4.1#1\ndlv r4.1 4.1#1\nopen\n\
        log 2\nconf r8.2 2\nopen\n",
        told: "no",
    },
];

/// The rules say yes to good runs, with what they leave open, and no to the others.
#[test]
fn the_judge_says_yes_to_good_runs_alone(rt: HostRuntime) -> Result<(), Fail> {
    for row in &RUNS {
        let told = told(rt.alloc(), row.logs)?;
        is_told(&rt, &told, row.told, row.shows);
    }
    Ok(())
}

fn pending(proc: Proc, seq: u32) -> Pending {
    let ring = RingId {
        seq: seq.max(1),
        rep: ProcId::of(1),
    };
    Pending {
        proc,
        msg: MsgId { ring, number: 1 },
    }
}

/// `in_order` sorts a list and drops duplicates.
#[test]
fn a_list_is_put_in_order(rt: HostRuntime) -> Result<(), AllocError> {
    let first = Proc::first(ProcId::of(1));
    let second = Proc::first(ProcId::of(2));
    let mut list = Vec::new(rt.alloc());
    list.push(pending(second, 4))?;
    list.push(pending(first, 8))?;
    list.push(pending(first, 4))?;
    list.push(pending(first, 8))?;
    let list = in_order(list)?;
    assert_eq!(rt; list.len(), 3);
    assert!(rt; list.first() == Some(&pending(first, 4)));
    assert!(rt; list.last() == Some(&pending(second, 4)));
    Ok(())
}
