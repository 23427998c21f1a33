//! The rules of a whole run: each says yes to a good run and no to one that breaks it.
use crate::values::{is_told, run_of};
use std::alloc::{AllocError, Global};
use std::test::Fail;
use totem_cert::{Order, positions};
use totem_evs::Run;
use totem_judge_run::{end_together, first_misplaced, is_orderly, sends_are_once, waiting};

/// Adds whether a run that has a certificate is orderly, and the number of waiting processes if it is.
fn push_waiting(alloc: Global, text: &mut String, run: &Run) -> Result<(), AllocError> {
    let Order::Positions(_) = positions(alloc, run)? else {
        return text.push_str("no certificate");
    };
    if !is_orderly(alloc, run)? {
        return text.push_str("disorderly");
    }
    let waiting = waiting(alloc, run)?;
    write!(text, "orderly, {} wait", waiting.len())
}

/// Adds the rules that say no.
fn push_broken(alloc: Global, text: &mut String, run: &Run) -> Result<(), AllocError> {
    let logs = run.logs.as_slice();
    if !sends_are_once(alloc, logs)? {
        text.push_str("1.4 ")?;
    }
    if !end_together(alloc, run)? {
        text.push_str("2.1 ")?;
    }
    for log in logs {
        if first_misplaced(log.entries.as_slice()).is_some() {
            text.push_str("2.2 ")?;
        }
    }
    push_waiting(alloc, text, run)
}

/// Returns what the rules say about a run of these logs.
fn told(alloc: Global, logs: &str) -> Result<String, Fail> {
    let mut text = String::new(alloc);
    push_broken(alloc, &mut text, &run_of(alloc, 3, logs)?)?;
    Ok(text)
}

/// The rule that a row shows, the logs of a run, and what the rules say.
struct Row {
    rule: &'static str,
    logs: &'static str,
    told: &'static str,
}

const RUNS: [Row; 10] = [
    Row {
        rule: "a process that is left behind waits",
        logs: "log 1:1\nconf r4.1 1:1 2:1\nsend r4.1 a 4.1#1\ndlv r4.1 4.1#1\nconf t8.1/1 1:1\nconf r8.1 1:1\nopen\n\
        log 2:1\nconf r4.1 1:1 2:1\ndlv r4.1 4.1#1\nopen\n",
        told: "orderly, 1 wait",
    },
    Row {
        rule: "a message is sent twice",
        logs: "log 1:1\nconf r4.1 1:1\nsend r4.1 a 4.1#1\nsend r4.1 a 4.1#1\nopen\n",
        told: "1.4 disorderly",
    },
    Row {
        rule: "a message is sent in a transitional configuration",
        logs: "log 1:1\nconf r4.1 1:1\nconf t8.1/1 1:1\nsend t8.1/1 a 4.1#1\nopen\n",
        told: "1.4 disorderly",
    },
    Row {
        rule: "a quiet log ends without a member",
        logs: "log 1:1\nconf r4.1 1:1 2:1\nquiet\n\
        log 2:1\nconf r4.1 1:1 2:1\nfail r4.1\nfailed\n",
        told: "2.1 orderly, 1 wait",
    },
    Row {
        rule: "a delivery out of place",
        logs: "log 1:1\nconf r4.1 1:1\ndlv r8.1 4.1#1\nopen\n",
        told: "2.2 disorderly",
    },
    Row {
        rule: "two lists of members",
        logs: "log 1:1\nconf r4.1 1:1\nopen\nlog 2:1\nconf r4.1 1:1 2:1\nopen\n",
        told: "disorderly",
    },
    Row {
        rule: "a change by another than its members",
        logs: "log 1:1\nconf r4.1 2:1\nopen\nlog 2:1\nconf r4.1 2:1\nopen\n",
        told: "disorderly",
    },
    Row {
        rule: "two regular configurations in a row",
        logs: "log 1:1\nconf r4.1 1:1\nconf r8.1 1:1\nopen\n",
        told: "disorderly",
    },
    Row {
        rule: "one transitional configuration after two regular ones",
        logs: "log 1:1\nconf r4.1 1:1 2:1\nconf t8.1/1 1:1 2:1\nopen\n\
        log 2:1\nconf r4.2 1:1 2:1\nconf t8.1/1 1:1 2:1\nopen\n",
        told: "disorderly",
    },
    Row {
        rule: "two changes of one log to one configuration",
        logs: "log 1:1\nconf r4.1 1:1\nconf t8.1/1 1:1\nconf r8.1 1:1\nconf t4.1/1 1:1\nconf r4.1 1:1\nopen\n",
        told: "no certificate",
    },
];

/// The rules of a whole run accept orderly runs, and the broken rule refuses each other run.
#[test]
fn rules_say_which_runs_are_orderly(rt: HostRuntime) -> Result<(), Fail> {
    for row in &RUNS {
        let told = told(rt.alloc(), row.logs)?;
        is_told(&rt, &told, row.told, row.rule);
    }
    Ok(())
}
