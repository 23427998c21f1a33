//! Positions and closed lists of small runs, with the numbers and faults that docs/SPECIFICATIONS.md gives for them.
use crate::values::{is_told, push_lines, run_of};
use std::alloc::{AllocError, Global};
use std::test::Fail;
use totem_cert::{Order, positions};
use totem_evs::Run;

fn push_order(text: &mut String, order: &Order) -> Result<(), AllocError> {
    match order {
        Order::Positions(certificate) => push_lines(text, certificate.as_slice()),
        Order::Cycle(fault) => write!(text, "{fault}"),
    }
}

/// Returns a copy of the run's order.
fn copied_order(alloc: Global, run: &Run) -> Result<Order, AllocError> {
    positions(alloc, run)?.try_clone(alloc)
}

/// Returns the order of a run of these logs.
fn told(alloc: Global, logs: &str) -> Result<String, Fail> {
    let run = run_of(alloc, 1, logs)?;
    let mut text = String::new(alloc);
    push_order(&mut text, &copied_order(alloc, &run)?)?;
    Ok(text)
}

/// The rule that a row shows, the logs of a run, and the text of their order.
struct Row {
    rule: &'static str,
    logs: &'static str,
    order: &'static str,
}

const RUNS: [Row; 3] = [
    Row {
        rule: "a message is after its send",
        logs: "log 1\nconf r4.1 1 2\nsend r4.1 a 4.1#1\ndlv r4.1 4.1#1\nopen\n\
        log 2\nconf r4.1 1 2\ndlv r4.1 4.1#1\nopen\n",
        order: "pos 1 1 2 3;pos 2 1 3;",
    },
    Row {
        rule: "twin changes share a number",
        logs: "log 1\nconf r4.1 1 2 3\nsend r4.1 a 4.1#1\ndlv r4.1 4.1#1\nconf t8.1/1 1 2\nconf r8.1 1 2\nopen\n\
        log 2\nconf r4.1 1 2 3\ndlv r4.1 4.1#1\nconf t8.1/1 1 2\nconf r8.1 1 2\nopen\n\
        log 3\nconf r4.1 1 2 3\nsend r4.1 a 4.1#2\ndlv r4.1 4.1#2\nopen\n",
        order: "pos 1 1 2 3 4 5;pos 2 1 3 4 5;pos 3 1 6 7;",
    },
    Row {
        rule: "two changes of one log to one configuration",
        logs: "log 1\nconf r4.1 1\nconf r4.1 1\nopen\n",
        order: "fault 1.1 1@1 1@2",
    },
];

/// Small runs have the positions or closed lists that are worked out by hand.
#[test]
fn small_runs_have_their_positions_or_closed_lists(rt: HostRuntime) -> Result<(), Fail> {
    for row in &RUNS {
        let told = told(rt.alloc(), row.logs)?;
        is_told(&rt, &told, row.order, row.rule);
    }
    Ok(())
}
