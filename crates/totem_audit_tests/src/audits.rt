//! The audit and the first passes over small runs, with the faults that docs/SPECIFICATIONS.md gives for them.
use crate::values::{is_told, push_faults, run_of};
use std::alloc::{AllocError, Global};
use std::test::Fail;
use totem_audit::{Verdict, audit, early};
use totem_evs::Run;
use totem_judge_run::{deliveries_are_once, sends_are_once};
use totem_pass_ab::pass_a_and_b;
use totem_table::{Changes, Row as Numbers, Table, numbers_tell_confs, numbers_tell_messages};

fn push_verdict(text: &mut String, verdict: &Verdict) -> Result<(), AllocError> {
    match verdict {
        Verdict::Yes { .. } => text.push_str("yes"),
        Verdict::No { faults } => {
            text.push_str("no")?;
            push_faults(text, faults)
        }
    }
}

/// Returns a copy of the run's verdict.
fn copied_verdict(alloc: Global, run: &Run) -> Result<Verdict, AllocError> {
    audit(alloc, run)?.try_clone(alloc)
}

fn push_audit(alloc: Global, text: &mut String, run: &Run) -> Result<(), AllocError> {
    push_verdict(text, &copied_verdict(alloc, run)?)
}

/// Adds the audit of the run's first log alone.
fn push_audit_of_first(alloc: Global, text: &mut String, run: Run) -> Result<(), AllocError> {
    let mut logs = run.into_logs();
    logs.truncate(1);
    match Run::of(logs) {
        Ok(run) => push_audit(alloc, text, &run),
        Err(refused) => write!(text, "{refused}"),
    }
}

fn push_passes(alloc: Global, text: &mut String, run: &Run) -> Result<(), AllocError> {
    push_faults(text, &pass_a_and_b(alloc, run)?)
}

/// Adds whether each message is sent once and delivered once in each log, and the numbers of the entries, log by log.
fn push_numbers(alloc: Global, text: &mut String, run: &Run) -> Result<(), AllocError> {
    let table = Table::build(alloc, run)?;
    numbers_tell_messages(run, &table);
    numbers_tell_confs(run, &table);
    let logs = run.logs.as_slice();
    let once = sends_are_once(alloc, logs)? && deliveries_are_once(alloc, logs)?;
    write!(text, "{once}")?;
    push_rows(text, &table.rows)
}

fn push_rows(text: &mut String, rows: &[Numbers]) -> Result<(), AllocError> {
    for row in rows {
        text.push_str(";")?;
        for number in row.as_slice() {
            write!(text, " {number}")?;
        }
    }
    Ok(())
}

/// What judges a run: the audit, the audit of its first log alone, the first two passes, the first three, the table of its numbers, or the
/// list of its changes.
enum Judge {
    Audit,
    AuditOfFirst,
    Passes,
    Early,
    Numbers,
    Changes,
}

fn push_judged(
    alloc: Global,
    text: &mut String,
    run: Run,
    judge: &Judge,
) -> Result<(), AllocError> {
    match judge {
        Judge::Audit => push_audit(alloc, text, &run),
        Judge::AuditOfFirst => push_audit_of_first(alloc, text, run),
        Judge::Passes => push_passes(alloc, text, &run),
        Judge::Early => push_faults(text, &early(alloc, &run)?),
        Judge::Numbers => push_numbers(alloc, text, &run),
        Judge::Changes => push_rows(text, &Changes::of(alloc, &run)?.rows),
    }
}

/// Returns what is reported of the run of these logs in this version.
fn told(alloc: Global, version: u8, logs: &str, judge: &Judge) -> Result<String, Fail> {
    let mut text = String::new(alloc);
    push_judged(alloc, &mut text, run_of(alloc, version, logs)?, judge)?;
    Ok(text)
}

/// The rule that a row shows, the logs of a run, and what is reported of it.
struct Row {
    rule: &'static str,
    logs: &'static str,
    judge: Judge,
    told: &'static str,
}

const RUNS: [Row; 13] = [
    Row {
        rule: "changes stand where the logs have them",
        logs: "log 1\nconf r4.1 1 2\nsend r4.1 a 4.1#1\nconf t8.1/1 1\nconf r8.1 1\nfail r8.1\nfailed\n\
        log 2\nconf r4.1 1 2\nopen\n",
        judge: Judge::Changes,
        told: "; 0 2 3; 0",
    },
    Row {
        rule: "the numbers of messages and configurations are in their order",
        logs: "log 1\nconf r4.1 1 2\nsend r4.1 a 4.1#2\nsend r4.1 a 4.1#1\ndlv r4.1 4.1#2\nopen\n\
        log 2\nconf r4.1 1 2\ndlv r4.1 4.1#1\ndlv r4.1 4.1#2\nfail r4.1\nfailed\n",
        judge: Judge::Numbers,
        told: "true; 0 1 0 1; 0 0 1 0",
    },
    Row {
        rule: "a message that is delivered twice is not delivered once",
        logs: "log 1\nconf r4.1 1\nsend r4.1 a 4.1#1\ndlv r4.1 4.1#1\ndlv r4.1 4.1#1\nopen\n",
        judge: Judge::Numbers,
        told: "false; 0 0 0 0",
    },
    Row {
        rule: "a message that is sent twice is not sent once",
        logs: "log 1\nconf r4.1 1\nsend r4.1 a 4.1#1\nsend r4.1 a 4.1#1\nopen\n",
        judge: Judge::Numbers,
        told: "false; 0 0 0",
    },
    Row {
        rule: "messages with numbers far apart",
        logs: "log 1\nconf r4.1 1\nsend r4.1 a 4.1#4000000000\nsend r4.1 a 4.1#1\ndlv r4.1 4.1#1\nfail r4.1\nfailed\n",
        judge: Judge::Numbers,
        told: "true; 0 1 0 0 0",
    },
    Row {
        rule: "a good run",
        logs: "log 1\nconf r4.1 1 2\nsend r4.1 a 4.1#1\nconf t8.1/1 1 2\ndlv t8.1/1 4.1#1\nconf r8.1 1 2\nfail r8.1\nfailed\n\
        log 2\nconf r4.1 1 2\nconf t8.1/1 1 2\ndlv t8.1/1 4.1#1\nopen\n",
        judge: Judge::Audit,
        told: "yes",
    },
    Row {
        rule: "a configuration without the process itself",
        logs: "log 1\nconf r4.1 2\nopen\n\
        log 2\nconf r4.1 2\nopen\n",
        judge: Judge::AuditOfFirst,
        told: "no; 2.3 1@1",
    },
    Row {
        rule: "the faults of a pass stand in order",
        logs: "log 1\nconf r4.1 2\nfail r4.1\nsend r4.1 a 4.1#1\nsend r4.1 a 4.1#1\nconf r8.1 1\nopen\n\
        log 2\nconf r4.1 2\nopen\n",
        judge: Judge::AuditOfFirst,
        told: "no; 1.4 1@3 1@4; 2.2 1@3; 2.3 1@1; 2.4 1@1 1@5",
    },
    Row {
        rule: "sent and delivered once",
        logs: "log 1\nconf r4.1 1\nsend r4.1 a 4.1#1\nconf t8.1/1 1\ndlv t8.1/1 4.1#1\nopen\n",
        judge: Judge::Passes,
        told: "",
    },
    Row {
        rule: "the first three passes stop at the first with a fault: pass A before pass B",
        logs: "log 1\nconf r4.1 1\nsend r4.1 a 4.1#1\nsend r4.1 a 4.1#1\ndlv r4.1 4.1#2\nopen\n",
        judge: Judge::Early,
        told: "; 1.4 1@2 1@3",
    },
    Row {
        rule: "pass B before pass C",
        logs: "log 1\nconf r4.1 1\ndlv r4.1 4.1#2\ndlv r4.1 4.1#1\nsend r4.1 a 4.1#1\nopen\n",
        judge: Judge::Early,
        told: "; 1.3 1@2",
    },
    Row {
        rule: "pass C is the last of the three",
        logs: "log 1\nconf r4.1 1\ndlv r4.1 4.1#1\nsend r4.1 a 4.1#1\nopen\n",
        judge: Judge::Early,
        told: "; 1.1 1@2 1@3",
    },
    Row {
        rule: "a fault of pass D is none of theirs",
        logs: "log 1\nconf r4.1 1 2\nsend r4.1 a 4.1#1\nconf t8.1/1 1\nconf r8.1 1\nopen\n\
        log 2\nconf r4.1 1 2\nopen\n",
        judge: Judge::Early,
        told: "",
    },
];

/// Small runs get the verdicts, faults and tables that are worked out by hand.
#[test]
fn small_runs_are_judged(rt: HostRuntime) -> Result<(), Fail> {
    for row in &RUNS {
        let told = told(rt.alloc(), 1, row.logs, &row.judge)?;
        is_told(&rt, &told, row.told, row.rule);
    }
    Ok(())
}

const QUIET_RUNS: [Row; 4] = [
    Row {
        rule: "all are quiet where all are",
        logs: "log 1:1\nconf r4.1 1:1 2:1\nsend r4.1 s 4.1#1\ndlv r4.1 4.1#1\nquiet\n\
        log 2:1\nconf r4.1 1:1 2:1\ndlv r4.1 4.1#1\nquiet\n",
        judge: Judge::Audit,
        told: "yes",
    },
    Row {
        rule: "a quiet log beside a member that has no log",
        logs: "log 1:1\nconf r4.1 1:1 2:1\nquiet\n\
        log 2:1\nconf r4.1 1:1 2:1\nquiet\n",
        judge: Judge::AuditOfFirst,
        told: "no; 2.1 1@1",
    },
    Row {
        rule: "2.1 is asked whatever 2.2 says, and listed before it",
        logs: "log 1:1\nconf r4.1 1:1\nfail r4.1\nconf t8.1/1 1:1\nquiet\n",
        judge: Judge::Passes,
        told: "; 2.1 1@3; 2.2 1@3",
    },
    Row {
        rule: "the members are those that the quiet log's own change names",
        logs: "log 1:1\nconf r4.1 1:1\nquiet\n\
        log 2:1\nconf r4.1 1:1 2:1\nfail r4.1\nfailed\n",
        judge: Judge::Passes,
        told: "; 2.3 1@1 2@1",
    },
];

/// Runs of version 3 with quiet logs get the verdicts and faults that are worked out by hand.
#[test]
fn runs_with_quiet_logs_are_judged(rt: HostRuntime) -> Result<(), Fail> {
    for row in &QUIET_RUNS {
        let told = told(rt.alloc(), 3, row.logs, &row.judge)?;
        is_told(&rt, &told, row.told, row.rule);
    }
    Ok(())
}
