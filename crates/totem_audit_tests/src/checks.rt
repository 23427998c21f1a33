//! Runs and certificates from their texts, and what the checker reports of them.
use crate::values::{is_told, push_fault, run_of};
use std::alloc::{AllocError, Global};
use std::test::Fail;
use totem_cert::{Certificate, read_cert};
use totem_check::{Accepted, CertificateFault, CheckFault, certified, check};
use totem_evs::Run;
use totem_names::FromRead;

/// Adds what certification reports, and the check's fault for it.
fn push_certified(
    text: &mut String,
    answer: Result<(), CertificateFault>,
) -> Result<(), AllocError> {
    match answer {
        Ok(()) => text.push_str("certified; "),
        Err(fault) => {
            let stands_for = CheckFault::from(fault);
            write!(
                text,
                "{fault:?} {} {}; ",
                stands_for.name(),
                stands_for.number()
            )
        }
    }
}

/// Adds what is pending and who waits.
fn push_accepted(text: &mut String, accepted: &Accepted) -> Result<(), AllocError> {
    text.push_str("yes")?;
    for pending in &accepted.pending {
        write!(text, ", pending at {}", pending.proc.id())?;
    }
    for waiting in &accepted.waiting {
        write!(text, ", waiting for {}", waiting.other.id())?;
    }
    Ok(())
}

/// Adds a fault's name and number, and for a broken run the specification that it breaks.
fn push_check_fault(text: &mut String, fault: &CheckFault) -> Result<(), AllocError> {
    write!(text, "{} {}", fault.name(), fault.number())?;
    match fault {
        CheckFault::Broken(broken) => {
            text.push_str(": ")?;
            push_fault(text, broken)
        }
        _ => Ok(()),
    }
}

/// Adds what a copy of the check's answer says.
fn push_checked(
    alloc: Global,
    text: &mut String,
    answer: &Result<Accepted, CheckFault>,
) -> Result<(), AllocError> {
    match answer {
        Ok(accepted) => push_accepted(text, &accepted.try_clone(alloc)?),
        Err(fault) => push_check_fault(text, &fault.try_clone(alloc)?),
    }
}

fn push_both(
    alloc: Global,
    text: &mut String,
    run: &Run,
    certificate: &Certificate,
) -> Result<(), AllocError> {
    push_certified(text, certified(alloc, run, certificate)?)?;
    push_checked(alloc, text, &check(alloc, run, certificate))
}

/// Returns the certificate of these lines.
fn certificate_of(alloc: Global, lines: &str) -> Result<Certificate, Fail> {
    let text = format!(in alloc; "totem-cert 1\n{lines}end\n")?;
    Ok(read_cert(alloc, &mut FromRead::new(text.as_bytes()))?)
}

/// Returns what certification and the check report of the run of these logs with a certificate of these lines.
fn told(alloc: Global, logs: &str, lines: &str) -> Result<String, Fail> {
    let run = run_of(alloc, 1, logs)?;
    let mut text = String::new(alloc);
    push_both(alloc, &mut text, &run, &certificate_of(alloc, lines)?)?;
    Ok(text)
}

const DELIVERED: &str = "log 1\nconf r4.1 1 2\nsend r4.1 a 4.1#1\ndlv r4.1 4.1#1\nopen\n\
    log 2\nconf r4.1 1 2\ndlv r4.1 4.1#1\nopen\n";

const TWO_SENDS: &str = "log 1\nconf r4.1 1 2\nsend r4.1 a 4.1#1\nopen\n\
    log 2\nconf r4.1 1 2\nsend r4.1 a 4.1#2\nopen\n";

const LEFT_OPEN: &str = "log 1\nconf r4.1 1 2\nsend r4.1 a 4.1#1\nfail r4.1\nfailed\n\
    log 2\nconf r4.1 1 2\nopen\n";

const NO_TURNS: &str = "log 1\nconf r4.1 1 2\nconf r8.1 1 2\nopen\n\
    log 2\nconf r4.1 1 2\nopen\n";

/// The logs of a run, the lines of a certificate, and what is reported of them.
struct Row {
    about: &'static str,
    logs: &'static str,
    lines: &'static str,
    told: &'static str,
}

const ROWS: [Row; 10] = [
    Row {
        about: "a certificate",
        logs: DELIVERED,
        lines: "pos 1 1 2 3\npos 2 1 3\n",
        told: "certified; yes",
    },
    Row {
        about: "something is left open",
        logs: LEFT_OPEN,
        lines: "pos 1 1 2 3\npos 2 1\n",
        told: "certified; yes, pending at 2, waiting for 1",
    },
    Row {
        about: "a line with a number too few",
        logs: DELIVERED,
        lines: "pos 1 1 2\npos 2 1 3\n",
        told: "Count Count 1; Count 1",
    },
    Row {
        about: "two numbers alike in a line",
        logs: DELIVERED,
        lines: "pos 1 1 2 2\npos 2 1 2\n",
        told: "NotRising NotRising 2; NotRising 2",
    },
    Row {
        about: "a delivery with the number of its send",
        logs: DELIVERED,
        lines: "pos 1 1 2 3\npos 2 1 2\n",
        told: "SendNotBefore SendNotBefore 3; SendNotBefore 3",
    },
    Row {
        about: "twin changes with two numbers",
        logs: DELIVERED,
        lines: "pos 1 2 3 4\npos 2 1 4\n",
        told: "TwinsDiffer TwinsDiffer 4; TwinsDiffer 4",
    },
    Row {
        about: "two sends with one number",
        logs: TWO_SENDS,
        lines: "pos 1 1 2\npos 2 1 2\n",
        told: "SharedPosition SharedPosition 5; SharedPosition 5",
    },
    Row {
        about: "a late send before twins that differ",
        logs: DELIVERED,
        lines: "pos 1 1 4 5\npos 2 2 3\n",
        told: "SendNotBefore SendNotBefore 3; SendNotBefore 3",
    },
    Row {
        about: "twins that differ before numbers that are shared",
        logs: TWO_SENDS,
        lines: "pos 1 1 3\npos 2 2 3\n",
        told: "TwinsDiffer TwinsDiffer 4; TwinsDiffer 4",
    },
    Row {
        about: "a regular configuration after a regular one",
        logs: NO_TURNS,
        lines: "pos 1 1 2\npos 2 1\n",
        told: "certified; Broken 6: 2.4 1@1 1@2",
    },
];

/// The checker accepts or refuses small runs with their certificates as worked out by hand.
#[test]
fn runs_are_checked_with_certificates(rt: HostRuntime) -> Result<(), Fail> {
    for row in &ROWS {
        let told = told(rt.alloc(), row.logs, row.lines)?;
        is_told(&rt, &told, row.told, row.about);
    }
    Ok(())
}
