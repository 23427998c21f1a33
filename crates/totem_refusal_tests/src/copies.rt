//! Copies of runs, certificates and answers. Each copy that is refused is made again.
use std::alloc::{AllocError, Global};
use std::test::Fail;
use totem_audit::{Verdict, audit};
use totem_certificate::{CertFault, Certificate, read_cert};
use totem_check::{Accepted, CheckFault, check};
use totem_evs::{Entry, Fault, Log, Run, RunFault, read_run};
use totem_names::FromRead;

/// 1 and 2 move on to a ring of their own. 3 stays, has a message pending, and waits for both.
const PARTED: &str = "totem-run 1
log 1
conf r4.1 1 2 3
send r4.1 a 4.1#1
dlv r4.1 4.1#1
conf t8.1/1 1 2
conf r8.1 1 2
open
log 2
conf r4.1 1 2 3
dlv r4.1 4.1#1
conf t8.1/1 1 2
conf r8.1 1 2
open
log 3
conf r4.1 1 2 3
send r4.1 a 4.1#2
dlv r4.1 4.1#2
open
end
";

const ITS_CERTIFICATE: &str = "totem-cert 1
pos 1 1 2 3 4 5
pos 2 1 3 4 5
pos 3 1 6 7
end
";

/// 1 moves on without the message that it sent.
const BROKEN: &str = "totem-run 1
log 1
conf r4.1 1 2
send r4.1 a 4.1#1
conf t8.1/1 1
conf r8.1 1
open
log 2
conf r4.1 1 2
open
end
";

const ITS_ORDER: &str = "totem-cert 1
pos 1 1 2 3 4
pos 2 1
end
";

fn run_of(alloc: Global, text: &str) -> Result<Run, RunFault> {
    again!(read_run(alloc, &mut FromRead::new(text.as_bytes())))
}

fn certificate_of(alloc: Global, text: &str) -> Result<Certificate, CertFault> {
    again!(read_cert(alloc, &mut FromRead::new(text.as_bytes())))
}

fn audited(alloc: Global, run: &Run) -> Result<Verdict, AllocError> {
    again!(audit(alloc, run))
}

fn checked(alloc: Global, run: &Run, certificate: &Certificate) -> Result<Accepted, CheckFault> {
    match check(alloc, run, certificate) {
        Err(CheckFault::Memory) => check(alloc, run, certificate),
        answer => answer,
    }
}

fn copied_run(alloc: Global, run: &Run) -> Result<Run, AllocError> {
    again!(run.try_clone(alloc))
}

fn copied_log(alloc: Global, log: &Log) -> Result<Log, AllocError> {
    again!(log.try_clone(alloc))
}

fn copied_entry(alloc: Global, entry: &Entry) -> Result<Entry, AllocError> {
    again!(entry.try_clone(alloc))
}

fn copied_certificate(alloc: Global, whole: &Certificate) -> Result<Certificate, AllocError> {
    again!(whole.try_clone(alloc))
}

fn copied_verdict(alloc: Global, verdict: &Verdict) -> Result<Verdict, AllocError> {
    again!(verdict.try_clone(alloc))
}

fn copied_accepted(alloc: Global, accepted: &Accepted) -> Result<Accepted, AllocError> {
    again!(accepted.try_clone(alloc))
}

fn copied_fault(alloc: Global, fault: &CheckFault) -> Result<CheckFault, AllocError> {
    again!(fault.try_clone(alloc))
}

/// Returns whether the log and each of its entries is equal to its copy.
fn is_copied_log(alloc: Global, log: &Log) -> Result<bool, AllocError> {
    let mut is_copied = log.is(&copied_log(alloc, log)?);
    for entry in log.entries.as_slice() {
        is_copied = is_copied && entry.is(&copied_entry(alloc, entry)?);
    }
    Ok(is_copied)
}

/// Returns whether the run and each of its logs is equal to its copy.
fn is_copied_run(alloc: Global, run: &Run) -> Result<bool, AllocError> {
    let mut is_copied = run.is(&copied_run(alloc, run)?);
    for log in run.logs.as_slice() {
        is_copied = is_copied && is_copied_log(alloc, log)?;
    }
    Ok(is_copied)
}

fn are_faults(faults: &[Fault], others: &[Fault]) -> bool {
    faults.len() == others.len()
        && faults
            .iter()
            .zip(others)
            .all(|(fault, other)| fault.is(other))
}

fn is_verdict(verdict: &Verdict, other: &Verdict) -> bool {
    match (verdict, other) {
        (
            Verdict::Yes {
                certificate,
                pending,
                waiting,
            },
            Verdict::Yes {
                certificate: order,
                pending: open,
                waiting: others,
            },
        ) => {
            certificate.is(order)
                && pending.as_slice() == open.as_slice()
                && waiting.as_slice() == others.as_slice()
        }
        (Verdict::No { faults }, Verdict::No { faults: others }) => are_faults(faults, others),
        _ => false,
    }
}

fn is_copied_verdict(alloc: Global, text: &str) -> Result<bool, Fail> {
    let verdict = audited(alloc, &run_of(alloc, text)?)?;
    Ok(is_verdict(&verdict, &copied_verdict(alloc, &verdict)?))
}

fn is_copied_answer(
    alloc: Global,
    answer: &Result<Accepted, CheckFault>,
) -> Result<bool, AllocError> {
    match answer {
        Ok(accepted) => {
            let copy = copied_accepted(alloc, accepted)?;
            Ok(
                copy.pending.as_slice() == accepted.pending.as_slice()
                    && copy.waiting.as_slice() == accepted.waiting.as_slice(),
            )
        }
        Err(fault) => match (fault, &copied_fault(alloc, fault)?) {
            (CheckFault::Broken(broken), CheckFault::Broken(copy)) => Ok(broken.is(copy)),
            (fault, copy) => Ok(fault.number() == copy.number()),
        },
    }
}

/// Returns whether the checker's answer is equal to its copy, and whether the run was accepted.
fn check_copied(alloc: Global, run: &str, certificate: &str) -> Result<(bool, bool), Fail> {
    let run = run_of(alloc, run)?;
    let answer = checked(alloc, &run, &certificate_of(alloc, certificate)?);
    Ok((is_copied_answer(alloc, &answer)?, answer.is_ok()))
}

/// A run, its logs and their entries are equal to their copies.
#[test]
fn runs_logs_and_entries_are_copied(rt: HostRuntime) -> Result<(), Fail> {
    let is_copied = is_copied_run(rt.alloc(), &run_of(rt.alloc(), PARTED)?)?;
    assert!(rt; is_copied);
    Ok(())
}

/// A certificate is equal to its copy.
#[test]
fn a_certificate_is_copied(rt: HostRuntime) -> Result<(), Fail> {
    let certificate = certificate_of(rt.alloc(), ITS_CERTIFICATE)?;
    let copy = copied_certificate(rt.alloc(), &certificate)?;
    assert!(rt; copy.is(&certificate));
    Ok(())
}

/// Verdicts, a yes and a no, are equal to their copies.
#[test]
fn verdicts_are_copied(rt: HostRuntime) -> Result<(), Fail> {
    for text in [PARTED, BROKEN] {
        let is_copied = is_copied_verdict(rt.alloc(), text)?;
        assert!(rt; is_copied);
    }
    Ok(())
}

/// The checker's answers are equal to their copies.
#[test]
fn the_checkers_answers_are_copied(rt: HostRuntime) -> Result<(), Fail> {
    let accepted = check_copied(rt.alloc(), PARTED, ITS_CERTIFICATE)?;
    let broken = check_copied(rt.alloc(), BROKEN, ITS_ORDER)?;
    let uncertified = check_copied(rt.alloc(), BROKEN, ITS_CERTIFICATE)?;
    assert_eq!(rt;
        [accepted, broken, uncertified],
        [(true, true), (true, false), (true, false)]
    );
    Ok(())
}
