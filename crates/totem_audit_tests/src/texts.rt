//! Runs and certificates that are read. `tests/program` has the texts that are refused.
use crate::values::{is_told, push_lines, push_log, run_of};
use std::alloc::{AllocError, Global};
use std::test::Fail;
use totem_cert::{Certificate, read_cert};
use totem_evs::{Ending, Run, read_end, read_run};
use totem_names::{FromRead, Source};

pub const RUN: &str = "totem-run 1\n\
    log 1\nconf r4.1 1 2\nsend r4.1 a 4.1#1\ndlv r4.1 4.1#1\nopen\n\
    log 2\nconf r4.1 1 2\ndlv r4.1 4.1#1\nopen\n\
    end\n";

pub const CERTIFICATE: &str = "totem-cert 1\npos 1 1 2 3\npos 2 1 3\nend\n";

/// Adds what follows a run.
pub fn push_end<S: Source>(text: &mut String, source: &mut S) -> Result<(), AllocError> {
    match read_end(source) {
        Ok(()) => text.push_str("end "),
        Err(fault) => write!(text, "{} ", fault.name()),
    }
}

/// Adds a run's logs, and twice what follows them.
fn push_run<S: Source>(text: &mut String, run: &Run, source: &mut S) -> Result<(), AllocError> {
    for log in run.logs.as_slice() {
        push_log(text, log)?;
    }
    push_end(text, source)?;
    push_end(text, source)
}

/// Returns the run that a source gives, and what follows it.
pub fn run_told<S: Source>(alloc: Global, source: &mut S) -> Result<String, Fail> {
    let run = read_run(alloc, source)?;
    let mut text = String::new(alloc);
    push_run(&mut text, &run, source)?;
    Ok(text)
}

/// Adds a certificate's lines, and the byte after them.
fn push_certificate<S: Source>(
    text: &mut String,
    certificate: &Certificate,
    source: &mut S,
) -> Result<(), AllocError> {
    push_lines(text, certificate.as_slice())?;
    match source.byte() {
        Ok(Some(byte)) => write!(text, " byte {byte}"),
        Ok(None) => text.push_str(" end"),
        Err(_) => text.push_str(" failed"),
    }
}

fn certificate_told<S: Source>(alloc: Global, source: &mut S) -> Result<String, Fail> {
    let certificate = read_cert(alloc, source)?;
    let mut text = String::new(alloc);
    push_certificate(&mut text, &certificate, source)?;
    Ok(text)
}

/// Returns what is read of a text.
fn read(alloc: Global, text: &str) -> Result<String, Fail> {
    let mut source = FromRead::new(text.as_bytes());
    if text.starts_with("totem-cert") {
        certificate_told(alloc, &mut source)
    } else {
        run_told(alloc, &mut source)
    }
}

/// Texts, and what is read of them: values and what follows them.
const TEXTS: [(&str, &str); 10] = [
    ("totem-run 1\nend\n", "end end "),
    ("totem-run 1\nend\nx", "End end "),
    // reading continues after a failure
    (
        "totem-run 1\nlog 1\nfail r4.1\nconf t8.1/1 1\nfail t8.1/1\nfailed\nend\n",
        "log 1: fail r4.1; conf t8.1/1 1; fail t8.1/1; failed. end end ",
    ),
    // version 2 writes lives, and version 3 quiet logs
    (
        "totem-run 2\nlog 1:1\nconf r4.1 1:1\nfail r4.1\nfailed\nlog 1:2\nconf r8.1 1:2\nopen\nend\n",
        "log 1: conf r4.1 1; fail r4.1; failed. log 1:2: conf r8.1 1:2; open. end end ",
    ),
    ("totem-run 3\nend\n", "end end "),
    (
        "totem-run 3\nlog 1:1\nconf r4.1 1:1\nquiet\nlog 2:1\nconf r4.2 2:1\nopen\nend\n",
        "log 1: conf r4.1 1; quiet. log 2: conf r4.2 2; open. end end ",
    ),
    (CERTIFICATE, "pos 1 1 2 3;pos 2 1 3; end"),
    (
        "totem-cert 2\npos 1:1 1\npos 1:2 2 3\nend\n",
        "pos 1 1;pos 1:2 2 3; end",
    ),
    ("totem-cert 1\nend\n", " end"),
    // what follows a certificate stays unread
    (
        "totem-cert 1\npos 1 1 2 3\npos 2 1 3\nend\nxy",
        "pos 1 1 2 3;pos 2 1 3; byte 120",
    ),
];

/// Texts of runs and certificates are read, up to their last line.
#[test]
fn texts_are_read(rt: HostRuntime) -> Result<(), Fail> {
    for (text, wanted) in &TEXTS {
        let told = read(rt.alloc(), text)?;
        is_told(&rt, &told, wanted, text);
    }
    Ok(())
}

/// Returns for each log of a run whether its entries may end in each way: as open, as failed, and as quiet.
fn endings_told(alloc: Global, run: &Run) -> Result<String, AllocError> {
    let mut text = String::new(alloc);
    for log in run.logs.as_slice() {
        for ending in [Ending::Standing, Ending::Failed, Ending::Quiet] {
            write!(text, "{} ", log.entries.may_end(ending))?;
        }
    }
    Ok(text)
}

/// Entries that end in a failure may end as failed alone, and others in both other ways.
#[test]
fn entries_tell_how_they_may_end(rt: HostRuntime) -> Result<(), Fail> {
    let logs = "log 1\nconf r4.1 1\nopen\nlog 2\nfail r4.2\nfailed\n";
    let told = endings_told(rt.alloc(), &run_of(rt.alloc(), 1, logs)?)?;
    is_told(&rt, &told, "true false true false true false ", "endings");
    Ok(())
}
