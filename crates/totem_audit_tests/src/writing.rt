//! Runs and certificates that are written, and sinks that fail.
use crate::texts::CERTIFICATE;
use crate::values::is_told;
use std::alloc::{AllocError, Global};
use totem_cert::{Certificate, read_cert, write_cert};
use totem_evs::{Run, WriteFault, read_run, write_run};
use totem_names::{FromRead, Fused, ToWrite};

/// Returns how much of a text was written.
fn gone_out(answer: Result<(), WriteFault>, bytes: &[u8], text: &str) -> &'static str {
    match answer {
        Ok(()) if bytes == text.as_bytes() => "all",
        Ok(()) => "another text",
        Err(WriteFault::Memory) => "out of memory",
        Err(WriteFault::Write) if bytes.len() >= 65536 => "a piece",
        Err(WriteFault::Write) if bytes.is_empty() => "nothing",
        Err(WriteFault::Write) => "a part",
    }
}

/// Returns how much of this run is written to a sink that fails after this many calls.
fn run_gone_out(alloc: Global, run: &Run, calls: u64, text: &str) -> &'static str {
    let mut sink = Fused::new(ToWrite::new(Vec::new(alloc)), calls);
    let answer = write_run(alloc, run, &mut sink);
    gone_out(answer, &sink.into_inner().into_inner(), text)
}

/// Returns how much of this certificate is written to a sink that fails after this many calls.
fn certificate_gone_out(
    alloc: Global,
    certificate: &Certificate,
    calls: u64,
    text: &str,
) -> &'static str {
    let mut sink = Fused::new(ToWrite::new(Vec::new(alloc)), calls);
    let answer = write_cert(alloc, certificate, &mut sink);
    gone_out(answer, &sink.into_inner().into_inner(), text)
}

/// Returns how much of the run or the certificate in this text is written.
fn written(alloc: Global, text: &str, calls: u64) -> &'static str {
    let mut source = FromRead::new(text.as_bytes());
    if text.starts_with("totem-cert") {
        match read_cert(alloc, &mut source) {
            Ok(certificate) => certificate_gone_out(alloc, &certificate, calls, text),
            Err(fault) => fault.name(),
        }
    } else {
        match read_run(alloc, &mut source) {
            Ok(run) => run_gone_out(alloc, &run, calls, text),
            Err(fault) => fault.name(),
        }
    }
}

/// 1 sends, 2 fails, and the process with the greatest identifier sends, moves on and fails.
const RUN: &str = "totem-run 1\n\
    log 1\nconf r4.1 1 2\nsend r4.1 a 4.1#1\ndlv r4.1 4.1#1\nopen\n\
    log 2\nfail r4.1\nfailed\n\
    log 65535\nconf r4.1 1 2\nsend r4.1 s 4.1#4294967295\nconf t8.1/2 2\nfail t8.1/2\nfailed\n\
    end\n";

const RUN_OF_LIVES: &str = "totem-run 2\n\
    log 1:1\nconf r4.1 1:1\nfail r4.1\nfailed\n\
    log 1:2\nconf r8.1 1:2\nsend r8.1 a 8.1#1\ndlv r8.1 8.1#1\nopen\n\
    end\n";

const QUIET_RUN: &str = "totem-run 3\n\
    log 1:1\nconf r4.1 1:1 2:1\nsend r4.1 a 4.1#1\ndlv r4.1 4.1#1\nquiet\n\
    log 2:1\nconf r4.1 1:1 2:1\nfail r4.1\nfailed\n\
    log 2:2\nconf r8.2 2:2\nopen\n\
    end\n";

const CERTIFICATE_OF_LIVES: &str = "totem-cert 2\npos 1:1 1 2\npos 1:2 3 4 5\nend\n";

/// A text, after how many calls the sink fails, and how much is written of the text as it was read.
const TEXTS: [(&str, u64, &str); 9] = [
    (RUN, 1000, "all"),
    (RUN, 0, "nothing"),
    ("totem-run 1\nend\n", 1000, "all"),
    (RUN_OF_LIVES, 1000, "all"),
    (QUIET_RUN, 1000, "all"),
    (CERTIFICATE, 1000, "all"),
    (CERTIFICATE, 0, "nothing"),
    ("totem-cert 1\nend\n", 1000, "all"),
    (CERTIFICATE_OF_LIVES, 1000, "all"),
];

/// Texts of each version are written as they were read, or not at all.
#[test]
fn texts_are_written_as_they_were_read(rt: HostRuntime) -> Result<(), AllocError> {
    for (text, calls, wanted) in &TEXTS {
        is_told(&rt, written(rt.alloc(), text, *calls), wanted, text);
    }
    Ok(())
}

/// How a long text begins, what it has ten thousand times, and how it ends.
const LONG: [(&str, &str, &str); 2] = [
    ("totem-run 1\nlog 1\n", "fail r4.1\n", "failed\nend\n"),
    ("totem-cert 1\npos 1", " 4294967295", "\nend\n"),
];

/// A long text is written in pieces: to a sink that takes one of the two, just this one.
#[test]
fn long_texts_are_written_in_pieces(rt: HostRuntime) -> Result<(), AllocError> {
    for (begin, piece, end) in &LONG {
        let pieces = piece.repeat(rt.alloc(), 10_000)?;
        let text = format!(in rt.alloc(); "{begin}{pieces}{end}")?;
        is_told(&rt, written(rt.alloc(), &text, 1), "a piece", begin);
        is_told(&rt, written(rt.alloc(), &text, 2), "all", begin);
    }
    Ok(())
}
