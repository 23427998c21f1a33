//! Runs that are read from sources of each kind, and part by part.
use crate::texts::{RUN, push_end, run_told};
use crate::values::is_told;
use std::alloc::{AllocError, Global};
use std::test::Fail;
use totem_evs::{Next, Part, RunReader};
use totem_names::{Buffered, FromRead, Fused, Source};

/// Reads the run from a source that fails after this many calls.
fn fused_told(alloc: Global, calls: u64) -> Result<String, Fail> {
    run_told(alloc, &mut Fused::new(FromRead::new(RUN.as_bytes()), calls))
}

/// Reads the run from a source with a buffer.
fn buffered_told(alloc: Global) -> Result<String, Fail> {
    run_told(alloc, &mut Buffered::new(alloc, RUN.as_bytes())?)
}

/// Sources of each kind give the run, and a source that fails after it fails again.
#[test]
fn sources_give_a_run(rt: HostRuntime) -> Result<(), Fail> {
    let run =
        "log 1: conf r4.1 1 2; send r4.1 a 4.1#1; dlv r4.1 4.1#1; open. log 2: conf r4.1 1 2; dlv r4.1 4.1#1; open. end end ";
    is_told(&rt, &fused_told(rt.alloc(), 1000)?, run, "1000 calls");
    is_told(&rt, &buffered_told(rt.alloc())?, run, "a buffer");
    let failing = fused_told(rt.alloc(), RUN.len() as u64)?;
    assert!(rt; failing.ends_with("open. Read Read "));
    Ok(())
}

fn push_part(text: &mut String, part: &Part) -> Result<(), AllocError> {
    text.push_str(match part {
        Part::Log(_) => "log ",
        Part::Entry(_) => "entry ",
        Part::Close(_) => "close ",
    })
}

/// Adds copies of at most twenty parts, and what follows them.
fn push_parts<S: Source>(
    alloc: Global,
    text: &mut String,
    source: &mut S,
    reader: RunReader,
) -> Result<(), AllocError> {
    let mut reader = reader;
    for _ in 0..20u8 {
        match reader.next(alloc, source) {
            Ok(Next::Part(part, later)) => {
                push_part(text, &part.try_clone(alloc)?)?;
                reader = later;
            }
            Ok(Next::End) => return text.push_str("end; "),
            Err(fault) => return text.push_str(fault.name()),
        }
    }
    text.push_str("more")
}

/// Returns the parts of the run, and what follows them.
fn parts_told(alloc: Global) -> Result<String, Fail> {
    let mut source = FromRead::new(RUN.as_bytes());
    let reader = RunReader::begin(alloc, &mut source)?;
    let mut text = String::new(alloc);
    push_parts(alloc, &mut text, &mut source, reader)?;
    push_end(&mut text, &mut source)?;
    Ok(text)
}

/// A run is read part by part, and its parts are copied.
#[test]
fn a_run_has_parts(rt: HostRuntime) -> Result<(), Fail> {
    let parts = "log entry entry entry close log entry entry close end; end ";
    is_told(&rt, &parts_told(rt.alloc())?, parts, "the parts of a run");
    Ok(())
}
