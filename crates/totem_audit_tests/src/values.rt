//! Runs from their logs, values as text, and the comparison of a text with the expected one.
use std::alloc::{AllocError, Global};
use std::process::Abort;
use std::test::Fail;
use totem_cert::Line;
use totem_evs::{Ending, Fault, Log, Run, read_run};
use totem_names::{FromRead, Proc, WrittenProc};

/// Stops the test if the text is not the expected one.
pub fn is_told(rt: &impl Abort, told: &str, wanted: &str, about: &str) {
    assert_eq!(rt; told, wanted, "{about}");
}

/// Returns the run of these logs in this version.
pub fn run_of(alloc: Global, version: u8, logs: &str) -> Result<Run, Fail> {
    let text = format!(in alloc; "totem-run {version}\n{logs}end\n")?;
    Ok(read_run(alloc, &mut FromRead::new(text.as_bytes()))?)
}

/// Returns a process as the first version that can write it does.
fn named(proc: Proc) -> WrittenProc {
    proc.written(proc.first_version())
}

/// Adds each line of a certificate with `;` after it.
pub fn push_lines(text: &mut String, lines: &[Line]) -> Result<(), AllocError> {
    for line in lines {
        write!(text, "pos {}", named(line.proc))?;
        for number in line.numbers.as_slice() {
            write!(text, " {number}")?;
        }
        text.push_str(";")?;
    }
    Ok(())
}

/// Adds a log's process, its entries and its ending.
pub fn push_log(text: &mut String, log: &Log) -> Result<(), AllocError> {
    write!(text, "log {}: ", named(log.proc))?;
    for entry in log.entries.as_slice() {
        write!(text, "{entry}; ")?;
    }
    text.push_str(match log.ending {
        Ending::Standing => "open. ",
        Ending::Failed => "failed. ",
        Ending::Quiet => "quiet. ",
    })
}

/// Adds a fault's specification and its places.
pub fn push_fault(text: &mut String, fault: &Fault) -> Result<(), AllocError> {
    write!(text, "{}", fault.spec)?;
    for place in fault.places.as_slice() {
        write!(text, " {place}")?;
    }
    Ok(())
}

/// Adds each fault, with `; ` in front.
pub fn push_faults(text: &mut String, faults: &[Fault]) -> Result<(), AllocError> {
    for fault in faults {
        text.push_str("; ")?;
        push_fault(text, fault)?;
    }
    Ok(())
}
