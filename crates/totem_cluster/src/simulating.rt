//! From a script to the text of the run that it makes.
ghost use Rattle.std.specs.Prelude.{◌≡◌, ◌≤◌, ◌+◌, ◌==◌, [], length, count_by};
ghost use Rattle.totem_names.specs.Sources.{seen};
ghost use Rattle.totem_names.specs.Writing.{held};
ghost use Rattle.totem_cluster.specs.IoFaults.{script_io_fault};
ghost use Rattle.totem_cluster.specs.SimIo.{ReadsScript, Follows, Simulates, IsBehind, unread};

use crate::io_fault::IoFault;
use std::alloc::{AllocError, Global};
use totem_evs::write_run;
use totem_names::{Sink, Source};
use totem_script::{FaultyLine, ScriptFault, follow};
use totem_verdicts::Outcome;

/// The number of bytes that are read at most: one more than a script may have.
const MOST: usize = 65_537;

/// The bytes that were read of a script.
#[derive(Debug, Drop)]
pub struct Reading {
    bytes: Vec<u8>,
    /// Whether the source failed after these bytes.
    failed: bool,
}

/// Reads to the end of the input, but no more than `MOST` bytes.
fn read_script<R: Source>(alloc: Global, input: &mut R) -> Result<Reading, AllocError>
    ensures { ReadsScript (seen R.remaining R.failures input.old) (seen R.remaining R.failures input.new) result }
{
    let mut bytes = Vec::new(alloc);
    for count in 0..MOST {
        match input.byte() {
            Ok(Some(byte)) => bytes.push(byte)?,
            Ok(None) => {
                return Ok(Reading {
                    bytes,
                    failed: false,
                });
            }
            Err(_) => {
                return Ok(Reading {
                    bytes,
                    failed: true,
                });
            }
        }
    }
    Ok(Reading {
        bytes,
        failed: false,
    })
}

/// Returns the fault of a script that can't be read further than these bytes.
fn unread(bytes: &[u8]) -> FaultyLine
    requires { length bytes.now ≤ 65537 }
    ensures { result ≡ unread bytes.now }
{
    let lines = bytes.iter().filter(|b| **b == b'\n').count();
    FaultyLine {
        kind: ScriptFault::Read,
        line: lines as u32 + 1,
    }
}

/// Returns the fault of a script whose source failed after these bytes: that of an earlier line, or that it can't be read.
fn fault_behind(alloc: Global, bytes: &[u8]) -> FaultyLine
    requires { length bytes.now ≤ 65537 }
    ensures { IsBehind result bytes.now }
{
    let Err(faulty) = follow(alloc, bytes) else {
        return unread(bytes);
    };
    match faulty.kind {
        ScriptFault::Truncated => unread(bytes),
        _ => faulty,
    }
}

/// Why a script made no run, and the bytes that were read of it.
#[derive(Debug, Drop)]
pub struct Unmade {
    pub fault: IoFault,
    /// The number of the line, if the fault is that of a script.
    pub line: u32,
    /// Empty if memory was refused while they were read.
    pub script: Vec<u8>,
}

/// Returns that a script makes no run because of this line.
fn refused(faulty: FaultyLine, script: Vec<u8>) -> Unmade
    ensures fault { result.fault ≡ script_io_fault faulty.kind }
    ensures line { result.line ≡ faulty.line }
{
    Unmade {
        fault: IoFault::from(faulty.kind),
        line: faulty.line,
        script,
    }
}

/// Reads a script, and writes the text of the run that it makes. Reads at most one byte more than a script may have, so a script that
/// never ends is refused.
pub fn follow_io<R: Source, W: Sink>(
    alloc: Global,
    input: &mut R,
    output: &mut W,
) -> Result<Outcome, Unmade>
    ensures { Follows (seen R.remaining R.failures input.old) (seen R.remaining R.failures input.new)
        (held W.contents W.failures [] output.old) (held W.contents W.failures [] output.new) result }
{
    let Ok(script) = read_script(alloc, input) else {
        return Err(Unmade {
            fault: IoFault::Memory,
            line: 0,
            script: Vec::new(alloc),
        });
    };
    if script.failed {
        return Err(refused(fault_behind(alloc, &script.bytes), script.bytes));
    }
    let run = match follow(alloc, &script.bytes) {
        Ok(run) => run,
        Err(faulty) => return Err(refused(faulty, script.bytes)),
    };
    match write_run(alloc, &run, output) {
        Ok(()) => Ok(Outcome::Made),
        Err(fault) => Err(Unmade {
            fault: IoFault::from(fault),
            line: 0,
            script: script.bytes,
        }),
    }
}

/// Does the same as `follow_io`, and drops the bytes and the line of a script that makes no run.
pub fn sim_io<R: Source, W: Sink>(
    alloc: Global,
    input: &mut R,
    output: &mut W,
) -> Result<Outcome, IoFault>
    ensures { Simulates (seen R.remaining R.failures input.old) (seen R.remaining R.failures input.new)
        (held W.contents W.failures [] output.old) (held W.contents W.failures [] output.new) result }
{
    match follow_io(alloc, input, output) {
        Ok(outcome) => Ok(outcome),
        Err(unmade) => Err(unmade.fault),
    }
}
