//! Verdicts, with the faults of the whole program.
ghost use Rattle.std.specs.Prelude.{[]};
ghost use Rattle.totem_names.specs.Sources.{seen};
ghost use Rattle.totem_names.specs.Writing.{held};
ghost use Rattle.totem_verdicts.specs.AuditIo.{Audits};
ghost use Rattle.totem_verdicts.specs.CheckIo.{ChecksText};
ghost use Rattle.totem_cluster.specs.IoFaults.{Gives};

use crate::io_fault::IoFault;
use std::alloc::Global;
use std::sync::Wait;
use std::thread::Threads;
use totem_audit::Workers;
use totem_names::{Sink, Source};
use totem_verdicts::Outcome;

/// Does the same as `totem_verdicts::audit_io`, but returns its fault as an `IoFault`.
pub fn audit_io<T: Threads + Wait + Sync, R: Source, W: Sink>(
    rt: &T,
    alloc: Global,
    input: &mut R,
    output: &mut W,
    workers: Workers,
) -> Result<Outcome, IoFault>
    ensures { Gives (Audits (seen R.remaining R.failures input.old) (seen R.remaining R.failures input.new)
        (held W.contents W.failures [] output.old) (held W.contents W.failures [] output.new)) result }
{
    match totem_verdicts::audit_io(rt, alloc, input, output, workers) {
        Ok(outcome) => Ok(outcome),
        Err(fault) => Err(IoFault::from(fault)),
    }
}

/// Does the same as `totem_verdicts::check_io`, but returns its fault as an `IoFault`.
pub fn check_io<R: Source, W: Sink>(
    alloc: Global,
    input: &mut R,
    output: &mut W,
) -> Result<Outcome, IoFault>
    ensures { Gives (ChecksText (seen R.remaining R.failures input.old) (seen R.remaining R.failures input.new)
        (held W.contents W.failures [] output.old) (held W.contents W.failures [] output.new)) result }
{
    match totem_verdicts::check_io(alloc, input, output) {
        Ok(outcome) => Ok(outcome),
        Err(fault) => Err(IoFault::from(fault)),
    }
}
