//! Runs, certificates, the checker and the audit: totem_evs, totem_cert, totem_check, totem_stitch and totem_audit.
use std::alloc::{AllocError, Global};
use std::sync::Wait;
use std::thread::Threads;
pub use totem_audit::{
    Gate, JobResult, Verdict, Workers, audit, audit_with, collect, do_job, early, walk,
};
pub use totem_cert::{
    CertFault, Certificate, Line, Numbers, Order, positions, read_cert, write_cert,
};
pub use totem_check::{Accepted, CheckFault, check, check_plainly};
pub use totem_evs::{
    Ending, Entries, Entry, Fault, Log, Members, Next, Part, Pending, Places, Run, RunFault,
    RunReader, SpecNo, Waiting, WriteFault, read_end, read_run, write_run,
};
use totem_ids::{Place, Proc, Refused, Version};
pub use totem_stitch::Stitch;

pub fn a_log(proc: Proc, entries: Entries) -> Log {
    let ending = entries.ending();
    Log {
        proc,
        entries,
        ending,
    }
}

pub fn a_run(logs: Vec<Log>) -> Result<Run, Refused<Vec<Log>>> {
    Run::new(Version::One, logs)
}

pub fn a_fault(spec: SpecNo, places: Vec<Place>) -> Fault {
    Fault {
        spec,
        places: Places::new(places),
    }
}

pub fn copies(
    alloc: Global,
    log: &Log,
    entry: &Entry,
    members: &Members,
    part: &Part,
    fault: &Fault,
) -> Result<(), AllocError> {
    let _ = log.try_clone(alloc)?;
    let _ = entry.try_clone(alloc)?;
    let _ = members.try_clone()?;
    let _ = part.try_clone(alloc)?;
    let _ = fault.try_clone(alloc)?;
    Ok(())
}

pub fn a_certificate(lines: Vec<Line>) -> Result<Certificate, Refused<Vec<Line>>> {
    Certificate::new(Version::One, lines)
}

pub fn certificate_copies(alloc: Global, order: &Order, line: &Line) -> Result<(), AllocError> {
    let _ = order.try_clone(alloc)?;
    let _ = line.try_clone(alloc)?;
    Ok(())
}

pub fn checked_plainly(
    alloc: Global,
    run: &Run,
    certificate: &Certificate,
) -> Result<Accepted, CheckFault> {
    check_plainly(alloc, run, certificate)
}

/// A gate that needs nothing.
pub struct Passes;

impl Gate for Passes {
    fn before(&self, _job: u32) {}

    fn after(&self, _job: u32) {}
}

pub fn together<T: Threads + Wait + Sync>(
    rt: &T,
    alloc: Global,
    run: &Run,
    workers: Workers,
) -> Result<Verdict, AllocError> {
    audit_with(rt, alloc, run, workers, &Passes)
}
