//! The plain checker of runs and certificates (docs/SPECIFICATIONS.md, "The checker").
ghost use Rattle.std.specs.Prelude.{IfOk};
ghost use Rattle.totem_certificate.specs.Keeping.{IsCertificate};
ghost use Rattle.totem_evs.specs.Certificates.{Certified};
ghost use Rattle.totem_evs.specs.Runs.{IsRun};
ghost use Rattle.totem_outcome.specs.Certifying.{Answers};
ghost use Rattle.totem_outcome.specs.Checks.{Checks, RefusesRightly};
ghost use Rattle.totem_plain.specs.Found.{ListsFirst};

use crate::certificate::{LateSend, SharedNumber, SplitClass};
use crate::left_open::{pending, waiting};
use crate::numbered::each_pair;
use crate::passes::{pass_a, pass_b, pass_d};
use std::alloc::{AllocError, Global};
use totem_certificate::{Certificate, Line};
use totem_evs::{Fault, Log, Run};
use totem_outcome::{Accepted, CertificateFault, CheckFault, all_rise, matches_logs};

/// Tests whether the lines certify the run that these logs make.
fn lines_certify(logs: &[Log], lines: &[Line]) -> Result<(), CertificateFault>
    requires run { IsRun logs.now }
    requires certificate { IsCertificate lines.now }
    ensures { Answers logs.now lines.now result }
{
    if !matches_logs(logs, lines) {
        Err(CertificateFault::Count)
    } else if !all_rise(lines) {
        Err(CertificateFault::NotRising)
    } else if !each_pair(&LateSend, logs, lines) {
        Err(CertificateFault::SendNotBefore)
    } else if !each_pair(&SplitClass, logs, lines) {
        Err(CertificateFault::TwinsDiffer)
    } else if !each_pair(&SharedNumber, logs, lines) {
        Err(CertificateFault::SharedPosition)
    } else {
        Ok(())
    }
}

/// Tests whether the certificate certifies the run. Takes no memory.
fn certified(run: &Run, certificate: &Certificate) -> Result<(), CertificateFault>
    ensures { Answers run.now.logs certificate.now.lines result }
{
    lines_certify(run.logs.as_slice(), certificate.as_slice())
}

/// Returns the faults of the first of passes A, B and D that has one.
fn first_faults(alloc: Global, run: &Run) -> Result<Vec<Fault>, AllocError>
    ensures { IfOk result (λ faults. ListsFirst run.now.logs faults.items) }
{
    let first = pass_a(alloc, run)?;
    if !first.is_empty() {
        return Ok(first);
    }
    let second = pass_b(alloc, run)?;
    if !second.is_empty() {
        return Ok(second);
    }
    pass_d(alloc, run)
}

/// Judges a certified run: what it leaves open, or its first fault.
fn judged(alloc: Global, run: &Run, certificate: &Certificate) -> Result<Accepted, CheckFault>
    requires { Certified run.now.logs certificate.now.lines }
    ensures { Checks run.now.logs certificate.now.lines result }
{
    let mut faults = first_faults(alloc, run)?;
    if !faults.is_empty() {
        return Err(CheckFault::Broken(faults.remove(0)));
    }
    Ok(Accepted {
        pending: pending(alloc, run)?,
        waiting: waiting(alloc, run)?,
    })
}

/// Checks that the certificate certifies the run and that the run meets specifications 1 to 7, as `check` of totem_check does, and says the
/// same. It may take time with the cube of the number of entries, but each specification is tested as its definition reads.
pub fn check_plainly(
    alloc: Global,
    run: &Run,
    certificate: &Certificate,
) -> Result<Accepted, CheckFault>
    ensures answer { Checks run.now.logs certificate.now.lines result }
    ensures exact { RefusesRightly run.now.logs certificate.now.lines result }
{
    certified(run, certificate)?;
    judged(alloc, run, certificate)
}
