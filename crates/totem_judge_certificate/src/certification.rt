//! Tests whether a certificate certifies a run.
ghost use Rattle.std.specs.Prelude.{◌↔◌, IsOk, IfOk, OnErr, Err};
ghost use Rattle.totem_evs.specs.Certificates.{Matches, Certified};
ghost use Rattle.totem_evs.specs.Runs.{IsRun};
ghost use Rattle.totem_outcome.specs.Certifying.{Answers, Rise};
ghost use Rattle.totem_judge_certificate.specs.Spreads.{Knows};
ghost use Rattle.totem_judge_certificate.specs.Walks.{IsUnclean, NamesFault};

use crate::sends::sends_are_below;
use crate::spread::Spread;
use crate::walk::is_ordered;
use std::alloc::{AllocError, Global};
use totem_certificate::{Certificate, Line};
use totem_evs::{Log, Run};
use totem_outcome::{CertificateFault, all_rise, matches_logs};

/// Returns the first fault of numbers that are ascending but do not order the run, given the numbers of the classes.
fn first_fault(spread: &Spread, logs: &[Log], lines: &[Line]) -> CertificateFault
    requires matches { Matches logs.now lines.now }
    requires run { IsRun logs.now }
    requires known { Knows logs.now lines.now spread.now }
    requires unclean { IsUnclean logs.now lines.now }
    ensures { NamesFault logs.now lines.now result }
{
    if !sends_are_below(spread, logs, lines) {
        CertificateFault::SendNotBefore
    } else if spread.is_apart {
        CertificateFault::TwinsDiffer
    } else {
        CertificateFault::SharedPosition
    }
}

/// Tests whether the certificate certifies the run, by one walk along its numbers. If it does not, looks at all events once more
/// to name the first reason. Takes n log n steps for n entries. Lines that do not match and numbers that are not ascending are
/// found without allocating memory.
pub fn certified(
    alloc: Global,
    run: &Run,
    certificate: &Certificate,
) -> Result<Result<(), CertificateFault>, AllocError>
    ensures answer { IfOk result (Answers run.now.logs certificate.now.lines) }
    ensures exact { IfOk result (λ answer. IsOk answer ↔ Certified run.now.logs certificate.now.lines) }
    ensures memory { OnErr result (Matches run.now.logs certificate.now.lines × Rise run.now.logs certificate.now.lines) }
{
    let logs = run.logs.as_slice();
    let lines = certificate.as_slice();
    if !matches_logs(logs, lines) {
        return Ok(Err(CertificateFault::Count));
    }
    if !all_rise(lines) {
        return Ok(Err(CertificateFault::NotRising));
    }
    if is_ordered(alloc, logs, lines)? {
        return Ok(Ok(()));
    }
    let spread = Spread::of(alloc, logs, lines)?;
    Ok(Err(first_fault(&spread, logs, lines)))
}
