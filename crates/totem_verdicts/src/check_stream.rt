//! From the text of a run and its certificate to the checker's report. The verdict is that of totem_check, whose module `checker` begins
//! with what a yes depends on.
ghost use Rattle.std.specs.Prelude.{◌≡◌, []};
ghost use Rattle.totem_names.specs.Sources.{seen};
ghost use Rattle.totem_names.specs.Writing.{held};
ghost use Rattle.totem_outcome.specs.Checks.{Checks, RefusesRightly};
ghost use Rattle.totem_verdicts.specs.CheckIo.{ReadsLast, ChecksText};

use crate::outcome::Outcome;
use crate::report::{write_accepted, write_no};
use crate::verdict_fault::VerdictFault;
use std::alloc::Global;
use totem_certificate::{CertFault, Certificate, read_cert};
use totem_check::{Accepted, CheckFault, check, check_plainly};
use totem_evs::{Run, read_run};
use totem_names::{Sink, Source};

/// The checkers, which say the same of every run and certificate (docs/SPECIFICATIONS.md, "The checker").
#[derive(Clone, Copy, PartialEq, Debug)]
pub enum Checker {
    /// One walk along the certificate, and rules over sets of logs: for runs of any size.
    Walk,
    /// Each specification as it is defined, by loops over the events: for small runs.
    Plain,
}

/// Has the run and the certificate checked.
fn checked(
    alloc: Global,
    run: &Run,
    certificate: &Certificate,
    checker: Checker,
) -> Result<Accepted, CheckFault>
    ensures answer { Checks run.now.logs certificate.now.lines result }
    ensures exact { RefusesRightly run.now.logs certificate.now.lines result }
{
    match checker {
        Checker::Walk => check(alloc, run, certificate),
        Checker::Plain => check_plainly(alloc, run, certificate),
    }
}

/// Reads a certificate and the end of the input after it.
fn read_last<R: Source>(alloc: Global, input: &mut R) -> Result<Certificate, CertFault>
    ensures { ReadsLast (seen R.remaining R.failures input.old) (seen R.remaining R.failures input.new) result }
{
    let certificate = read_cert(alloc, input)?;
    match input.byte() {
        Ok(None) => Ok(certificate),
        Ok(Some(_)) => Err(CertFault::End),
        Err(_) => Err(CertFault::Read),
    }
}

/// Reads the text of a run and, directly after it, that of a certificate, to the end of the input. Has both checked, and
/// writes the report.
pub fn check_by<R: Source, W: Sink>(
    alloc: Global,
    checker: Checker,
    input: &mut R,
    output: &mut W,
) -> Result<Outcome, VerdictFault>
    ensures { ChecksText (seen R.remaining R.failures input.old) (seen R.remaining R.failures input.new)
        (held W.contents W.failures [] output.old) (held W.contents W.failures [] output.new) result }
{
    let run = read_run(alloc, input)?;
    let certificate = read_last(alloc, input)?;
    match checked(alloc, &run, &certificate, checker) {
        Ok(accepted) => {
            write_accepted(alloc, run.version, &accepted, output)?;
            Ok(Outcome::Yes)
        }
        Err(CheckFault::Broken(fault)) => {
            write_no(alloc, run.version, &[fault], output)?;
            Ok(Outcome::No)
        }
        Err(CheckFault::Memory) => Err(VerdictFault::Memory),
        Err(fault) => Err(VerdictFault::Refused(fault)),
    }
}

/// Does what `check_by` does, by the walk along the certificate.
pub fn check_io<R: Source, W: Sink>(
    alloc: Global,
    input: &mut R,
    output: &mut W,
) -> Result<Outcome, VerdictFault>
    ensures { ChecksText (seen R.remaining R.failures input.old) (seen R.remaining R.failures input.new)
        (held W.contents W.failures [] output.old) (held W.contents W.failures [] output.new) result }
{
    check_by(alloc, Checker::Walk, input, output)
}
