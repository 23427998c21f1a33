//! The checker of runs and certificates (docs/SPECIFICATIONS.md, "The checker").
//!
//! What a yes depends on: `certified` of totem_judge_certificate, which compares the certificate with the logs (1.1 and 6.1); `observe` of
//! totem_judge, which gathers the traffic of each configuration along the certificate and compares it with the logs (1.3); and the
//! rules of totem_judge_run and totem_judge_traffic, for the other specifications. All of them use the definitions of runs and
//! certificates in totem_names, totem_evs and totem_certificate. totem_verdicts reads the two texts and prints the answer.
//!
//! If a rule says no, the passes (totem_pass_ab and totem_pass_d, with totem_table) search for what is broken. If they found nothing, the
//! answer would be yes all the same, and would depend on them, too; but no such run is known.
ghost use Rattle.totem_evs.specs.Certificates.{Certified};
ghost use Rattle.totem_outcome.specs.Checks.{Checks, RefusesRightly};

use crate::judgement::{Judgement, judge};
use std::alloc::Global;
use totem_certificate::Certificate;
use totem_evs::Run;
use totem_judge_certificate::certified;
use totem_outcome::{Accepted, CheckFault};

/// Judges a certified run: what it leaves open, or its first fault.
#[tactic(auto, using(totem_outcome::proofs::Checking::starved))]
fn judged(alloc: Global, run: &Run, certificate: &Certificate) -> Result<Accepted, CheckFault>
    requires { Certified run.now.logs certificate.now.lines }
    ensures { Checks run.now.logs certificate.now.lines result }
{
    match judge(alloc, run, certificate)? {
        Judgement::Yes(accepted) => Ok(accepted),
        Judgement::No(mut faults) => Err(CheckFault::Broken(faults.remove(0))),
    }
}

/// Checks that the certificate certifies the run and that the run meets specifications 1 to 7 (docs/SPECIFICATIONS.md,
/// "The checker"). It does not matter who made the certificate, or what an audit reported.
pub fn check(alloc: Global, run: &Run, certificate: &Certificate) -> Result<Accepted, CheckFault>
    ensures answer { Checks run.now.logs certificate.now.lines result }
    ensures exact { RefusesRightly run.now.logs certificate.now.lines result }
{
    certified(alloc, run, certificate)??;
    judged(alloc, run, certificate)
}
