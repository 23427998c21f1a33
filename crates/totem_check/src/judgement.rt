//! Judges a run along an order of its events, by the rules, and where they do not show that it meets the specifications, pass by pass.
ghost use Rattle.std.specs.Prelude.{IfOk, IfSome};
ghost use Rattle.totem_evs.specs.Answers.{HasCertificate, MeetsPasses};
ghost use Rattle.totem_evs.specs.Certificates.{Certified};
ghost use Rattle.totem_check.specs.Judged.{IsViewOf, IsJudged};

use crate::early::{Early, early_along};
use crate::last_pass::LastPass;
use std::alloc::{AllocError, Global};
use totem_certificate::Certificate;
use totem_evs::{Fault, Run};
use totem_judge::View;
use totem_judge_run::waiting;
use totem_outcome::Accepted;
use totem_pass_d::pass_d_of;

/// What is found of a run whose events have an order.
#[derive(Drop)]
pub enum Judgement {
    /// The run meets specifications 1 to 7.
    Yes(Accepted),
    /// The faults of the first of passes A, B and D that has one.
    No(Vec<Fault>),
}

/// Searches a run that has passed A and B for what it breaks in pass D.
fn search(alloc: Global, run: &Run, view: Option<View>) -> Result<Judgement, AllocError>
    requires ordered { HasCertificate run.now.logs }
    requires meets { MeetsPasses run.now.logs }
    requires seen { IfSome view (IsViewOf run.now.logs) }
    ensures { IfOk result (IsJudged run.now.logs) }
{
    let last = LastPass::of(alloc, run, view)?;
    let faults = pass_d_of(alloc, &last.jobs)?;
    last.judgement(alloc, faults)
}

/// Judges a run that has passed A and B. Where the rules of all configurations are met, nothing is searched.
fn settle(
    alloc: Global,
    run: &Run,
    certificate: &Certificate,
    view: Option<View>,
) -> Result<Judgement, AllocError>
    requires certified { Certified run.now.logs certificate.now.lines }
    requires meets { MeetsPasses run.now.logs }
    requires seen { IfSome view (IsViewOf run.now.logs) }
    ensures { IfOk result (IsJudged run.now.logs) }
{
    let _ = run.logs.as_slice();
    let _ = certificate;
    let Some(view) = view else {
        return search(alloc, run, None);
    };
    if !view.agrees() {
        return search(alloc, run, Some(view));
    }
    Ok(Judgement::Yes(Accepted {
        pending: view.pending,
        waiting: waiting(alloc, run)?,
    }))
}

/// Judges a run by passes A, B and D, along this order of its events: it excludes a fault of pass C.
#[tactic(auto, using(crate::proofs::Judging::first_answer))]
pub fn judge(alloc: Global, run: &Run, certificate: &Certificate) -> Result<Judgement, AllocError>
    requires { Certified run.now.logs certificate.now.lines }
    ensures { IfOk result (IsJudged run.now.logs) }
{
    match early_along(alloc, run, certificate)? {
        Early::Broken(faults) => Ok(Judgement::No(faults)),
        Early::Passed(view) => settle(alloc, run, certificate, view),
    }
}
