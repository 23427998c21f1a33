//! Pass D of a run that has passed the others (docs/SPECIFICATIONS.md, "Passes").
ghost use Rattle.std.specs.Prelude.{IfOk, IfSome};
ghost use Rattle.totem_evs.specs.Answers.{HasCertificate, MeetsPasses, ListsConfigurations};
ghost use Rattle.totem_check.specs.Judged.{IsViewOf, IsLastPass, IsJudged};

use crate::judgement::Judgement;
use std::alloc::{AllocError, Global};
use totem_evs::{Fault, Pending, Run};
use totem_judge::View;
use totem_judge_run::waiting;
use totem_outcome::Accepted;
use totem_pass_d::{Jobs, pending_of};

/// The jobs of the last pass, and all that is pending.
#[derive(Drop)]
pub struct LastPass<'r> {
    pub jobs: Jobs<'r>,
    pub pending: Vec<Pending>,
}

impl<'r> LastPass<'r> {
    /// Lists the jobs of a run that has passed A and B, given what was observed of it.
    pub fn of(alloc: Global, run: &'r Run, view: Option<View>) -> Result<LastPass<'r>, AllocError>
        requires meets { MeetsPasses run.now.logs }
        requires seen { IfSome view (IsViewOf run.now.logs) }
        ensures { IfOk result (IsLastPass run.now.logs) }
    {
        match view {
            Some(View { observed, pending }) => {
                let jobs = Jobs::over(alloc, run, observed)?;
                Ok(LastPass { jobs, pending })
            }
            None => {
                let jobs = Jobs::build(alloc, run)?;
                let pending = pending_of(alloc, &jobs)?;
                Ok(LastPass { jobs, pending })
            }
        }
    }

    /// Returns the judgement on a run whose events have an order, given the faults of this pass: where there are none, a yes with what is
    /// left open.
    #[tactic(auto, using(crate::proofs::Judging::last_answer, crate::proofs::Judging::met_last))]
    pub fn judgement(self, alloc: Global, faults: Vec<Fault>) -> Result<Judgement, AllocError>
        requires last { IsLastPass self.jobs.run.now.logs self }
        requires ordered { HasCertificate self.jobs.run.now.logs }
        requires faults { ListsConfigurations self.jobs.run.now.logs faults.items }
        ensures { IfOk result (IsJudged self.entry.jobs.run.now.logs) }
    {
        if !faults.is_empty() {
            return Ok(Judgement::No(faults));
        }
        Ok(Judgement::Yes(Accepted {
            pending: self.pending,
            waiting: waiting(alloc, self.jobs.run)?,
        }))
    }
}
