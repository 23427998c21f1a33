ghost use Rattle.std.specs.Prelude.{◌≡◌, IfOk};
ghost use Rattle.totem_names.specs.declared.version.Version.{Version};
ghost use Rattle.totem_evs.specs.Answers.{IsAnswered};
ghost use Rattle.totem_evs.specs.Positions.{IsPositions};
ghost use Rattle.totem_check.specs.Judged.{IsJudged};
ghost use Rattle.totem_audit.specs.Verdicts.{answer_of, HasVersion};

use std::alloc::{AllocError, Global};
use totem_certificate::Certificate;
use totem_check::{Accepted, Judgement};
use totem_evs::{Fault, Pending, Run, Waiting};

/// The verdict of the audit on a run (docs/SPECIFICATIONS.md, "Passes").
#[derive(Debug, Drop)]
pub enum Verdict {
    /// The run meets the specifications. The certificate gives the order of its events. The lists of what is pending and of
    /// which processes wait are ascending.
    Yes {
        certificate: Certificate,
        pending: Vec<Pending>,
        waiting: Vec<Waiting>,
    },
    /// The run breaks at least one specification. These are the faults of the first pass that found one.
    No {
        faults: Vec<Fault>,
    },
}

fn clone_faults(alloc: Global, faults: &[Fault]) -> Result<Vec<Fault>, AllocError>
    ensures { IfOk result (λ list. list.items ≡ faults.now) }
{
    let mut list = Vec::with_capacity(alloc, faults.len())?;
    for fault in faults {
        list.push(fault.try_clone(alloc)?)?;
    }
    Ok(list)
}

impl Verdict {
    /// Returns the verdict on a run whose events have this order, given the judgement along it.
    #[tactic(auto, using(crate::proofs::Firsts::met_answer))]
    pub(crate) fn of(run: &Run, certificate: Certificate, judgement: Judgement) -> Verdict
        requires positions { IsPositions run.now.logs certificate.lines }
        requires judged { IsJudged run.now.logs judgement }
        ensures answer { IsAnswered run.now.logs (answer_of result) }
        ensures version { HasVersion certificate.version result }
    {
        let _ = run;
        match judgement {
            Judgement::Yes(Accepted { pending, waiting }) => Verdict::Yes {
                certificate,
                pending,
                waiting,
            },
            Judgement::No(faults) => Verdict::No { faults },
        }
    }

    pub fn try_clone(&self, alloc: Global) -> Result<Verdict, AllocError>
        ensures answer { IfOk result (λ verdict. answer_of verdict ≡ answer_of self.now) }
        ensures version { IfOk result (λ verdict. (version : Version) → HasVersion version self.now → HasVersion version verdict) }
    {
        match self {
            Verdict::Yes {
                certificate,
                pending,
                waiting,
            } => Ok(Verdict::Yes {
                certificate: certificate.try_clone(alloc)?,
                pending: pending.to_vec(alloc)?,
                waiting: waiting.to_vec(alloc)?,
            }),
            Verdict::No { faults } => Ok(Verdict::No {
                faults: clone_faults(alloc, faults)?,
            }),
        }
    }
}
