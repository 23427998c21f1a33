//! The first three passes (docs/SPECIFICATIONS.md, "Passes"). The events are ordered first: A and B are done along this order, if there is
//! one.
ghost use Rattle.std.specs.Prelude.{IfOk};
ghost use Rattle.totem_evs.specs.ClosedLists.{IsCycle};
ghost use Rattle.totem_audit.specs.Early.{BreaksEarly, ListsEarly};

use std::alloc::{AllocError, Global};
use totem_cert::{Order, positions};
use totem_check::{Early, early_along};
use totem_evs::{Fault, Run};
use totem_pass_ab::pass_a_and_b;

/// Returns the faults of the first of passes A, B and C that has one, for a run whose events have no order, because of this closed list.
#[tactic(auto, using(crate::proofs::Firsts::first_breaks, crate::proofs::Firsts::cycle_breaks))]
pub fn unordered(alloc: Global, run: &Run, fault: Fault) -> Result<Vec<Fault>, AllocError>
    requires { IsCycle run.now.logs fault }
    ensures { IfOk result (λ faults. BreaksEarly run.now.logs faults.items) }
{
    let mut faults = pass_a_and_b(alloc, run)?;
    if !faults.is_empty() {
        return Ok(faults);
    }
    faults.push(fault)?;
    Ok(faults)
}

/// Returns the faults of the first of passes A, B and C that finds any. If the list is empty, the run can be judged job by
/// job (`do_job`, `collect`).
#[tactic(auto, using(crate::proofs::Firsts::first_breaks, crate::proofs::Firsts::broken_early, crate::proofs::Firsts::ordered_early))]
pub fn early(alloc: Global, run: &Run) -> Result<Vec<Fault>, AllocError>
    ensures { IfOk result (λ faults. ListsEarly run.now.logs faults.items) }
{
    match positions(alloc, run)? {
        Order::Cycle(fault) => unordered(alloc, run, fault),
        Order::Positions(certificate) => match early_along(alloc, run, &certificate)? {
            Early::Broken(faults) => Ok(faults),
            Early::Passed(_) => Ok(Vec::new(alloc)),
        },
    }
}
