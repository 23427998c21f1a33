//! Passes A and B of a run along an order of its events (docs/SPECIFICATIONS.md, "Passes").
ghost use Rattle.std.specs.Prelude.{IfOk};
ghost use Rattle.totem_evs.specs.Certificates.{Certified};
ghost use Rattle.totem_check.specs.Judged.{IsEarly};

use std::alloc::{AllocError, Global};
use totem_certificate::Certificate;
use totem_evs::{Fault, Run};
use totem_judge::{View, observe};
use totem_pass_ab::pass_a_and_b;

/// How passes A and B end, for a run whose events have an order.
#[derive(Drop)]
pub enum Early {
    /// One of them found faults: those of the first that did.
    Broken(Vec<Fault>),
    /// Neither did. What is observed along the order shows it; with `None` the searches do.
    Passed(Option<View>),
}

/// Does passes A and B for a run with this certificate. If what is observed along it is as they require, they need not search.
pub fn early_along(alloc: Global, run: &Run, certificate: &Certificate) -> Result<Early, AllocError>
    requires { Certified run.now.logs certificate.now.lines }
    ensures { IfOk result (IsEarly run.now.logs) }
{
    if let Some(view) = observe(alloc, run, certificate)? {
        return Ok(Early::Passed(Some(view)));
    }
    let faults = pass_a_and_b(alloc, run)?;
    if !faults.is_empty() {
        return Ok(Early::Broken(faults));
    }
    Ok(Early::Passed(None))
}
