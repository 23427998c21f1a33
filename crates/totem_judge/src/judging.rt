//! Judges a run along its certificate.
ghost use Rattle.std.specs.Prelude.{◌≤◌, IfOk, IfSome, length};
ghost use Rattle.std.specs.Bool.{OnTrue};
ghost use Rattle.totem_evs.specs.Changes.{EndsTogether};
ghost use Rattle.totem_evs.specs.Certificates.{Certified};
ghost use Rattle.totem_judge_run.specs.Orderly.{IsOrderly};
ghost use Rattle.totem_judge.specs.Judged.{IsObserved, AreObserved, IsView, Agree};

use crate::covered::{are_covered, rise};
use crate::gather::gather;
use crate::gathered::Gathered;
use crate::pending::add_pending;
use crate::traffic::traffic_of;
use std::alloc::{AllocError, Global};
use totem_certificate::{Certificate, Line};
use totem_evs::{Log, Pending, Run};
use totem_judge_run::{end_together, in_order, is_orderly};
use totem_judge_traffic::{Observed, is_agreed};

/// What is seen of a run that meets the specifications of the first two passes, along its certificate.
#[derive(Drop)]
pub struct View {
    /// The traffic of each regular configuration.
    pub observed: Vec<Observed>,
    /// By process and then by message.
    pub pending: Vec<Pending>,
}

/// Compares one configuration with the logs, and appends what is pending there. Returns `None` unless the logs agree with what was
/// gathered.
fn observe_one(
    alloc: Global,
    logs: &[Log],
    lines: &[Line],
    gathered: Gathered,
    pending: &mut Vec<Pending>,
) -> Result<Option<Observed>, AllocError>
    requires { length logs.now ≤ 32 }
    ensures { IfOk result (λ found. IfSome found (λ one. IsObserved logs.now lines.now gathered one pending.old.items pending.new.items)) }
{
    let ring = gathered.ring;
    let Some(traffic) = traffic_of(alloc, logs, lines, gathered)? else {
        return Ok(None);
    };
    add_pending(&traffic, logs, pending)?;
    Ok(Some(Observed { ring, traffic }))
}

/// Compares these configurations with the logs, one after the other. What is pending in them is in no order yet.
fn observe_all(
    alloc: Global,
    logs: &[Log],
    lines: &[Line],
    list: Vec<Gathered>,
) -> Result<Option<View>, AllocError>
    requires { length logs.now ≤ 32 }
    ensures { IfOk result (λ found. IfSome found (λ view. AreObserved logs.now lines.now list.items view.observed.items view.pending.items)) }
{
    let mut pending = Vec::new(alloc);
    let mut observed = Vec::new(alloc);
    for gathered in list {
        let Some(one) = observe_one(alloc, logs, lines, gathered, &mut pending)? else {
            return Ok(None);
        };
        observed.push(one)?;
    }
    Ok(Some(View { observed, pending }))
}

/// Observes the configurations of a run that its certificate orders.
fn observe_configurations(
    alloc: Global,
    run: &Run,
    certificate: &Certificate,
) -> Result<Option<View>, AllocError>
    requires orderly { IsOrderly run.now.logs }
    requires together { EndsTogether run.now.logs }
    requires certified { Certified run.now.logs certificate.now.lines }
    ensures { IfOk result (λ found. IfSome found (λ view. IsView run.now.logs view.observed.items view.pending.items)) }
{
    let logs = run.logs.as_slice();
    let lines = certificate.as_slice();
    let list = gather(alloc, logs, lines)?;
    if !rise(&list) || !are_covered(logs, &list) {
        return Ok(None);
    }
    let Some(View { observed, pending }) = observe_all(alloc, logs, lines, list)? else {
        return Ok(None);
    };
    Ok(Some(View {
        observed,
        pending: in_order(pending)?,
    }))
}

/// Observes a run that its certificate orders. Returns `None` unless it sees that the run meets the specifications of passes A and B.
pub fn observe(
    alloc: Global,
    run: &Run,
    certificate: &Certificate,
) -> Result<Option<View>, AllocError>
    requires { Certified run.now.logs certificate.now.lines }
    ensures { IfOk result (λ found. IfSome found (λ view. IsView run.now.logs view.observed.items view.pending.items)) }
{
    if !is_orderly(alloc, run)? {
        return Ok(None);
    }
    if !end_together(alloc, run)? {
        return Ok(None);
    }
    observe_configurations(alloc, run, certificate)
}

/// Returns `true` only where the rules of all these configurations are met.
fn all_agree(list: &[Observed]) -> bool
    ensures { OnTrue result (Agree list.now) }
{
    for one in list {
        if !is_agreed(&one.traffic) {
            return false;
        }
    }
    true
}

impl View {
    ghost use Rattle.std.specs.Bool.{OnTrue};
    ghost use Rattle.totem_judge.specs.Judged.{Agree};

    /// Returns `true` only where the rules of all configurations are met. Then the run meets all specifications.
    pub fn agrees(&self) -> bool
        ensures { OnTrue result (Agree self.now.observed.items) }
    {
        all_agree(&self.observed)
    }
}
