ghost use Rattle.std.specs.Prelude.{◌≡◌, IfOk};
ghost use Rattle.std.specs.BTreeMap.{get};
ghost use Rattle.totem_evs.specs.ClosedLists.{IsLeft};
ghost use Rattle.totem_table.specs.Tables.{IsTable};
ghost use Rattle.totem_cert.specs.Firsts.{AreFirstsOf};
ghost use Rattle.totem_cert.specs.Progress.{IsSound, NoneReady, IsRound};
ghost use Rattle.totem_cert.specs.Visited.{place_order};

use crate::firsts::Firsts;
use crate::step::{Step, step_of};
use std::alloc::{AllocError, Global};
use std::collections::BTreeMap;
use totem_certificate::OpenLine;
use totem_evs::Run;
use totem_names::Place;
use totem_table::Table;

/// Steps from class to class that return to the class of step `again`.
#[derive(Drop)]
pub struct Round {
    pub steps: Vec<Step>,
    pub again: usize,
}

/// Returns the index of the step that led to an event.
fn visited(seen: &BTreeMap<Place, usize>, to: &Place) -> Option<usize>
    ensures { result ≡ get place_order seen.now to.now }
{
    seen.get(to).copied()
}

/// Walks from class to class, starting at the class of an event without a number, until a class is reached a second time.
pub fn walk_round(
    alloc: Global,
    run: &Run,
    table: &Table,
    lines: &[OpenLine],
    firsts: &Firsts,
    start: &Place,
) -> Result<Round, AllocError>
    requires table { IsTable run.now.logs table.now }
    requires firsts { AreFirstsOf run.now.logs table.now lines.now firsts.now }
    requires sound { IsSound run.now.logs lines.now }
    requires none { NoneReady run.now.logs lines.now }
    requires left { IsLeft run.now.logs start.now }
    ensures { IfOk result (λ w. IsRound run.now.logs start.now w.steps.items w.again) }
{
    let mut steps = Vec::new(alloc);
    let mut seen = BTreeMap::new(alloc);
    let mut next = step_of(run, table, lines, firsts, start);
    'steps: loop {
        if let Some(again) = visited(&seen, &next.to) {
            return Ok(Round { steps, again });
        }
        seen.insert(next.to, steps.len())?;
        steps.push(next)?;
        next = step_of(run, table, lines, firsts, &next.from);
    }
}
