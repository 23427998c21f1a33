ghost use Rattle.std.specs.Prelude.{IfOk};
ghost use Rattle.totem_evs.specs.ClosedLists.{IsLeastLeft, IsBrokenBy, IsCycle};
ghost use Rattle.totem_table.specs.Tables.{IsTable};
ghost use Rattle.totem_cert.specs.Progress.{IsSound, NoneReady, IsFirstLeft};

use crate::closed::{forward, turned};
use crate::firsts::Firsts;
use crate::twins::has_twins;
use crate::walk::walk_round;
use std::alloc::{AllocError, Global};
use totem_certificate::OpenLine;
use totem_evs::{Fault, Places, Run, SpecNo};
use totem_names::Place;
use totem_table::Table;

/// Returns the least event that has no number.
fn least_left(run: &Run, lines: &[OpenLine], k: usize) -> Place
    requires sound { IsSound run.now.logs lines.now }
    requires none { NoneReady run.now.logs lines.now }
    requires left { IsFirstLeft run.now.logs lines.now k }
    ensures { IsLeastLeft run.now.logs result }
{
    let log = &run.logs.as_slice()[k];
    Place {
        proc: log.proc,
        at: (lines[k].numbers().len() + 1) as u32,
    }
}

/// Returns the specification that a closed list breaks: 6.1 or 1.1.
fn broken_by(run: &Run, places: &[Place]) -> SpecNo
    ensures { IsBrokenBy run.now.logs result places.now }
{
    if has_twins(run, places) {
        SpecNo::Order
    } else {
        SpecNo::Cycle
    }
}

/// Returns the closed list as a fault. No class is ready, and the k-th log is the first that has an entry without a number.
pub fn closed_list(
    alloc: Global,
    run: &Run,
    table: &Table,
    lines: &[OpenLine],
    k: usize,
) -> Result<Fault, AllocError>
    requires table { IsTable run.now.logs table.now }
    requires sound { IsSound run.now.logs lines.now }
    requires none { NoneReady run.now.logs lines.now }
    requires left { IsFirstLeft run.now.logs lines.now k }
    ensures { IfOk result (λ fault. IsCycle run.now.logs fault) }
{
    let start = least_left(run, lines, k);
    let firsts = Firsts::of(alloc, run, table, lines)?;
    let round = walk_round(alloc, run, table, lines, &firsts, &start)?;
    let written = forward(alloc, &round.steps, round.again)?;
    let places = turned(alloc, &written)?;
    Ok(Fault {
        spec: broken_by(run, &places),
        places: Places::new(places),
    })
}
