//! What is left open: which processes wait, and for which; and what is pending, in order (docs/SPECIFICATIONS.md, "Pending and waiting").
ghost use Rattle.std.specs.Prelude.{◌≡◌, ◌↔◌, IsTrue, IfOk, AllPairs};
ghost use Rattle.std.specs.Bool.{OnTrue};
ghost use Rattle.totem_evs.specs.Events.{log_of};
ghost use Rattle.totem_evs.specs.Unsettled.{EndsIn, AreWaiting, PendingBelow};
ghost use Rattle.totem_judge_run.specs.Orderly.{IsOrderly};
ghost use Rattle.totem_judge_run.specs.Endings.{IsEnd, AreEnds, AreWaitingAt, IsInOrder};

use crate::ends_2_1::index_of;
use crate::standing::{ends_in, standing_change};
use std::alloc::{AllocError, Global};
use totem_evs::{Entry, Pending, Run, Waiting};
use totem_names::{ConfId, Proc};

/// Returns the index of the last change of each log that has no failure, and `None` for the others.
fn last_changes(alloc: Global, run: &Run) -> Result<Vec<Option<usize>>, AllocError>
    requires { IsOrderly run.now.logs }
    ensures { IfOk result (λ ends. AreEnds run.now.logs ends.items) }
{
    let logs = run.logs.as_slice();
    let mut ends = Vec::with_capacity(alloc, logs.len())?;
    for log in logs {
        ends.push(standing_change(log.entries.as_slice()))?;
    }
    Ok(ends)
}

/// Returns whether this process ends in the configuration; one without a log doesn't.
fn is_there(run: &Run, ends: &[Option<usize>], proc: Proc, conf: &ConfId) -> bool
    requires { AreEnds run.now.logs ends.now }
    ensures { IsTrue result ↔ EndsIn (log_of run.now.logs proc) conf.now }
{
    let Some(k) = index_of(run, proc) else {
        return false;
    };
    let log = &run.logs.as_slice()[k];
    ends_in(log.entries.as_slice(), ends[k], conf)
}

/// Returns the members for which this process, which has these entries, waits.
fn waiting_of(
    alloc: Global,
    run: &Run,
    ends: &[Option<usize>],
    proc: Proc,
    entries: &[Entry],
    last: Option<usize>,
) -> Result<Vec<Waiting>, AllocError>
    requires orderly { IsOrderly run.now.logs }
    requires ends { AreEnds run.now.logs ends.now }
    requires log { entries.now ≡ log_of run.now.logs proc }
    requires last { IsEnd entries.now last }
    ensures { IfOk result (λ list. AreWaitingAt run.now.logs proc list.items) }
{
    let mut list = Vec::new(alloc);
    let Some(at) = last else {
        return Ok(list);
    };
    let Entry::Conf(conf, members) = &entries[at] else {
        return Ok(list);
    };
    for other in members.as_slice() {
        if !is_there(run, ends, *other, conf) {
            let conf = *conf;
            let other = *other;
            list.push(Waiting { proc, conf, other })?;
        }
    }
    Ok(list)
}

/// Returns which processes of a run wait, and for which, ordered by process and then by the other process.
pub fn waiting(alloc: Global, run: &Run) -> Result<Vec<Waiting>, AllocError>
    requires { IsOrderly run.now.logs }
    ensures { IfOk result (λ list. AreWaiting run.now.logs list.items) }
{
    let ends = last_changes(alloc, run)?;
    let mut list = Vec::new(alloc);
    for (k, log) in run.logs.as_slice().iter().enumerate() {
        let entries = log.entries.as_slice();
        let last = ends[k];
        let others = waiting_of(alloc, run, &ends, log.proc, entries, last)?;
        list.extend_from_slice(&others)?;
    }
    Ok(list)
}

/// Returns `true` only where each element is below all after it.
#[tactic(auto, using(crate::proofs::PendingOrder::ascend_more))]
fn is_ascending(list: &[Pending]) -> bool
    ensures { OnTrue result (AllPairs PendingBelow list.now) }
{
    for k in 1..list.len() {
        if list[k - 1] >= list[k] {
            return false;
        }
    }
    true
}

/// Returns the elements of the list in ascending order, each once.
pub fn in_order(mut list: Vec<Pending>) -> Result<Vec<Pending>, AllocError>
    ensures { IfOk result (λ ordered. IsInOrder list.items ordered.items) }
{
    if is_ascending(&list) {
        return Ok(list);
    }
    list.sort()?;
    list.dedup();
    Ok(list)
}
