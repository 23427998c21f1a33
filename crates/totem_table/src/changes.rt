//! Where the logs of a run change to another configuration. Few entries are changes, so a search that needs only the changes need not
//! walk along all entries.
ghost use Rattle.std.specs.Prelude.{◌≤◌, ◌<◌, IfOk, length, slice_index_or};
ghost use Rattle.totem_evs.specs.Following.{IsNextOrEnd};
ghost use Rattle.totem_table.specs.Changes.{ListsChanges, AreChanges};

use crate::row::Row;
use std::alloc::{AllocError, Global};
use totem_evs::{Entry, Run};

/// For each log of a run, the indices of its changes, in ascending order.
#[derive(Debug, Drop)]
pub struct Changes {
    pub rows: Vec<Row>,
}

/// Returns the indices of a log's changes.
fn changes_in(alloc: Global, entries: &[Entry]) -> Result<Row, AllocError>
    requires { length entries.now ≤ 1000000 }
    ensures { IfOk result (ListsChanges entries.now (length entries.now)) }
{
    let mut list = Vec::new(alloc);
    for (at, entry) in entries.iter().enumerate() {
        if let Entry::Conf(_, _) = entry {
            list.push(at as u32)?;
        }
    }
    Ok(Row::of(list))
}

/// Returns the index of the change that follows the one with this number, counted from 0, or the length of the log if none does.
pub fn next_change(log: &[Entry], changes: &[u32], number: usize) -> usize
    requires lists { ListsChanges log.now (length log.now) changes.now }
    requires within { number < length changes.now }
    ensures { IsNextOrEnd log.now (slice_index_or changes.now number 0) result }
{
    if number + 1 < changes.len() {
        changes[number + 1] as usize
    } else {
        log.len()
    }
}

impl Changes {
    /// Finds the changes of a run in one walk along its logs.
    pub fn of(alloc: Global, run: &Run) -> Result<Changes, AllocError>
        ensures { IfOk result (λ changes. AreChanges run.now.logs changes.rows.items) }
    {
        let logs = run.logs.as_slice();
        let mut rows = Vec::with_capacity(alloc, logs.len())?;
        for log in logs {
            rows.push(changes_in(alloc, log.entries.as_slice())?)?;
        }
        Ok(Changes { rows })
    }
}
