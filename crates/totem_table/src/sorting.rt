//! Makes a table by sorting what the entries name.
ghost use Rattle.std.specs.Prelude.{◌≡◌, map, IfOk, option_to_list};
ghost use Rattle.totem_table.specs.Names.{ListsNames, message_of, conf_of, names_in};
ghost use Rattle.totem_table.specs.Tables.{NamedBy, RowNames, IsTable, kinds_in};

use crate::kind::Kinds;
use crate::names::{index_of, names_of};
use crate::row::Row;
use crate::table::Table;
use std::alloc::{AllocError, Global};
use totem_evs::{Entry, Log, Run};
use totem_names::{ConfId, MsgId};

/// Returns the number of what an entry names.
fn number_of(messages: &[MsgId], confs: &[ConfId], entry: &Entry) -> u32
    requires messages { ListsNames ⟦<MsgId as Ord>⟧.cmp (option_to_list (message_of entry.now)) messages.now }
    requires confs { ListsNames ⟦<ConfId as Ord>⟧.cmp (option_to_list (conf_of entry.now)) confs.now }
    ensures { NamedBy messages.now confs.now entry.now result }
{
    let index = match entry {
        Entry::Conf(conf, _) | Entry::Fail(conf) => index_of(confs, conf),
        Entry::Send(message, _, _) | Entry::Deliver(message, _) => index_of(messages, message),
    };
    index as u32
}

/// Returns the numbers of what the entries of a log name.
fn row_of(
    alloc: Global,
    messages: &[MsgId],
    confs: &[ConfId],
    entries: &[Entry],
) -> Result<Row, AllocError>
    requires messages { ListsNames ⟦<MsgId as Ord>⟧.cmp (names_in message_of entries.now) messages.now }
    requires confs { ListsNames ⟦<ConfId as Ord>⟧.cmp (names_in conf_of entries.now) confs.now }
    ensures { IfOk result (RowNames messages.now confs.now entries.now) }
{
    let mut numbers = Vec::with_capacity(alloc, entries.len())?;
    for entry in entries {
        numbers.push(number_of(messages, confs, entry))?;
    }
    Ok(Row::of(numbers))
}

/// Returns the kinds of the entries of all logs.
fn kinds_of_all(alloc: Global, logs: &[Log]) -> Result<Vec<Kinds>, AllocError>
    ensures { IfOk result (λ kinds. kinds.items ≡ map kinds_in logs.now) }
{
    let mut kinds = Vec::with_capacity(alloc, logs.len())?;
    for log in logs {
        kinds.push(Kinds::of(alloc, log.entries.as_slice())?)?;
    }
    Ok(kinds)
}

/// Makes the table of a run by sorting, which takes longer than a guess.
pub fn sorted(alloc: Global, run: &Run) -> Result<Table, AllocError>
    ensures { IfOk result (IsTable run.now.logs) }
{
    let logs = run.logs.as_slice();
    let messages: Vec<MsgId> = names_of(alloc, logs)?;
    let confs: Vec<ConfId> = names_of(alloc, logs)?;
    let mut rows = Vec::with_capacity(alloc, logs.len())?;
    for log in logs {
        rows.push(row_of(alloc, &messages, &confs, log.entries.as_slice())?)?;
    }
    Ok(Table {
        messages,
        confs,
        rows,
        kinds: kinds_of_all(alloc, logs)?,
    })
}
