//! What entries name, in ascending order.
ghost use Rattle.std.specs.Prelude.{◌≡◌, ◌≤◌, ◌+◌, ◌++◌, IfOk, OnOk, Option, Some, Contains, length, slice_get};
ghost use Rattle.std.specs.declared.cmp.Ordering.TheVariants.{Equal};
ghost use Rattle.std.specs.List.Sorted.{IsStrictlySortedBy};
ghost use Rattle.totem_evs.specs.declared.entry.Entry.{Entry};
ghost use Rattle.totem_table.specs.Names.{ListsNames, names_in, all_names};

use std::alloc::{AllocError, Global};
use totem_evs::{Entry, Log};
use totem_names::{ConfId, MsgId};

/// What an entry may name: a message or a configuration.
pub trait Name: Ord + Copy {
    /// What an entry names.
    ghost name_of: { Entry → Option Self };

    /// Returns what an entry names, or `None` if it names something else.
    fn of(entry: &Entry) -> Option<Self>
        ensures { result ≡ name_of entry.now };

    /// What compares as equal is the same.
    ghost exact: { (a b : Self) → Self.cmp a b ≡ Equal → a ≡ b };
}

impl Name for MsgId {
    ghost use Rattle.totem_names.proofs.Exact.{exact_message};
    ghost use Rattle.totem_table.specs.Names.{message_of};

    ghost name_of = { message_of };

    ghost exact = { exact_message };

    fn of(entry: &Entry) -> Option<MsgId> {
        match entry {
            Entry::Send(message, _, _) | Entry::Deliver(message, _) => Some(*message),
            _ => None,
        }
    }
}

impl Name for ConfId {
    ghost use Rattle.totem_names.proofs.Exact.{exact_conf};
    ghost use Rattle.totem_table.specs.Names.{conf_of};

    ghost name_of = { conf_of };

    ghost exact = { exact_conf };

    fn of(entry: &Entry) -> Option<ConfId> {
        match entry {
            Entry::Conf(conf, _) | Entry::Fail(conf) => Some(*conf),
            _ => None,
        }
    }
}

/// Adds what the entries of a log name.
fn add_names<N: Name>(names: &mut Vec<N>, entries: &[Entry]) -> Result<(), AllocError>
    ensures names { OnOk result (names.new.items ≡ names.old.items ++ names_in N.name_of entries.now) }
    ensures few { OnOk result (length names.new.items ≤ length names.old.items + length entries.now) }
{
    for entry in entries {
        if let Some(name) = N::of(entry) {
            names.push(name)?;
        }
    }
    Ok(())
}

/// Returns the names in ascending order, each once.
fn in_order<N: Name>(mut names: Vec<N>) -> Result<Vec<N>, AllocError>
    requires { length names.items ≤ 32000000 }
    ensures { IfOk result (λ ordered. ListsNames N.cmp names.items ordered.items) }
{
    names.sort()?;
    names.dedup();
    Ok(names)
}

/// Returns all names of one kind in the logs, in ascending order, each once.
pub fn names_of<N: Name>(alloc: Global, logs: &[Log]) -> Result<Vec<N>, AllocError>
    requires { length logs.now ≤ 32 }
    ensures { IfOk result (λ names. ListsNames N.cmp (all_names N.name_of logs.now) names.items) }
{
    let mut names = Vec::new(alloc);
    for log in logs {
        add_names(&mut names, log.entries.as_slice())?;
    }
    in_order(names)
}

/// Returns the index of a name in a list that has it.
pub fn index_of<N: Name>(names: &[N], name: &N) -> usize
    requires sorted { IsStrictlySortedBy N.cmp names.now }
    requires there { Contains names.now name.now }
    ensures { slice_get names.now result ≡ Some name.now }
{
    match names.binary_search(name) {
        Ok(at) | Err(at) => at,
    }
}
