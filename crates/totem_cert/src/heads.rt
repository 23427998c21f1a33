//! The head of each log, which is its first entry without a number, by the number of its class in a table.
ghost use Rattle.std.specs.Prelude.{◌≡◌, ◌↔◌, IsTrue, Some, length, slice_get};
ghost use Rattle.totem_table.specs.Tables.{IsTable};
ghost use Rattle.totem_cert.specs.Heads.{IsHead, IsUnkept, IsWithin};
ghost use Rattle.totem_cert.specs.Progress.{Fits};

use crate::counts::class_next;
use totem_certificate::OpenLine;
use totem_evs::{Log, Run};
use totem_table::Table;

/// What the head of a log is.
#[derive(Clone, Copy)]
pub enum Head {
    /// There is none: each entry has a number.
    End,
    /// It is alone in its class.
    Alone,
    /// It is in the class with this number.
    Class(usize),
}

/// Returns what the head of the k-th log is.
#[inline(always)]
pub fn head_of(run: &Run, table: &Table, lines: &[OpenLine], k: usize, log: &Log) -> Head
    requires table { IsTable run.now.logs table.now }
    requires fits { Fits run.now.logs lines.now }
    requires log { slice_get run.now.logs k ≡ Some log.now }
    ensures { IsHead run.now.logs table.now lines.now k result }
{
    let entries = log.entries.as_slice();
    let head = lines[k].numbers().len();
    if entries.len() <= head {
        return Head::End;
    }
    let row = table.rows[k].as_slice();
    let kinds = table.kinds[k].as_slice();
    match class_next(table.messages.len(), entries, kinds, row, head) {
        None => Head::Alone,
        Some(class) => Head::Class(class),
    }
}

/// Returns whether a log has a head, and no entry keeps the head's class from being ready.
pub fn is_unkept(counts: &[u32], head: Head) -> bool
    requires { IsWithin head (length counts.now) }
    ensures { IsTrue result ↔ IsUnkept counts.now head }
{
    match head {
        Head::End => false,
        Head::Alone => true,
        Head::Class(class) => counts[class] == 0,
    }
}

pub fn is_in_class(head: Head, class: usize) -> bool
    ensures { IsTrue result ↔ (head ≡ Head.Class class) }
{
    match head {
        Head::Class(other) => other == class,
        _ => false,
    }
}
