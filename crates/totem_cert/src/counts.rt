//! Counts the entries that keep each class of a run from being ready: entries of the class after the first entry of their log without a
//! number, and sends without a number. The classes are numbered as in a table, those of messages before those of configurations.
ghost use Rattle.std.specs.Prelude.{◌≡◌, ◌+◌, ◌<◌, ◌≤◌, ◌^◌, IfOk, OnOk, Some, length, map, slice_get, slice_index_or};
ghost use Rattle.totem_table.specs.Tables.{IsTable, kind_of};
ghost use Rattle.totem_cert.specs.Progress.{empty_line};
ghost use Rattle.totem_cert.specs.Counts.{Adds, AtMost, Counts, CountsTo, HasHead, Pushes, Takes, class_fed, class_fed_by, class_in, class_kept, fed_by, kept_in, one, passed, shared_by};
ghost use Rattle.totem_cert.specs.Heads.{FeedsAlone, IsHead};

use crate::heads::Head;
use std::alloc::{AllocError, Global};
use totem_certificate::OpenLine;
use totem_evs::{Entry, Log, Run};
use totem_table::{Kind, Table};

/// Returns the class that an entry of this kind feeds if it is a send, or `None` for any other kind.
pub fn class_fed(kind: Kind, number: u32) -> Option<usize>
    ensures kind { result ≡ class_fed_by kind number }
    ensures entry { (entry : Entry) → kind ≡ kind_of entry → result ≡ class_fed entry number }
{
    match kind {
        Kind::Sending => Some(number as usize),
        _ => None,
    }
}

/// Returns the class of an entry of this kind, or `None` if it is alone in its class. The table has the given number of `messages`.
pub fn class_in(messages: usize, kind: Kind, number: u32) -> Option<usize>
    requires { messages < 2 ^ 63 }
    ensures { (entry : Entry) → kind ≡ kind_of entry → result ≡ class_in messages entry number }
{
    match kind {
        Kind::Delivery => Some(number as usize),
        Kind::Change => Some(messages + number as usize),
        Kind::Sending | Kind::Failure => None,
    }
}

/// Returns the class that an entry of this kind behind the head of its log keeps from being ready: the one that a send feeds, or its own.
fn class_kept(messages: usize, kind: Kind, number: u32) -> Option<usize>
    requires { messages < 2 ^ 63 }
    ensures { (entry : Entry) → kind ≡ kind_of entry → result ≡ class_kept messages entry number }
{
    match kind {
        Kind::Sending | Kind::Delivery => Some(number as usize),
        Kind::Change => Some(messages + number as usize),
        Kind::Failure => None,
    }
}

/// Adds one to the count of a class.
#[tactic(auto, using(crate::proofs::CountingOne::adds_one, crate::proofs::CountingOne::adds_past, crate::proofs::CountingOne::adds_nothing))]
fn add(counts: &mut [u32], class: Option<usize>)
    requires { AtMost counts.old 100000000 }
    ensures { Adds counts.old counts.new (one class) }
{
    let Some(class) = class else {
        return;
    };
    if class < counts.len() {
        counts[class] += 1;
    }
}

/// Takes one from the count of a class.
#[tactic(auto, using(crate::proofs::CountingOne::takes_one, crate::proofs::CountingOne::takes_past, crate::proofs::CountingOne::takes_nothing))]
fn take(counts: &mut [u32], class: Option<usize>)
    ensures { Takes counts.old counts.new (one class) }
{
    let Some(class) = class else {
        return;
    };
    if class < counts.len() {
        counts[class] = counts[class].saturating_sub(1);
    }
}

/// Returns the class of the entry at an index, or `None` if there is no entry or it is alone in its class.
pub fn class_next(
    messages: usize,
    entries: &[Entry],
    kinds: &[Kind],
    row: &[u32],
    next: usize,
) -> Option<usize>
    requires messages { messages < 2 ^ 63 }
    requires long { length entries.now ≡ length row.now }
    requires kinds { kinds.now ≡ map kind_of entries.now }
    ensures { result ≡ shared_by messages (slice_get entries.now next) (slice_index_or row.now next 0) }
{
    if next < entries.len() {
        class_in(messages, kinds[next], row[next])
    } else {
        None
    }
}

/// Counts the classes that the entries of a log keep from being ready. None of the entries has a number.
fn count_log(counts: &mut [u32], messages: usize, entries: &[Entry], kinds: &[Kind], row: &[u32])
    requires messages { messages < 2 ^ 63 }
    requires few { AtMost counts.old 62000000 }
    requires short { length entries.now ≤ 1000000 }
    requires long { length entries.now ≡ length row.now }
    requires kinds { kinds.now ≡ map kind_of entries.now }
    ensures { Adds counts.old counts.new (kept_in messages 0 entries.now row.now) }
{
    for (at, kind) in kinds.iter().enumerate() {
        add(counts, class_kept(messages, *kind, row[at]));
    }
    take(counts, class_next(messages, entries, kinds, row, 0));
}

/// Counts the classes that the entries of each log keep from being ready. None of the entries has a number.
fn count_logs(counts: &mut [u32], run: &Run, table: &Table)
    requires table { IsTable run.now.logs table.now }
    requires none { CountsTo run.now.logs table.now (map empty_line run.now.logs) counts.old 0 }
    ensures { Counts run.now.logs table.now (map empty_line run.now.logs) counts.new }
{
    let messages = table.messages.len();
    for (k, log) in run.logs.as_slice().iter().enumerate() {
        let row = table.rows[k].as_slice();
        let kinds = table.kinds[k].as_slice();
        count_log(counts, messages, log.entries.as_slice(), kinds, row);
    }
}

/// Returns for each class how many entries keep it from being ready, if no entry has a number.
pub fn count_all(alloc: Global, run: &Run, table: &Table) -> Result<Vec<u32>, AllocError>
    requires { IsTable run.now.logs table.now }
    ensures { IfOk result (λ counts. Counts run.now.logs table.now (map empty_line run.now.logs) counts.items) }
{
    let classes = table.messages.len() + table.confs.len();
    let mut counts = vec![in alloc; 0u32; classes]?;
    count_logs(&mut counts, run, table);
    Ok(counts)
}

/// Takes one from the count of the class that the entry feeds, a log's head. A head that is in a class with others feeds none.
#[tactic(auto, using(crate::proofs::CountingOne::takes_nothing))]
fn take_fed(counts: &mut [u32], head: Head, kind: Kind, number: u32)
    requires { FeedsAlone head (class_fed_by kind number) }
    ensures { Takes counts.old counts.new (one (class_fed_by kind number)) }
{
    match head {
        Head::Class(_) => {}
        _ => take(counts, class_fed(kind, number)),
    }
}

/// Updates the counts for the entry at `at`, the head of its log, which gets its number.
fn advance(
    counts: &mut [u32],
    messages: usize,
    entries: &[Entry],
    kinds: &[Kind],
    row: &[u32],
    head: Head,
    at: usize,
)
    requires messages { messages < 2 ^ 63 }
    requires within { at < length entries.now }
    requires long { length entries.now ≡ length row.now }
    requires kinds { kinds.now ≡ map kind_of entries.now }
    requires feeds { FeedsAlone head (fed_by (slice_get entries.now at) (slice_index_or row.now at 0)) }
    ensures { Takes counts.old counts.new (passed messages entries.now row.now at) }
{
    take_fed(counts, head, kinds[at], row[at]);
    take(counts, class_next(messages, entries, kinds, row, at + 1));
}

/// Gives the head of the k-th log its number.
#[inline(always)]
pub fn number_head(
    run: &Run,
    table: &Table,
    lines: &mut Vec<OpenLine>,
    counts: &mut [u32],
    k: usize,
    log: &Log,
    head: Head,
    number: u32,
) -> Result<(), AllocError>
    requires table { IsTable run.now.logs table.now }
    requires counts { Counts run.now.logs table.now lines.old.items counts.old }
    requires log { slice_get run.now.logs k ≡ Some log.now }
    requires more { HasHead log.now lines.old.items k }
    requires head { IsHead run.now.logs table.now lines.old.items k head }
    ensures pushes { OnOk result (Pushes lines.old.items lines.new.items k number) }
    ensures counts { OnOk result (Counts run.now.logs table.now lines.new.items counts.new) }
{
    let entries = log.entries.as_slice();
    let row = table.rows[k].as_slice();
    let kinds = table.kinds[k].as_slice();
    let at = lines[k].numbers().len();
    lines[k].push(number)?;
    advance(counts, table.messages.len(), entries, kinds, row, head, at);
    Ok(())
}
