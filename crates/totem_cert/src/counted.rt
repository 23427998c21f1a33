//! Numbers the classes of a run over its table, by counting the entries that keep each class from being ready.
ghost use Rattle.std.specs.Prelude.{IfOk, IfSome, IfNone, OnOk};
ghost use Rattle.totem_table.specs.Tables.{IsTable};
ghost use Rattle.totem_cert.specs.Counts.{Counts};
ghost use Rattle.totem_cert.specs.Heads.{IsHead};
ghost use Rattle.totem_cert.specs.Progress.{IsGiven, IsNextHead, IsNextIn, IsSound, NoneReady};

use crate::counts::{count_all, number_head};
use crate::heads::{Head, head_of, is_in_class, is_unkept};
use crate::numbering::started;
use std::alloc::{AllocError, Global};
use totem_certificate::OpenLine;
use totem_evs::Run;
use totem_table::Table;

/// Returns the index of the first log whose head is ready, and what the head is.
fn first_counted(
    run: &Run,
    table: &Table,
    lines: &[OpenLine],
    counts: &[u32],
) -> Option<(usize, Head)>
    requires table { IsTable run.now.logs table.now }
    requires sound { IsSound run.now.logs lines.now }
    requires counts { Counts run.now.logs table.now lines.now counts.now }
    ensures found { IfSome result (λ r. IsNextHead run.now.logs lines.now r.0) }
    ensures head { IfSome result (λ r. IsHead run.now.logs table.now lines.now r.0 r.1) }
    ensures none { IfNone result (NoneReady run.now.logs lines.now) }
{
    for (k, log) in run.logs.as_slice().iter().enumerate() {
        let head = head_of(run, table, lines, k, log);
        if is_unkept(counts, head) {
            return Some((k, head));
        }
    }
    None
}

/// Gives the number to each head of the class, which is the next one.
fn give_heads(
    run: &Run,
    table: &Table,
    lines: &mut Vec<OpenLine>,
    counts: &mut [u32],
    class: usize,
    number: u32,
) -> Result<(), AllocError>
    requires table { IsTable run.now.logs table.now }
    requires counts { Counts run.now.logs table.now lines.old.items counts.old }
    requires sound { IsSound run.now.logs lines.old.items }
    requires next { IsNextIn run.now.logs table.now lines.old.items class }
    ensures given { OnOk result (IsGiven run.now.logs lines.old.items lines.new.items number) }
    ensures counts { OnOk result (Counts run.now.logs table.now lines.new.items counts.new) }
{
    for (k, log) in run.logs.as_slice().iter().enumerate() {
        let head = head_of(run, table, lines, k, log);
        if is_in_class(head, class) {
            number_head(run, table, lines, counts, k, log, head, number)?;
        }
    }
    Ok(())
}

/// Gives the number to the class of the k-th log's head, which is the next class.
fn give_class(
    run: &Run,
    table: &Table,
    lines: &mut Vec<OpenLine>,
    counts: &mut [u32],
    k: usize,
    head: Head,
    number: u32,
) -> Result<(), AllocError>
    requires table { IsTable run.now.logs table.now }
    requires counts { Counts run.now.logs table.now lines.old.items counts.old }
    requires sound { IsSound run.now.logs lines.old.items }
    requires next { IsNextHead run.now.logs lines.old.items k }
    requires head { IsHead run.now.logs table.now lines.old.items k head }
    ensures given { OnOk result (IsGiven run.now.logs lines.old.items lines.new.items number) }
    ensures counts { OnOk result (Counts run.now.logs table.now lines.new.items counts.new) }
{
    let log = &run.logs.as_slice()[k];
    match head {
        Head::Class(class) => give_heads(run, table, lines, counts, class, number),
        Head::Alone => number_head(run, table, lines, counts, k, log, head, number),
        Head::End => Ok(()),
    }
}

/// Numbers one class after another until none is ready.
pub fn number_by_counts(
    alloc: Global,
    run: &Run,
    table: &Table,
) -> Result<Vec<OpenLine>, AllocError>
    requires table { IsTable run.now.logs table.now }
    ensures sound { IfOk result (λ lines. IsSound run.now.logs lines.items) }
    ensures none { IfOk result (λ lines. NoneReady run.now.logs lines.items) }
{
    let mut lines = started(alloc, run.logs.as_slice())?;
    let mut counts = count_all(alloc, run, table)?;
    let mut number = 0;
    while let Some((k, head)) = first_counted(run, table, &lines, &counts) {
        number += 1;
        give_class(run, table, &mut lines, &mut counts, k, head, number)?;
    }
    Ok(lines)
}
