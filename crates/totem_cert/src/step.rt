//! The step of a class that has no number: from what holds it up to its first entry that is held up.
ghost use Rattle.std.specs.Prelude.{◌≡◌, if◌then◌else◌, length, slice_get};
ghost use Rattle.std.specs.Option.{option_copied};
ghost use Rattle.totem_evs.specs.Events.{log_of};
ghost use Rattle.totem_evs.specs.Certificates.{numbers_of};
ghost use Rattle.totem_evs.specs.Runs.{IsRun};
ghost use Rattle.totem_evs.specs.ClosedLists.{IsLeft, IsStepOf};
ghost use Rattle.totem_table.specs.Tables.{IsTable};
ghost use Rattle.totem_cert.specs.Firsts.{AreFirstsOf};
ghost use Rattle.totem_cert.specs.Progress.{Fits, IsClassOf, IsHeldBy, IsLogOf, IsSound, NoneReady};

use crate::counts::class_next;
use crate::firsts::{Firsts, given_at};
use std::alloc::{AllocError, Global};
use std::marker::Model;
use totem_certificate::OpenLine;
use totem_evs::{Entry, Run};
use totem_names::{Place, Proc};
use totem_table::Table;

/// A step to an entry, from the one that holds it up.
#[derive(Clone, Copy)]
pub struct Step {
    pub from: Place,
    pub to: Place,
}

impl Model for Step {
    ghost use Rattle.totem_evs.specs.ClosedLists as lists;

    ghost Value = { lists.Step };

    ghost view = { λ v. record { from = v.from; to = v.to } };

    ghost inverse = { λ v. record { from = v.from; to = v.to } };
}

/// Returns the index of a process's log.
fn index_of_log(run: &Run, proc: Proc) -> Option<usize>
    ensures log { IsLogOf run.now.logs proc result }
    ensures run { IsRun run.now.logs }
{
    for (k, log) in run.logs.as_slice().iter().enumerate() {
        if log.proc == proc {
            return Some(k);
        }
    }
    None
}

/// Returns the entry at an index of a process's log.
pub fn entry_at(run: &Run, proc: Proc, at: usize) -> Option<&Entry>
    ensures { option_copied result ≡ slice_get (log_of run.now.logs proc) at }
{
    let Some(k) = index_of_log(run, proc) else {
        return None;
    };
    let log = &run.logs.as_slice()[k];
    let entries = log.entries.as_slice();
    if at < entries.len() {
        Some(&entries[at])
    } else {
        None
    }
}

/// Returns the class of an event, or `None` if it is alone in its class.
fn class_of(run: &Run, table: &Table, e: &Place) -> Option<usize>
    requires { IsTable run.now.logs table.now }
    ensures class { IsClassOf run.now.logs table.now e.now result }
    ensures run { IsRun run.now.logs }
{
    let at = e.at as usize - 1;
    let Some(k) = index_of_log(run, e.proc) else {
        return None;
    };
    let log = &run.logs.as_slice()[k];
    let entries = log.entries.as_slice();
    let row = table.rows[k].as_slice();
    let kinds = table.kinds[k].as_slice();
    class_next(table.messages.len(), entries, kinds, row, at)
}

/// Returns how many entries of a process's log have a number.
fn given(run: &Run, lines: &[OpenLine], proc: Proc) -> usize
    requires { Fits run.now.logs lines.now }
    ensures { result ≡ length (numbers_of lines.now proc) }
{
    match index_of_log(run, proc) {
        Some(k) => given_at(lines, k),
        None => 0,
    }
}

/// Returns the step to an entry from what holds it up: the entry before it, or the send.
fn step_to(run: &Run, lines: &[OpenLine], send: Option<Place>, to: &Place) -> Step
    requires { Fits run.now.logs lines.now }
    ensures to { result.to ≡ to.now }
    ensures from { IsHeldBy lines.now send to.now result.from }
{
    let before = to.at - 1;
    if given(run, lines, to.proc) < before as usize {
        Step {
            from: Place {
                proc: to.proc,
                at: before,
            },
            to: *to,
        }
    } else {
        Step {
            from: send.unwrap_or(*to),
            to: *to,
        }
    }
}

/// Returns the first entry of a class that is held up: its first one if it waits for a send.
fn first_held(waits: bool, member: Option<Place>, follower: Option<Place>) -> Option<Place>
    ensures { result ≡ (if waits then member else follower) }
{
    if waits { member } else { follower }
}

/// Returns the step to the class of an event that has no number.
pub fn step_of(run: &Run, table: &Table, lines: &[OpenLine], firsts: &Firsts, left: &Place) -> Step
    requires table { IsTable run.now.logs table.now }
    requires firsts { AreFirstsOf run.now.logs table.now lines.now firsts.now }
    requires sound { IsSound run.now.logs lines.now }
    requires none { NoneReady run.now.logs lines.now }
    requires left { IsLeft run.now.logs left.now }
    ensures { IsStepOf run.now.logs left.now result }
{
    let Some(class) = class_of(run, table, left) else {
        return step_to(run, lines, None, left);
    };
    let send = firsts.sends[class];
    let member = firsts.members[class];
    let follower = firsts.followers[class];
    match first_held(send.is_some(), member, follower) {
        Some(to) => step_to(run, lines, send, &to),
        None => Step {
            from: *left,
            to: *left,
        },
    }
}
