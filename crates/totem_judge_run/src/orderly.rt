//! The rules that a run has to meet before its configurations are observed: 1.4, and 2.2 to 2.4, in one walk along each log.
ghost use Rattle.std.specs.Prelude.{◌≡◌, IfOk};
ghost use Rattle.std.specs.Bool.{OnTrue};
ghost use Rattle.totem_evs.specs.Answers.{HasCertificate};
ghost use Rattle.totem_judge_run.specs.Orderly.{IsOrderly};
ghost use Rattle.totem_judge_run.specs.Walked.{IsWalked, last_after};

use crate::changes_2_3::enter;
use crate::first_changes::FirstChanges;
use crate::misplaced_2_2::{fits, go_past};
use crate::once_1_4::{add_send, are_distinct};
use std::alloc::{AllocError, Global};
use totem_evs::{Entry, Log, Run};
use totem_names::MsgId;

/// Returns the index of the last change, once the entry at `at` has been passed.
fn last_after(before: Option<usize>, at: usize, entry: &Entry) -> Option<usize>
    ensures { result ≡ last_after before at entry.now }
{
    match entry {
        Entry::Conf(_, _) => Some(at),
        _ => before,
    }
}

/// Walks along a log. Appends the messages that it sends, and enters its changes. Returns `true` only if each entry is allowed where it is.
fn walk<'a>(
    log: &'a Log,
    sent: &mut Vec<MsgId>,
    firsts: &mut FirstChanges<'a>,
) -> Result<bool, AllocError>
    ensures { IfOk result (λ ok. OnTrue ok (IsWalked sent.old.items sent.new.items firsts.old firsts.new log.now)) }
{
    let entries = log.entries.as_slice();
    let mut standing = None;
    let mut failed = false;
    let mut before = None;
    for at in 0..entries.len() {
        let entry = &entries[at];
        let good = fits(&standing, entry);
        if failed || !good {
            return Ok(false);
        }
        if let Entry::Deliver(_, _) = entry {
            continue;
        }
        if !add_send(sent, entry)? || !enter(firsts, log, at, before)? {
            return Ok(false);
        }
        go_past(&mut standing, entry);
        failed = entry.is_failure();
        before = last_after(before, at, entry);
    }
    Ok(true)
}

/// Returns `true` only if a run that has a certificate meets 1.4 and 2.2 to 2.4.
pub fn is_orderly(alloc: Global, run: &Run) -> Result<bool, AllocError>
    requires { HasCertificate run.now.logs }
    ensures { IfOk result (λ ok. OnTrue ok (IsOrderly run.now.logs)) }
{
    let mut sent = Vec::new(alloc);
    let mut firsts = FirstChanges::new(alloc);
    for log in run.logs.as_slice() {
        if !walk(log, &mut sent, &mut firsts)? {
            return Ok(false);
        }
    }
    if !firsts.are_each_once()? {
        return Ok(false);
    }
    are_distinct(sent)
}
