//! What a run leaves open (docs/SPECIFICATIONS.md, "Pending and waiting").
ghost use Rattle.std.specs.Prelude.{◌≡◌, ◌↔◌, IsTrue, IfOk, OnOk};
ghost use Rattle.totem_evs.specs.Events.{log_of};
ghost use Rattle.totem_evs.specs.Unsettled.{EndsIn, ArePending, AreWaiting};
ghost use Rattle.totem_search.specs.Adding.{Adds};
ghost use Rattle.totem_plain.specs.Gathered.{Misses, WaitsFor, GivesPending, GivesWaiting, sent_in};

use crate::all_logs::{is_open_in, log_of};
use crate::gathered::{Gathered, all_given};
use crate::one_log::{ends_in, has_delivered, never_fails};
use std::alloc::{AllocError, Global};
use totem_evs::{Entry, Pending, Run, Waiting};
use totem_names::{ConfId, MsgId, Proc, RingId};

/// Returns the message that an entry sends in a regular configuration, and its ring.
fn sent_in(entry: &Entry) -> Option<(RingId, MsgId)>
    ensures { result ≡ sent_in entry.now }
{
    match entry {
        Entry::Send(msg, ConfId::Regular(ring), _) => Some((*ring, *msg)),
        _ => None,
    }
}

/// Returns whether the process is open in the regular configuration, and has not delivered the message.
fn misses(run: &Run, proc: Proc, ring: &RingId, msg: &MsgId) -> bool
    ensures { IsTrue result ↔ Misses run.now.logs proc ring.now msg.now }
{
    is_open_in(run, proc, ring) && !has_delivered(log_of(run, proc), ring, msg)
}

impl Gathered for Pending {
    ghost gives = { GivesPending };

    fn add(
        list: &mut Vec<Pending>,
        run: &Run,
        proc: Proc,
        entry: &Entry,
    ) -> Result<(), AllocError> {
        let Some((ring, msg)) = sent_in(entry) else {
            return Ok(());
        };
        if !misses(run, proc, &ring, &msg) {
            return Ok(());
        }
        list.push(Pending { proc, msg })?;
        Ok(())
    }
}

/// Returns all that is pending, by process and then by message.
pub fn pending(alloc: Global, run: &Run) -> Result<Vec<Pending>, AllocError>
    ensures { IfOk result (λ list. ArePending run.now.logs list.items) }
{
    all_given(alloc, run)
}

/// Returns whether the process has not failed, and its last change is to this configuration.
fn is_in(run: &Run, proc: Proc, conf: &ConfId) -> bool
    ensures { IsTrue result ↔ EndsIn (log_of run.now.logs proc) conf.now }
{
    let log = log_of(run, proc);
    never_fails(log) && ends_in(log, conf)
}

/// Adds a member of a configuration, if the process waits for it.
fn add_member(
    list: &mut Vec<Waiting>,
    run: &Run,
    proc: Proc,
    conf: &ConfId,
    other: Proc,
) -> Result<(), AllocError>
    ensures { OnOk result (Adds (WaitsFor run.now.logs proc conf.now other) list.old.items list.new.items) }
{
    if !is_in(run, proc, conf) || is_in(run, other, conf) {
        return Ok(());
    }
    let conf = *conf;
    list.push(Waiting { proc, conf, other })?;
    Ok(())
}

impl Gathered for Waiting {
    ghost gives = { GivesWaiting };

    fn add(
        list: &mut Vec<Waiting>,
        run: &Run,
        proc: Proc,
        entry: &Entry,
    ) -> Result<(), AllocError> {
        let Entry::Conf(conf, members) = entry else {
            return Ok(());
        };
        for other in members.as_slice() {
            add_member(list, run, proc, conf, *other)?;
        }
        Ok(())
    }
}

/// Returns which processes wait, and for which, by process, configuration and other process.
pub fn waiting(alloc: Global, run: &Run) -> Result<Vec<Waiting>, AllocError>
    ensures { IfOk result (λ list. AreWaiting run.now.logs list.items) }
{
    all_given(alloc, run)
}
