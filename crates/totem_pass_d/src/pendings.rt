//! What is pending in a run (docs/SPECIFICATIONS.md, "Pending and waiting").
ghost use Rattle.std.specs.Prelude.{◌≡◌, ◌↔◌, IsTrue, IfOk, OnOk};
ghost use Rattle.std.specs.BTreeMap as tree;
ghost use Rattle.totem_evs.specs.Following.{OpenIn};
ghost use Rattle.totem_evs.specs.Unsettled.{ArePending};
ghost use Rattle.totem_pass_d.specs.Acts.{IsAmong};
ghost use Rattle.totem_pass_d.specs.Jobs.{AreJobs};
ghost use Rattle.totem_pass_d.specs.KnownStays.{AreKnown};
ghost use Rattle.totem_search.specs.Adding.{Adds};
ghost use Rattle.totem_pass_d.specs.Pendings.{IsPendingIn, IsPendingFor};

use crate::jobs::Jobs;
use crate::stays::{Stay, Stays};
use std::alloc::{AllocError, Global};
use totem_evs::Pending;
use totem_judge_run::{has_failed, in_order};
use totem_names::MsgId;

/// Returns whether the process of this stay is open in it.
fn is_open(stays: &Stays, stay: &Stay) -> bool
    requires known { AreKnown stays.now }
    requires among { IsAmong stays.now.list.items stay.now }
    ensures { IsTrue result ↔ OpenIn stays.now.run.now.logs stay.now.proc stays.now.ring }
{
    stay.is_excused() && !has_failed(stay.log)
}

/// Returns the messages that are sent in one configuration.
fn sent_in(alloc: Global, stays: &Stays) -> Result<Vec<MsgId>, AllocError>
    ensures { IfOk result (λ sent. sent.items ≡ tree.keys stays.now.sends) }
{
    let mut sent = Vec::new(alloc);
    for message in stays.sends.keys() {
        sent.push(*message)?;
    }
    Ok(sent)
}

/// Adds what is pending for the process of this stay, of the messages that are sent in the configuration.
fn add_missing(
    list: &mut Vec<Pending>,
    stays: &Stays,
    stay: &Stay,
    sent: &[MsgId],
) -> Result<(), AllocError>
    requires known { AreKnown stays.now }
    requires among { IsAmong stays.now.list.items stay.now }
    requires sent { sent.now ≡ tree.keys stays.now.sends }
    ensures { OnOk result (Adds (IsPendingFor stays.now.run.now.logs stays.now.ring stay.now.proc) list.old.items list.new.items) }
{
    if !is_open(stays, stay) {
        return Ok(());
    }
    let proc = stay.proc;
    for message in sent {
        if !stays.delivers(stay, message) {
            let msg = *message;
            list.push(Pending { proc, msg })?;
        }
    }
    Ok(())
}

/// Adds what is pending in one configuration.
fn add_pending(alloc: Global, list: &mut Vec<Pending>, stays: &Stays) -> Result<(), AllocError>
    requires { AreKnown stays.now }
    ensures { OnOk result (Adds (IsPendingIn stays.now.run.now.logs stays.now.ring) list.old.items list.new.items) }
{
    let sent = sent_in(alloc, stays)?;
    for stay in &stays.list {
        add_missing(list, stays, stay, &sent)?;
    }
    Ok(())
}

/// Returns all that is pending in the run of these jobs, by process and then by message.
pub fn pending_of(alloc: Global, jobs: &Jobs<'_>) -> Result<Vec<Pending>, AllocError>
    requires { AreJobs jobs.now.run.now.logs jobs.now }
    ensures { IfOk result (λ list. ArePending jobs.now.run.now.logs list.items) }
{
    let mut list = Vec::new(alloc);
    for ring in &jobs.rings {
        let stays = jobs.comings.stays(alloc, jobs.run, *ring)?;
        add_pending(alloc, &mut list, &stays)?;
    }
    in_order(list)
}
