//! The stays in one regular configuration, each the part of a log in it and in what follows it, and what was sent and delivered there.
ghost use Rattle.std.specs.Prelude.{◌≡◌, ◌↔◌, ◌<◌, ◌≤◌, IsTrue, IfSome, IfNone, IfOk, OnOk, Some, All, length, slice_get};
ghost use Rattle.totem_evs.specs.Events.{log_of};
ghost use Rattle.std.specs.Bool.{OnTrue, OnFalse};
ghost use Rattle.totem_evs.specs.Following.{DeliversIn, HasDelivered};
ghost use Rattle.totem_evs.specs.Missing.{members_of};
ghost use Rattle.totem_pass_d.specs.Stays.{IsExcused, IsStayFrom, IsShortStay};
ghost use Rattle.totem_pass_d.specs.Sends.{NotesSends, HasSends};
ghost use Rattle.totem_pass_d.specs.KnownStays.{AreKnown};
ghost use Rattle.totem_pass_d.specs.Search.{IsInside};
ghost use Rattle.totem_pass_d.specs.Reached.{IsSafeIn, AreMembersAt, AreMembersAfter};
ghost use Rattle.totem_pass_d.specs.Acts.{IsAmong, NeverComes, DeliversNot, IsSendingOf, NobodySent};

use crate::indexes::Indexes;
use std::alloc::{AllocError, Global};
use std::collections::BTreeMap;
use totem_evs::{Ending, Entry, Log, Run};
use totem_judge_run::walk_to_change;
use totem_names::{MsgId, Proc, RingId, Service};

/// The stay of a process. Its log changes to the regular configuration at `from` and to what follows that at `turn`; the entries
/// before `end` are in these two. If nothing follows, `turn` is `end`. A quiet log claims that nothing more was to come
/// after it.
#[derive(Drop)]
pub struct Stay<'r> {
    pub proc: Proc,
    pub log: &'r [Entry],
    pub quiet: bool,
    pub from: usize,
    pub turn: usize,
    pub end: usize,
    pub deliveries: Indexes,
}

impl Stay<'_> {
    /// Returns whether the stay extends to the end of a log that is not quiet: the process failed there, or it is open.
    pub fn is_excused(&self) -> bool
        ensures { IsTrue result ↔ IsExcused self.now }
    {
        self.end == self.log.len() && !self.quiet
    }
}

/// Returns the part of a log from this index up to the change after the next one.
pub fn stay_from(alloc: Global, log: &Log, from: usize) -> Result<Stay<'_>, AllocError>
    requires within { from < length log.now.entries }
    requires few { length log.now.entries ≤ 1000000 }
    ensures { IfOk result (IsStayFrom log.now from) }
{
    let entries = log.entries.as_slice();
    let turn = walk_to_change(entries, from);
    let end = if turn < entries.len() {
        walk_to_change(entries, turn)
    } else {
        turn
    };
    Ok(Stay {
        proc: log.proc,
        log: entries,
        quiet: log.ending == Ending::Quiet,
        from,
        turn,
        end,
        deliveries: Indexes::of(alloc, entries, from, end)?,
    })
}

/// A send: its process, the index in the log, and the service.
#[derive(Clone, Copy)]
pub struct Sending {
    pub proc: Proc,
    pub at: usize,
    pub service: Service,
}

/// The stays of a run that meets the specifications of the first two passes, by process, and what they send in the regular configuration.
#[derive(Drop)]
pub struct Stays<'r> {
    pub run: &'r Run,
    pub ring: RingId,
    pub list: Vec<Stay<'r>>,
    pub sends: BTreeMap<MsgId, Sending>,
}

fn is_safe_service(service: Service) -> bool
    ensures { IsTrue result ↔ (service ≡ Service.Safe) }
{
    matches!(service, Service::Safe)
}

/// Returns the members of a change.
pub fn members_of(entry: &Entry) -> &[Proc]
    ensures { result.now ≡ members_of entry.now }
{
    match entry {
        Entry::Conf(_, members) => members.as_slice(),
        _ => &[],
    }
}

/// Notes what the process of this stay sends in the regular configuration.
fn note_sends(sends: &mut BTreeMap<MsgId, Sending>, stay: &Stay) -> Result<(), AllocError>
    requires { IsShortStay stay.now }
    ensures { OnOk result (NotesSends stay.now stay.now.turn sends.old sends.new) }
{
    for at in stay.from + 1..stay.turn {
        if let Entry::Send(message, _, service) = &stay.log[at] {
            let (proc, service) = (stay.proc, *service);
            sends.insert(*message, Sending { proc, at, service })?;
        }
    }
    Ok(())
}

/// Returns what the processes of these stays send in the regular configuration.
pub fn sends_of(alloc: Global, list: &[Stay]) -> Result<BTreeMap<MsgId, Sending>, AllocError>
    requires { All IsShortStay list.now }
    ensures { IfOk result (HasSends list.now (length list.now)) }
{
    let mut sends = BTreeMap::new(alloc);
    for stay in list {
        note_sends(&mut sends, stay)?;
    }
    Ok(sends)
}

impl<'r> Stays<'r> {
    /// Returns the stay of this process, if its log changes to the regular configuration.
    pub fn stay_of(&self, proc: Proc) -> Option<&Stay<'r>>
        requires { AreKnown self.now }
        ensures found { IfSome result (λ stay. IsAmong self.now.list.items stay.now) }
        ensures proc { IfSome result (λ stay. stay.now.proc ≡ proc) }
        ensures none { IfNone result (NeverComes self.now.run.now.logs self.now.ring proc) }
    {
        for stay in &self.list {
            if stay.proc == proc {
                return Some(stay);
            }
        }
        None
    }

    /// Returns the index at which the process of this stay delivers the message, in the regular configuration or in what follows it.
    pub fn delivery_of(&self, stay: &Stay, message: &MsgId) -> Option<usize>
        requires known { AreKnown self.now }
        requires among { IsAmong self.now.list.items stay.now }
        ensures found { IfSome result (DeliversIn (log_of self.now.run.now.logs stay.now.proc) self.now.ring message.now) }
        ensures none { IfNone result (DeliversNot (log_of self.now.run.now.logs stay.now.proc) self.now.ring message.now) }
    {
        stay.deliveries
            .index_of(stay.log, stay.from, stay.end, message)
    }

    /// Returns whether the process of this stay delivers the message there.
    pub fn delivers(&self, stay: &Stay, message: &MsgId) -> bool
        requires known { AreKnown self.now }
        requires among { IsAmong self.now.list.items stay.now }
        ensures there { OnTrue result (HasDelivered (log_of self.now.run.now.logs stay.now.proc) self.now.ring message.now) }
        ensures never { OnFalse result (DeliversNot (log_of self.now.run.now.logs stay.now.proc) self.now.ring message.now) }
    {
        self.delivery_of(stay, message).is_some()
    }

    /// Returns the send of the message in the regular configuration, if it was sent there.
    pub fn send_of(&self, message: &MsgId) -> Option<Sending>
        requires { AreKnown self.now }
        ensures found { IfSome result (IsSendingOf self.now.run.now.logs self.now.ring message.now) }
        ensures none { IfNone result (NobodySent self.now.run.now.logs self.now.ring message.now) }
    {
        self.sends.get(message).copied()
    }

    /// Returns whether the message was sent in the regular configuration as a safe one.
    pub fn is_safe(&self, message: &MsgId) -> bool
        requires { AreKnown self.now }
        ensures { IsTrue result ↔ IsSafeIn self.now.run.now.logs self.now.ring message.now }
    {
        match self.send_of(message) {
            Some(sending) => is_safe_service(sending.service),
            None => false,
        }
    }

    /// Returns the members of the configuration that the entry at this index is in.
    pub fn members_at<'s>(&self, stay: &'s Stay<'r>, at: usize) -> &'s [Proc]
        requires known { AreKnown self.now }
        requires among { IsAmong self.now.list.items stay.now }
        requires inside { IsInside stay.now at }
        ensures { AreMembersAt (log_of self.now.run.now.logs stay.now.proc) at result.now }
    {
        let change = if at < stay.turn { stay.from } else { stay.turn };
        members_of(&stay.log[change])
    }

    /// Returns the members of what follows the regular configuration in this stay; if nothing follows, none.
    pub fn members_after<'s>(&self, stay: &'s Stay<'r>) -> &'s [Proc]
        requires known { AreKnown self.now }
        requires among { IsAmong self.now.list.items stay.now }
        ensures { AreMembersAfter (log_of self.now.run.now.logs stay.now.proc) stay.now.turn stay.now.end result.now }
    {
        if stay.turn >= stay.end {
            return &[];
        }
        members_of(&stay.log[stay.turn])
    }

    /// Returns the entry at this index of a stay.
    pub fn entry_in<'l>(&self, stay: &Stay<'l>, at: usize) -> &'l Entry
        requires known { AreKnown self.now }
        requires among { IsAmong self.now.list.items stay.now }
        requires inside { IsInside stay.now at }
        ensures { slice_get (log_of self.now.run.now.logs stay.now.proc) at ≡ Some result.now }
    {
        &stay.log[at]
    }
}
