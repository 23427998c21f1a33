//! The messages for which 5 may be broken, found by walking back along each sender's log for each receiver
//! (docs/SPECIFICATIONS.md, "5 Causal delivery"). Other messages need not be searched as causes.
ghost use Rattle.std.specs.Prelude.{◌≡◌, IfSome, IfNone, IfOk, OnOk, length};
ghost use Rattle.std.specs.Bool.{OnTrue, OnFalse};
ghost use Rattle.totem_pass_d.specs.KnownStays.{AreKnown};
ghost use Rattle.totem_pass_d.specs.Acts.{IsAmong};
ghost use Rattle.totem_pass_d.specs.Suspects.{Handles, HandlesNothing, ComesBefore, ComesNotBefore, IsEarlier, IsNoted, HasAllOf, AreNoted, AreSuspects};

use crate::stays::{Stay, Stays};
use std::alloc::{AllocError, Global};
use std::collections::BTreeSet;
use totem_evs::Entry;
use totem_names::MsgId;

/// Returns the message that this entry sends or delivers.
fn handled(entry: &Entry) -> Option<MsgId>
    ensures found { IfSome result (Handles entry.now) }
    ensures none { IfNone result (HandlesNothing entry.now) }
{
    match entry {
        Entry::Send(message, _, _) | Entry::Deliver(message, _) => Some(*message),
        _ => None,
    }
}

/// Returns whether the receiver delivers the message before this index of its log.
pub fn comes_before(stays: &Stays, receiver: &Stay, message: &MsgId, index: usize) -> bool
    requires known { AreKnown stays.now }
    requires among { IsAmong stays.now.list.items receiver.now }
    ensures there { OnTrue result (ComesBefore stays.now.run.now.logs stays.now.ring receiver.now.proc message.now index) }
    ensures never { OnFalse result (ComesNotBefore stays.now.run.now.logs stays.now.ring receiver.now.proc message.now index) }
{
    match stays.delivery_of(receiver, message) {
        Some(at) => at < index,
        None => false,
    }
}

/// Returns the earlier of this index and the index at which the receiver delivers what the entry sends.
fn earlier(stays: &Stays, receiver: &Stay, entry: &Entry, early: usize) -> usize
    requires known { AreKnown stays.now }
    requires among { IsAmong stays.now.list.items receiver.now }
    ensures { IsEarlier stays.now.run.now.logs stays.now.ring receiver.now.proc entry.now early result }
{
    let Entry::Send(message, _, _) = entry else {
        return early;
    };
    match stays.delivery_of(receiver, message) {
        Some(at) => at.min(early),
        None => early,
    }
}

/// Notes the message that the entry sends or delivers, unless the receiver delivers it before `early`, the index at which it first
/// delivers something that the sender sends later. If it delivers nothing of that, `early` is the end of its stay.
#[tactic(auto, using(crate::proofs::CausalityFaults::noted_before))]
fn note(
    suspects: &mut BTreeSet<MsgId>,
    stays: &Stays,
    receiver: &Stay,
    entry: &Entry,
    early: usize,
) -> Result<(), AllocError>
    requires known { AreKnown stays.now }
    requires among { IsAmong stays.now.list.items receiver.now }
    ensures noted { OnOk result (IsNoted ⟦<MsgId as Ord>⟧.cmp suspects.new stays.now.run.now.logs stays.now.ring receiver.now entry.now early) }
    ensures kept { OnOk result (HasAllOf ⟦<MsgId as Ord>⟧.cmp suspects.new suspects.old) }
{
    if early >= receiver.end {
        return Ok(());
    }
    if let Some(message) = handled(entry) {
        if !comes_before(stays, receiver, &message, early) {
            suspects.insert(message)?;
        }
    }
    Ok(())
}

/// Notes the messages that a sender sent or delivered and that this receiver may deliver too late.
fn note_pair(
    suspects: &mut BTreeSet<MsgId>,
    stays: &Stays,
    sender: &Stay,
    receiver: &Stay,
) -> Result<(), AllocError>
    requires known { AreKnown stays.now }
    requires sender { IsAmong stays.now.list.items sender.now }
    requires receiver { IsAmong stays.now.list.items receiver.now }
    ensures noted { OnOk result (AreNoted ⟦<MsgId as Ord>⟧.cmp suspects.new stays.now.run.now.logs stays.now.ring sender.now receiver.now) }
    ensures kept { OnOk result (HasAllOf ⟦<MsgId as Ord>⟧.cmp suspects.new suspects.old) }
{
    let mut early = receiver.end;
    let mut next = sender.turn;
    'back: while sender.from + 1 < next {
        let at = next - 1;
        let entry = stays.entry_in(sender, at);
        note(suspects, stays, receiver, entry, early)?;
        early = earlier(stays, receiver, entry, early);
        next = at;
    }
    Ok(())
}

/// Returns the messages that some process sent or delivered before it sent another one, and for which some process delivers the other
/// one alone or first. Walks each pair of stays once.
pub fn suspects_of(alloc: Global, stays: &Stays) -> Result<BTreeSet<MsgId>, AllocError>
    requires { AreKnown stays.now }
    ensures { IfOk result (λ suspects. AreSuspects ⟦<MsgId as Ord>⟧.cmp suspects stays.now.run.now.logs stays.now.ring stays.now.list.items (length stays.now.list.items) 0) }
{
    let mut suspects = BTreeSet::new(alloc);
    for sender in &stays.list {
        for receiver in &stays.list {
            note_pair(&mut suspects, stays, sender, receiver)?;
        }
    }
    Ok(suspects)
}
