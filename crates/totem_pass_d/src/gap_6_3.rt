//! 6.3: a process that delivers a later message delivers the earlier one too, if its sender is still a member (docs/SPECIFICATIONS.md, "6
//! Total order", "Passes"). This is the search, which names what breaks it. The rule, which is tried first, is totem_judge_traffic `gap_6_3`.
ghost use Rattle.std.specs.Prelude.{◌≡◌, ◌↔◌, ◌<◌, ◌≤◌, IsTrue, IfOk, MatchOption, Contains};
ghost use Rattle.std.specs.Bool.{OnTrue, OnFalse};
ghost use Rattle.totem_search.specs.Search.{NoneFrom, IsLeastFrom, IsOneEvent};
ghost use Rattle.totem_evs.specs.AgreementFaults.{BreaksGapIn};
ghost use Rattle.totem_evs.specs.RingFaults.{MeetsIn};
ghost use Rattle.totem_evs.specs.Answers.{FindsIn};
ghost use Rattle.totem_pass_d.specs.KnownStays.{AreKnown};
ghost use Rattle.totem_pass_d.specs.Acts.{IsAmong};
ghost use Rattle.totem_pass_d.specs.Search.{IsInside, NoneWithin};
ghost use Rattle.totem_pass_d.specs.Searched.{IsLater, IsApart, IsBeyond, HasPassed, IsLast, AreLasts, KeepsUp, AllKeepUp, IsLack};

use crate::search::{EachIndex, Finder, Relation, first_found, least_found, only};
use crate::stays::{Stay, Stays};
use crate::suspects::comes_before;
use std::alloc::{AllocError, Global};
use totem_evs::{Entry, SpecNo};
use totem_names::{MsgId, Proc};
use totem_search::{FoundList, FoundPlaces, begin_at};

fn is_among(members: &[Proc], proc: Proc) -> bool
    ensures { IsTrue result ↔ Contains members.now proc }
{
    members.contains(&proc)
}

/// The deliveries of a later message by processes that do not deliver the earlier one, although its sender is a member.
#[derive(Clone, Copy)]
struct Lacks<'s, 'r, 'm> {
    stays: &'s Stays<'r>,
    sender: Proc,
    earlier: &'m MsgId,
    later: &'m MsgId,
}

impl Finder for Lacks<'_, '_, '_> {
    ghost among = { λ l. l.stays.now };

    ghost reaches = { λ l. IsInside };

    ghost holds = { λ l. IsOneEvent (IsLack l.stays.now.run.now.logs l.stays.now.ring l.sender l.earlier.now l.later.now) };

    fn find_in(&self, alloc: Global, stay: &Stay) -> FoundList {
        let Some(at) = self.stays.delivery_of(stay, self.later) else {
            return Ok(None);
        };
        if self.stays.delivers(stay, self.earlier) {
            return Ok(None);
        }
        if !is_among(self.stays.members_at(stay, at), self.sender) {
            return Ok(None);
        }
        Ok(Some(only(alloc, stay.proc, at)?))
    }
}

/// The deliveries after the delivery of an earlier message.
#[derive(Clone, Copy)]
struct Later<'s, 'r, 'm> {
    stays: &'s Stays<'r>,
    sender: Proc,
    earlier: &'m MsgId,
    at: usize,
}

impl Relation for Later<'_, '_, '_> {
    ghost among = { λ l. l.stays.now };

    ghost holds = { λ l. IsLater l.stays.now.run.now.logs l.stays.now.ring l.sender l.earlier.now l.at };

    fn rest(&self, alloc: Global, stay: &Stay, at: usize) -> FoundList {
        if at <= self.at {
            return Ok(None);
        }
        let Entry::Deliver(later, _) = self.stays.entry_in(stay, at) else {
            return Ok(None);
        };
        let lacks = Lacks {
            stays: self.stays,
            sender: self.sender,
            earlier: self.earlier,
            later,
        };
        first_found(&lacks, alloc, self.stays)
    }
}

/// Two indices of a leader's log: after `regular` the leader delivers nothing that a follower delivers in the regular configuration, and
/// after `following` nothing that the follower delivers in what follows that.
#[derive(Clone, Copy)]
struct Last {
    regular: usize,
    following: usize,
}

/// Returns whether the entry at this index of the leader's stay delivers a message that the follower delivers before `until`.
fn is_common(stays: &Stays, leader: &Stay, follower: &Stay, until: usize, at: usize) -> bool
    requires known { AreKnown stays.now }
    requires leader { IsAmong stays.now.list.items leader.now }
    requires follower { IsAmong stays.now.list.items follower.now }
    requires inside { IsInside leader.now at }
    ensures { OnFalse result (IsApart stays.now.run.now.logs stays.now.ring leader.now.proc follower.now.proc until at) }
{
    match stays.entry_in(leader, at) {
        Entry::Deliver(message, _) => comes_before(stays, follower, message, until),
        _ => false,
    }
}

/// Returns an index after which the leader delivers nothing that the follower delivers before `until`.
fn last_common(stays: &Stays, leader: &Stay, follower: &Stay, until: usize) -> usize
    requires known { AreKnown stays.now }
    requires leader { IsAmong stays.now.list.items leader.now }
    requires follower { IsAmong stays.now.list.items follower.now }
    ensures { IsBeyond stays.now.run.now.logs stays.now.ring leader.now.proc follower.now.proc until result }
{
    let mut next = leader.end;
    'back: while leader.from + 1 < next {
        let at = next - 1;
        if is_common(stays, leader, follower, until, at) {
            return at;
        }
        next = at;
    }
    leader.from
}

/// Returns an index after which the leader delivers nothing that the follower delivers in what follows the regular configuration.
fn last_following(stays: &Stays, leader: &Stay, follower: &Stay) -> usize
    requires known { AreKnown stays.now }
    requires leader { IsAmong stays.now.list.items leader.now }
    requires follower { IsAmong stays.now.list.items follower.now }
    ensures { HasPassed stays.now.run.now.logs stays.now.ring leader.now.proc follower.now follower.now.end result }
{
    let mut last = leader.from;
    for at in follower.turn..follower.end {
        let Entry::Deliver(message, _) = stays.entry_in(follower, at) else {
            continue;
        };
        last = last.max(stays.delivery_of(leader, message).unwrap_or(last));
    }
    last
}

/// Returns these two indices for a follower. If `roughly`, both are that of the last message that the two have in common.
fn last_of(stays: &Stays, leader: &Stay, follower: &Stay, roughly: bool) -> Last
    requires known { AreKnown stays.now }
    requires leader { IsAmong stays.now.list.items leader.now }
    requires follower { IsAmong stays.now.list.items follower.now }
    ensures { IsLast stays.now.run.now.logs stays.now.ring leader.now.proc follower.now result }
{
    if roughly {
        let common = last_common(stays, leader, follower, follower.end);
        return Last {
            regular: common,
            following: common,
        };
    }
    let regular = last_common(stays, leader, follower, follower.turn);
    let following = last_following(stays, leader, follower);
    Last { regular, following }
}

/// Returns these indices for each follower, in the order of the stays.
fn lasts_of(
    alloc: Global,
    stays: &Stays,
    leader: &Stay,
    roughly: bool,
) -> Result<Vec<Last>, AllocError>
    requires known { AreKnown stays.now }
    requires among { IsAmong stays.now.list.items leader.now }
    ensures { IfOk result (λ lasts. AreLasts stays.now.run.now.logs stays.now.ring stays.now.list.items leader.now.proc lasts.items) }
{
    let mut lasts = Vec::new(alloc);
    for follower in &stays.list {
        lasts.push(last_of(stays, leader, follower, roughly))?;
    }
    Ok(lasts)
}

/// Returns `true` only if the follower delivers the leader's message or, where its sender is a member, delivers nothing that the leader
/// delivers later.
fn keeps_up(
    stays: &Stays,
    leader: &Stay,
    follower: &Stay,
    last: Last,
    message: &MsgId,
    at: usize,
) -> bool
    requires known { AreKnown stays.now }
    requires follower { IsAmong stays.now.list.items follower.now }
    requires last { IsLast stays.now.run.now.logs stays.now.ring leader.now.proc follower.now last }
    ensures { OnTrue result (KeepsUp stays.now.run.now.logs stays.now.ring leader.now.proc message.now at follower.now) }
{
    if last.regular > at {
        return stays.delivers(follower, message);
    }
    if last.following <= at || stays.delivers(follower, message) {
        return true;
    }
    match stays.send_of(message) {
        Some(sending) => !is_among(stays.members_after(follower), sending.proc),
        None => false,
    }
}

/// Returns `true` only if all followers keep up with the leader's message.
fn all_keep_up(stays: &Stays, leader: &Stay, lasts: &[Last], message: &MsgId, at: usize) -> bool
    requires known { AreKnown stays.now }
    requires lasts { AreLasts stays.now.run.now.logs stays.now.ring stays.now.list.items leader.now.proc lasts.now }
    ensures { OnTrue result (AllKeepUp stays.now.run.now.logs stays.now.ring stays.now.list.items leader.now.proc message.now at) }
{
    for (k, follower) in stays.list.iter().enumerate() {
        if !keeps_up(stays, leader, follower, lasts[k], message, at) {
            return false;
        }
    }
    true
}

/// Returns `true` only if all followers keep up with each message that the leader delivers. Then no gap starts in the leader's stay.
fn always_keep_up(stays: &Stays, leader: &Stay, lasts: &[Last]) -> bool
    requires known { AreKnown stays.now }
    requires among { IsAmong stays.now.list.items leader.now }
    requires lasts { AreLasts stays.now.run.now.logs stays.now.ring stays.now.list.items leader.now.proc lasts.now }
    ensures { OnTrue result (NoneWithin IsInside (BreaksGapIn stays.now.run.now.logs stays.now.ring) leader.now) }
{
    for at in leader.from + 1..leader.end {
        let Entry::Deliver(message, _) = stays.entry_in(leader, at) else {
            continue;
        };
        if !all_keep_up(stays, leader, lasts, message, at) {
            return false;
        }
    }
    true
}

/// The deliveries of earlier messages.
#[derive(Clone, Copy)]
struct Gaps<'s, 'r> {
    stays: &'s Stays<'r>,
}

impl Gaps<'_, '_> {
    /// Returns the rest of the least gap that starts at this index of the leader's stay.
    fn rest_at(&self, alloc: Global, leader: &Stay, lasts: &[Last], at: usize) -> FoundList
        requires known { AreKnown self.now.stays.now }
        requires among { IsAmong self.now.stays.now.list.items leader.now }
        requires inside { IsInside leader.now at }
        requires lasts { AreLasts self.now.stays.now.run.now.logs self.now.stays.now.ring self.now.stays.now.list.items leader.now.proc lasts.now }
        ensures { IfOk result (λ found. MatchOption found
            (NoneFrom (BreaksGapIn self.now.stays.now.run.now.logs self.now.stays.now.ring) leader.now.proc at)
            (λ rest. IsLeastFrom (BreaksGapIn self.now.stays.now.run.now.logs self.now.stays.now.ring) leader.now.proc at rest.items)) }
    {
        let stays = self.stays;
        let Entry::Deliver(earlier, _) = stays.entry_in(leader, at) else {
            return Ok(None);
        };
        if all_keep_up(stays, leader, lasts, earlier, at) {
            return Ok(None);
        }
        let Some(sending) = stays.send_of(earlier) else {
            return Ok(None);
        };
        let later = Later {
            stays,
            sender: sending.proc,
            earlier,
            at,
        };
        let finder = EachIndex { relation: &later };
        finder.find_in(alloc, leader)
    }
}

impl Finder for Gaps<'_, '_> {
    ghost among = { λ g. g.stays.now };

    ghost reaches = { λ g. IsInside };

    ghost holds = { λ g. BreaksGapIn g.stays.now.run.now.logs g.stays.now.ring };

    fn find_in(&self, alloc: Global, stay: &Stay) -> FoundList {
        // The rough look is cheaper, and mostly enough.
        let rough = lasts_of(alloc, self.stays, stay, true)?;
        if always_keep_up(self.stays, stay, &rough) {
            return Ok(None);
        }
        let lasts = lasts_of(alloc, self.stays, stay, false)?;
        for at in stay.from + 1..stay.end {
            if let Some(rest) = self.rest_at(alloc, stay, &lasts, at)? {
                return Ok(Some(begin_at(stay.proc, at, rest)?));
            }
        }
        Ok(None)
    }
}

/// Returns the least events that break 6.3 in this configuration. None is searched for where it is known to be met.
pub fn find(alloc: Global, stays: &Stays, is_met: bool) -> FoundPlaces
    requires known { AreKnown stays.now }
    requires met { OnTrue is_met (MeetsIn stays.now.run.now.logs stays.now.ring SpecNo.Gap) }
    ensures { IfOk result (FindsIn stays.now.run.now.logs stays.now.ring SpecNo.Gap) }
{
    if is_met {
        return Ok(None);
    }
    least_found(&Gaps { stays }, alloc, stays)
}
