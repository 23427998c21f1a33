//! Tests whether the lists of a configuration and the entries of a stay agree.
ghost use Rattle.std.specs.Prelude.{◌≤◌, ◌<◌, length};
ghost use Rattle.std.specs.Bool.{OnTrue};
ghost use Rattle.totem_judge.specs.Lists.{AreSkipped, AreUnsent, AreSentIn, IsSendOf, IsThere, IsDeliveryOf, IsOriginAt, AreAsListed};
ghost use Rattle.totem_judge.specs.Seen.{IsReplayed};

use crate::gathered::{Gathered, Stay};
use crate::stay::is_bounded;
use totem_certificate::Line;
use totem_evs::{Entry, Log};
use totem_judge_traffic::{Got, Sent};
use totem_names::{ConfId, MsgId, RingId, Service};

/// Returns the index of the next message that this log sends, or the length of the list if there is none.
fn next_sent(list: &[Sent], from: usize, log: u32) -> usize
    ensures { AreUnsent list.now log from result }
{
    for index in from..list.len() {
        if list[index].sender == log {
            return index;
        }
    }
    list.len()
}

/// Returns the index of the next message that this log delivers, or the length of the list if there is none.
fn next_got(list: &[Got], from: usize, log: u32) -> usize
    requires { log < 32 }
    ensures { AreSkipped list.now log from result }
{
    for index in from..list.len() {
        if list[index].by().contains(log) {
            return index;
        }
    }
    list.len()
}

/// Returns whether the entry sends the message in the ring's regular configuration, by this service.
fn is_send_of(entry: &Entry, ring: &RingId, message: &MsgId, service: Service) -> bool
    ensures { OnTrue result (IsSendOf entry.now ring.now message.now service) }
{
    match entry {
        Entry::Send(other, ConfId::Regular(conf), kind) => {
            *other == *message && *conf == *ring && *kind == service
        }
        _ => false,
    }
}

/// Returns whether the log's entry at `at` is the send that is listed at `index`.
fn is_origin_at(
    numbers: &[u32],
    gathered: &Gathered,
    log: u32,
    index: usize,
    at: usize,
    entry: &Entry,
) -> bool
    ensures { OnTrue result (IsOriginAt numbers.now gathered.now log index at entry.now) }
{
    let Some(sent) = gathered.sent_at(index) else {
        return false;
    };
    let Some(origin) = gathered.origin_at(index) else {
        return false;
    };
    let Some(number) = gathered.sent_number_at(index) else {
        return false;
    };
    if sent.sender != log {
        return false;
    }
    if at >= numbers.len() || numbers[at] != number {
        return false;
    }
    if !is_send_of(entry, &gathered.ring, &sent.message, origin.service) {
        return false;
    }
    true
}

/// Returns whether the log of the stay is listed as delivering the message in the configuration that it is in at `at`, and only there.
fn is_there(got: &Got, stay: &Stay, at: usize) -> bool
    ensures { OnTrue result (IsThere got.now stay.now at) }
{
    let regular = got.regular.contains(stay.log);
    let transitional = got.transitional.contains(stay.log);
    if at < stay.turn {
        regular && !transitional
    } else {
        transitional && !regular
    }
}

/// Returns whether the entry at `at` in the stay's log, which delivers this message, is listed at `index`.
fn is_delivery_of(
    numbers: &[u32],
    gathered: &Gathered,
    stay: &Stay,
    index: usize,
    at: usize,
    message: &MsgId,
) -> bool
    ensures { OnTrue result (IsDeliveryOf numbers.now gathered.now stay.now index at message.now) }
{
    let Some(got) = gathered.got_at(index) else {
        return false;
    };
    let Some(sent) = gathered.sent_at(got.sent as usize) else {
        return false;
    };
    if sent.message != *message {
        return false;
    }
    let Some(number) = gathered.got_number_at(index) else {
        return false;
    };
    if at >= numbers.len() || numbers[at] != number {
        return false;
    }
    if !is_there(&got, stay, at) {
        return false;
    }
    true
}

/// Returns whether the lists have what the entries of the stay send and deliver, and nothing else that its log sends or delivers.
#[inline(never)]
#[tactic(auto, using(crate::proofs::Steps::listed_all, crate::proofs::Steps::sent_all))]
fn are_as_listed(entries: &[Entry], numbers: &[u32], gathered: &Gathered, stay: &Stay) -> bool
    requires some { stay.now.from < stay.now.end }
    requires within { stay.now.end ≤ length entries.now }
    ensures listed { OnTrue result (AreAsListed entries.now numbers.now gathered.now stay.now stay.now.end (length gathered.now.got.items)) }
    ensures sends { OnTrue result (AreSentIn entries.now numbers.now gathered.now stay.now (length gathered.now.sent.items)) }
{
    let mut sent = 0;
    let mut got = 0;
    for at in stay.from + 1..stay.end {
        let entry = &entries[at];
        match entry {
            Entry::Send(_, _, _) => {
                let index = next_sent(&gathered.sent, sent, stay.log);
                if !is_origin_at(numbers, gathered, stay.log, index, at, entry) {
                    return false;
                }
                sent = index.saturating_add(1);
            }
            Entry::Deliver(message, _) => {
                let index = next_got(&gathered.got, got, stay.log);
                if !is_delivery_of(numbers, gathered, stay, index, at, message) {
                    return false;
                }
                got = index.saturating_add(1);
            }
            Entry::Conf(_, _) => {
                if at != stay.turn {
                    return false;
                }
            }
            Entry::Fail(_) => {}
        }
    }
    if next_sent(&gathered.sent, sent, stay.log) < gathered.sent.len() {
        return false;
    }
    if next_got(&gathered.got, got, stay.log) < gathered.got.len() {
        return false;
    }
    true
}

/// Returns whether the stay is one of its log, begins with the number of the configuration, and agrees with the lists.
pub fn is_replayed(logs: &[Log], lines: &[Line], gathered: &Gathered, stay: &Stay) -> bool
    ensures { OnTrue result (IsReplayed logs.now lines.now gathered.now stay.now) }
{
    let index = stay.log as usize;
    if index >= logs.len() || index >= lines.len() {
        return false;
    }
    let line = &lines[index];
    let log = &logs[index];
    let entries = log.entries.as_slice();
    let numbers = line.numbers.as_slice();
    if !is_bounded(entries, &gathered.ring, stay) {
        return false;
    }
    if stay.from >= numbers.len() || numbers[stay.from] != gathered.number {
        return false;
    }
    if !are_as_listed(entries, numbers, gathered, stay) {
        return false;
    }
    true
}
