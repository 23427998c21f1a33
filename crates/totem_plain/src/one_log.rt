//! What the definitions ask of one log (docs/SPECIFICATIONS.md, "Following", "Failed and open").
ghost use Rattle.std.specs.Prelude.{◌↔◌, ◌<◌, IsTrue, IfSome, IfNone};
ghost use Rattle.totem_evs.specs.Events.{ChangesTo, IsChange, IsTransitional, Delivers};
ghost use Rattle.totem_evs.specs.Changes.{StandsIn};
ghost use Rattle.totem_evs.specs.Following.{IsNextChange, IsFirstChange, LastChange, Follows, Com, DeliversIn, HasDelivered, NeverFails, FailedIn, StaysIn};
ghost use Rattle.totem_search.specs.Following.{NoChangeAt, NoNextChange, NeverChangesTo};
ghost use Rattle.totem_plain.specs.Plain.{NoLastChange, IsSomeBefore, IsLastChangeBefore, DeliversBefore, DeliversInConf, IsFailureAt, FailsInAt, LastIsIn};

use totem_evs::Entry;
use totem_names::{ConfId, MsgId, RingId};
use totem_search::{change_at, changes_to_at, first_change, is_change, is_or_follows, next_change};

/// Returns whether no change is to this configuration.
pub fn never_changes_to(log: &[Entry], conf: &ConfId) -> bool
    ensures { IsTrue result ↔ NeverChangesTo log.now conf.now }
{
    match first_change(log, conf) {
        Some(_) => false,
        None => true,
    }
}

/// Returns whether no change follows this index.
pub fn is_last(log: &[Entry], at: usize) -> bool
    ensures { IsTrue result ↔ NoNextChange log.now at }
{
    match next_change(log, at) {
        Some(_) => false,
        None => true,
    }
}

/// Returns whether the next change after `at` is that at `next`.
pub fn is_next(log: &[Entry], at: usize, next: usize) -> bool
    ensures { IsTrue result ↔ IsNextChange log.now at next }
{
    match next_change(log, at) {
        Some(found) => found == next,
        None => false,
    }
}

/// Returns the configuration of the last change.
fn last_change(log: &[Entry]) -> Option<&ConfId>
    ensures some { IfSome result (λ conf. LastChange log.now conf.now) }
    ensures none { IfNone result (NoLastChange log.now) }
{
    for at in 0..log.len() {
        if is_change(log, at) && is_last(log, at) {
            return change_at(log, at);
        }
    }
    None
}

/// Returns whether the last change is to this configuration.
pub fn ends_in(log: &[Entry], conf: &ConfId) -> bool
    ensures { IsTrue result ↔ LastChange log.now conf.now }
{
    match last_change(log) {
        Some(last) => last.is(conf),
        None => false,
    }
}

fn is_before(next: Option<usize>, end: usize) -> bool
    ensures { IsTrue result ↔ IsSomeBefore next end }
{
    matches!(next, Some(next) if next < end)
}

/// Returns whether the last change before `end` is that at this index, to this configuration.
fn is_last_change_before(log: &[Entry], at: usize, end: usize, conf: &ConfId) -> bool
    requires { at < end }
    ensures { IsTrue result ↔ IsLastChangeBefore log.now conf.now end at }
{
    if !changes_to_at(log, at, conf) {
        return false;
    }
    let next = next_change(log, at);
    !is_before(next, end)
}

/// Returns whether the last change before this index is to this configuration.
pub fn stands_in(log: &[Entry], end: usize, conf: &ConfId) -> bool
    ensures { IsTrue result ↔ StandsIn log.now end conf.now }
{
    for at in 0..end {
        if is_last_change_before(log, at, end, conf) {
            return true;
        }
    }
    false
}

/// Returns whether the entry at this index delivers the message in the regular configuration or in what follows it.
pub fn delivers_in(log: &[Entry], ring: &RingId, message: &MsgId, at: usize) -> bool
    ensures { IsTrue result ↔ DeliversIn log.now ring.now message.now at }
{
    match log.get(at) {
        Some(Entry::Deliver(other, conf)) => *other == *message && is_or_follows(log, ring, conf),
        _ => false,
    }
}

/// Returns whether an entry before this index delivers it there.
pub fn delivers_before(log: &[Entry], ring: &RingId, message: &MsgId, end: usize) -> bool
    ensures { IsTrue result ↔ DeliversBefore log.now ring.now message.now end }
{
    for at in 0..end {
        if delivers_in(log, ring, message, at) {
            return true;
        }
    }
    false
}

/// Returns whether an entry delivers it there.
pub fn has_delivered(log: &[Entry], ring: &RingId, message: &MsgId) -> bool
    ensures { IsTrue result ↔ HasDelivered log.now ring.now message.now }
{
    delivers_before(log, ring, message, log.len())
}

/// Returns whether the entry at this index delivers the message in this configuration.
fn delivers_at(log: &[Entry], at: usize, message: &MsgId, conf: &ConfId) -> bool
    ensures { IsTrue result ↔ Delivers log.now at message.now conf.now }
{
    match log.get(at) {
        Some(Entry::Deliver(other, other_conf)) => *other == *message && other_conf.is(conf),
        _ => false,
    }
}

/// Returns whether an entry before this index delivers the message in this configuration.
pub fn delivered_by(log: &[Entry], end: usize, message: &MsgId, conf: &ConfId) -> bool
    ensures { IsTrue result ↔ DeliversInConf log.now end message.now conf.now }
{
    for at in 0..end {
        if delivers_at(log, at, message, conf) {
            return true;
        }
    }
    false
}

/// Returns whether the log has no failure.
pub fn never_fails(log: &[Entry]) -> bool
    ensures { IsTrue result ↔ NeverFails log.now }
{
    !log.iter().any(|entry| entry.is_failure())
}

pub fn is_failure(log: &[Entry], at: usize) -> bool
    ensures { IsTrue result ↔ IsFailureAt log.now at }
{
    matches!(log.get(at), Some(Entry::Fail(_)))
}

fn fails_at(log: &[Entry], ring: &RingId, at: usize) -> bool
    ensures { IsTrue result ↔ FailsInAt log.now ring.now at }
{
    match log.get(at) {
        Some(Entry::Fail(conf)) => is_or_follows(log, ring, conf),
        _ => false,
    }
}

/// Returns whether the log fails in the regular configuration or in what follows it.
pub fn failed_in(log: &[Entry], ring: &RingId) -> bool
    ensures { IsTrue result ↔ FailedIn log.now ring.now }
{
    for at in 0..log.len() {
        if fails_at(log, ring, at) {
            return true;
        }
    }
    false
}

/// Returns whether the last change is to the regular configuration or to what follows it.
fn last_is_in(log: &[Entry], ring: &RingId) -> bool
    ensures { IsTrue result ↔ LastIsIn log.now ring.now }
{
    match last_change(log) {
        Some(conf) => is_or_follows(log, ring, conf),
        None => false,
    }
}

/// Returns whether the log has no failure, and its last change is to the regular configuration or to what follows it.
pub fn stays_in(log: &[Entry], ring: &RingId) -> bool
    ensures { IsTrue result ↔ StaysIn log.now ring.now }
{
    never_fails(log) && last_is_in(log, ring)
}
