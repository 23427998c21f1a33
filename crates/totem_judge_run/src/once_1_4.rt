//! 1.4: each message is sent once, in a regular configuration, and each log delivers it once (docs/SPECIFICATIONS.md, "1 Basic delivery").
//! This is the rule, which says yes. The search, which names what breaks it, is totem_pass_ab `twice_1_4`.
ghost use Rattle.std.specs.Prelude.{◌≡◌, ◌≢◌, ◌++◌, ◌+◌, ◌<◌, ℕ, IfOk, OnOk, length, slice_index_or};
ghost use Rattle.std.specs.Bool.{OnTrue};
ghost use Rattle.std.specs.Ordering.{is_lt};
ghost use Rattle.std.specs.List.{AllPairs};
ghost use Rattle.totem_judge_run.specs.Orderly.{DeliveriesAreOnce, SendsAreOnce};
ghost use Rattle.totem_judge_run.specs.Once.{AddsSend, AddsSends, IsNoSendBetween, RisesByOrder, message_in, messages_in, message_order};

use std::alloc::{AllocError, Global};
use totem_evs::{Entry, Log};
use totem_names::{ConfId, MsgId};

/// What happens to a message at most once.
#[derive(Clone, Copy)]
pub enum Once {
    Send,
    Deliver,
}

/// Returns the message that an entry sends or delivers.
fn message_in(act: Once, entry: &Entry) -> Option<MsgId>
    ensures { result ≡ message_in act entry.now }
{
    match (act, entry) {
        (Once::Send, Entry::Send(message, _, _)) => Some(*message),
        (Once::Deliver, Entry::Deliver(message, _)) => Some(*message),
        _ => None,
    }
}

/// Returns the messages that the entries deliver.
#[tactic(auto, using(crate::proofs::Common::gathered))]
fn deliveries_in(alloc: Global, entries: &[Entry]) -> Result<Vec<MsgId>, AllocError>
    ensures { IfOk result (λ list. list.items ≡ messages_in Once.Deliver entries.now) }
{
    let mut list = Vec::new(alloc);
    for entry in entries {
        if let Some(message) = message_in(Once::Deliver, entry) {
            list.push(message)?;
        }
    }
    Ok(list)
}

fn is_below(message: &MsgId, other: &MsgId) -> bool
    ensures { result ≡ is_lt (message_order message.now other.now) }
{
    *message < *other
}

/// Returns whether each message is below the next.
fn rises(list: &[MsgId]) -> bool
    ensures { OnTrue result (RisesByOrder list.now) }
{
    for at in 1..list.len() {
        if !is_below(&list[at - 1], &list[at]) {
            return false;
        }
    }
    true
}

/// Returns whether no two of the messages are the same.
#[tactic(auto, using(crate::proofs::Distinct::distinct_if_rising))]
pub fn are_distinct(mut list: Vec<MsgId>) -> Result<bool, AllocError>
    ensures { IfOk result (λ ok. OnTrue ok (AllPairs (λ x y. x ≢ y) list.items)) }
{
    if rises(&list) {
        return Ok(true);
    }
    list.sort()?;
    Ok(rises(&list))
}

/// Returns whether the entry sends nothing in a transitional configuration.
fn is_regular(entry: &Entry) -> bool
    ensures { OnTrue result (IsNoSendBetween entry.now) }
{
    !matches!(entry, Entry::Send(_, ConfId::Transitional { .. }, _))
}

/// Appends the message that an entry sends. Returns whether it is not sent in a transitional configuration.
#[inline]
pub fn add_send(list: &mut Vec<MsgId>, entry: &Entry) -> Result<bool, AllocError>
    ensures { IfOk result (λ ok. OnTrue ok (AddsSend list.old.items list.new.items entry.now)) }
{
    if !is_regular(entry) {
        return Ok(false);
    }
    if let Some(message) = message_in(Once::Send, entry) {
        list.push(message)?;
    }
    Ok(true)
}

/// Appends the messages that the entries send. Returns whether none is sent in a transitional configuration.
#[tactic(auto, using(crate::proofs::Common::gathered))]
fn add_sends(list: &mut Vec<MsgId>, entries: &[Entry]) -> Result<bool, AllocError>
    ensures { IfOk result (λ ok. OnTrue ok (AddsSends list.old.items list.new.items entries.now)) }
{
    for entry in entries {
        if !add_send(list, entry)? {
            return Ok(false);
        }
    }
    Ok(true)
}

/// Returns `true` only if the sends of a run meet the specification.
pub fn sends_are_once(alloc: Global, logs: &[Log]) -> Result<bool, AllocError>
    ensures { IfOk result (λ ok. OnTrue ok (SendsAreOnce logs.now)) }
{
    let mut sent = Vec::new(alloc);
    for log in logs {
        if !add_sends(&mut sent, log.entries.as_slice())? {
            return Ok(false);
        }
    }
    are_distinct(sent)
}

/// Returns `true` only if each log delivers each message once.
#[tactic(auto, using(crate::proofs::Distinct::none_twice, crate::proofs::Distinct::deliveries_once, crate::proofs::Placed::log_by_log))]
pub fn deliveries_are_once(alloc: Global, logs: &[Log]) -> Result<bool, AllocError>
    ensures { IfOk result (λ ok. OnTrue ok (DeliveriesAreOnce logs.now)) }
{
    for log in logs {
        let delivered = deliveries_in(alloc, log.entries.as_slice())?;
        if !are_distinct(delivered)? {
            return Ok(false);
        }
    }
    Ok(true)
}
