//! Tests whether the lists of a configuration agree with each other about what was sent and delivered there.
ghost use Rattle.std.specs.Prelude.{◌≡◌, ◌<◌, length};
ghost use Rattle.std.specs.Bool.{OnTrue};
ghost use Rattle.totem_judge.specs.Lists.{EachBelow, ComesBefore, IsLinked, IsSentAt, IsGotAt};

use crate::gathered::Gathered;
use totem_judge_traffic::{LogSet, Sent};

/// Returns whether a send with this number is before the messages that are delivered from this index on.
fn comes_before(numbers: &[u32], before: u32, number: u32) -> bool
    ensures { OnTrue result (ComesBefore numbers.now before number) }
{
    match numbers.get(before as usize) {
        Some(delivered) => number < *delivered,
        None => before as usize == numbers.len(),
    }
}

/// Returns whether the logs that deliver the message are among those listed at its place in the list of what is delivered.
fn is_linked(sent: &Sent, index: usize, place: Option<u32>, gathered: &Gathered) -> bool
    ensures { OnTrue result (IsLinked gathered.now.got.items index sent.now) }
{
    let Some(at) = place else {
        return sent.by.is_empty();
    };
    let Some(got) = gathered.got_at(at as usize) else {
        return false;
    };
    got.sent as usize == index && sent.by.is_within(got.by())
}

/// Returns whether the message at this index of the list was sent by one of these logs, and stands as the lists say among what is
/// delivered. That the log has the send is tested along its entries.
fn is_sent(gathered: &Gathered, logs: LogSet, index: usize) -> bool
    ensures { OnTrue result (IsSentAt gathered.now logs index) }
{
    let Some(sent) = gathered.sent_at(index) else {
        return false;
    };
    let Some(origin) = gathered.origin_at(index) else {
        return false;
    };
    let Some(number) = gathered.sent_number_at(index) else {
        return false;
    };
    if !logs.contains(sent.sender) {
        return false;
    }
    if !comes_before(&gathered.got_numbers, sent.before, number) {
        return false;
    }
    if !is_linked(&sent, index, origin.got, gathered) {
        return false;
    }
    true
}

/// Returns whether each message of the list was sent by one of these logs, and stands as the lists say among what is delivered.
#[tactic(auto, using(crate::proofs::Steps::each_more))]
pub fn all_are_sent(gathered: &Gathered, logs: LogSet) -> bool
    ensures { OnTrue result (EachBelow (IsSentAt gathered.now logs) (length gathered.now.sent.items)) }
{
    for index in 0..gathered.sent.len() {
        if !is_sent(gathered, logs, index) {
            return false;
        }
    }
    true
}

/// Returns whether the message at this index of the list of what is delivered was sent, and is delivered by at least one log and by
/// these logs only.
fn is_got(gathered: &Gathered, logs: LogSet, index: usize) -> bool
    ensures { OnTrue result (IsGotAt gathered.now logs index) }
{
    let Some(got) = gathered.got_at(index) else {
        return false;
    };
    let Some(sent) = gathered.sent_at(got.sent as usize) else {
        return false;
    };
    let Some(origin) = gathered.origin_at(got.sent as usize) else {
        return false;
    };
    let by = got.by();
    let Some(_) = by.least() else {
        return false;
    };
    if got.sender != sent.sender {
        return false;
    }
    if got.safe != origin.is_safe() {
        return false;
    }
    if sent.before as usize > index {
        return false;
    }
    if !by.is_within(sent.by) || !by.is_within(logs) {
        return false;
    }
    true
}

/// Returns whether each message of the list of what is delivered was sent, and is delivered by at least one log and by these logs only.
#[tactic(auto, using(crate::proofs::Steps::each_more))]
pub fn all_are_got(gathered: &Gathered, logs: LogSet) -> bool
    ensures { OnTrue result (EachBelow (IsGotAt gathered.now logs) (length gathered.now.got.items)) }
{
    for index in 0..gathered.got.len() {
        if !is_got(gathered, logs, index) {
            return false;
        }
    }
    true
}
