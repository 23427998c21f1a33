//! Tests whether each send has a number below those of the deliveries of its message.
ghost use Rattle.std.specs.Prelude.{◌↔◌, ◌+◌, ◌<◌, IsTrue, MatchBool, length};
ghost use Rattle.totem_evs.specs.Certificates.{Matches};
ghost use Rattle.totem_evs.specs.Runs.{IsRun};
ghost use Rattle.totem_outcome.specs.Each.{EachPair, SomePair};
ghost use Rattle.totem_outcome.specs.Kinds.{SendIsBelow, SendIsNotBelow};
ghost use Rattle.totem_judge_certificate.specs.Spreads.{IsEarly, Knows, AreEarlyTo};

use crate::class::Class;
use crate::spread::Spread;
use totem_certificate::Line;
use totem_evs::{Entry, Log};

/// Returns whether the entry is no send, or has a number below the least one of the deliveries of its message.
fn is_early(spread: &Spread, entry: &Entry, number: u32) -> bool
    ensures { IsTrue result ↔ IsEarly spread.now entry.now number }
{
    let Entry::Send(message, _, _) = entry else {
        return true;
    };
    match spread.least_of(&Class::Delivery(*message)) {
        Some(least) => number < least,
        None => true,
    }
}

/// Returns whether each send of one log is below the deliveries of its message, given that those of the logs before it are.
fn are_early(spread: &Spread, logs: &[Log], lines: &[Line], index: usize) -> bool
    requires matches { Matches logs.now lines.now }
    requires run { IsRun logs.now }
    requires known { Knows logs.now lines.now spread.now }
    requires within { index < length logs.now }
    requires early { AreEarlyTo logs.now lines.now spread.now index 0 }
    ensures { MatchBool result (AreEarlyTo logs.now lines.now spread.now (index + 1) 0) (SomePair SendIsNotBelow logs.now lines.now) }
{
    let log = &logs[index];
    let line = &lines[index];
    let entries = log.entries.as_slice();
    let numbers = line.numbers.as_slice();
    for at in 0..entries.len() {
        if !is_early(spread, &entries[at], numbers[at]) {
            return false;
        }
    }
    true
}

/// Returns whether each send is below the deliveries of its message. The spread has their least number.
#[tactic(auto, using(crate::proofs::Spreading::all_below))]
pub fn sends_are_below(spread: &Spread, logs: &[Log], lines: &[Line]) -> bool
    requires matches { Matches logs.now lines.now }
    requires run { IsRun logs.now }
    requires known { Knows logs.now lines.now spread.now }
    ensures { MatchBool result (EachPair SendIsBelow logs.now lines.now) (SomePair SendIsNotBelow logs.now lines.now) }
{
    for index in 0..logs.len() {
        if !are_early(spread, logs, lines, index) {
            return false;
        }
    }
    true
}
