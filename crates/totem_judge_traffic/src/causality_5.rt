//! 5: what a process sent or delivered before it sent a message is delivered before that message (docs/SPECIFICATIONS.md, "5 Causal
//! delivery"). This is the rule, which says yes. The search, which names what breaks it, is totem_pass_d `causality_5`.
ghost use Rattle.std.specs.Prelude.{◌≡◌, ◌≤◌, ◌<◌, ◌⊎◌, length};
ghost use Rattle.std.specs.Bool.{OnTrue};
ghost use Rattle.totem_judge_traffic.specs.Clean.{AreFewerTo, AreInOrderTo, AreCausalTo, LacksTo, Shows};

use crate::log_set::LogSet;
use crate::rows::Rows;
use crate::traffic::{Got, Sent, Traffic};
use totem_evs::SpecNo;

/// Returns whether each log that delivers a message delivers all that its sender sent before.
#[tactic(auto, using(crate::proofs::InSequence::fewer_none))]
fn are_fewer(sent: &[Sent]) -> bool
    ensures { OnTrue result (AreFewerTo sent.now (length sent.now)) }
{
    // By sender: the logs that deliver its last message.
    let mut last = [LogSet::all(); 32];
    for message in sent {
        let sender = message.sender as usize;
        if !message.by.is_within(last[sender]) {
            return false;
        }
        last[sender] = message.by;
    }
    true
}

/// Returns whether the messages of each sender are delivered in the order in which they were sent.
#[tactic(auto, using(crate::proofs::InSequence::order_none))]
fn are_in_order(got: &[Got]) -> bool
    ensures { OnTrue result (AreInOrderTo got.now (length got.now)) }
{
    // By sender: whether one of its messages was seen, and the index of the last one.
    let mut begun = LogSet::none();
    let mut last = [0; 32];
    for message in got {
        let sender = message.sender as usize;
        if begun.contains(message.sender) && message.sent <= last[sender] {
            return false;
        }
        begun = begun.with(message.sender);
        last[sender] = message.sent;
    }
    true
}

/// Adds the messages from `from` up to `end` to the rows: to the row of each log that delivers a message, the logs that lack it.
/// Returns the number of messages that the rows have then.
fn add_to(rows: &mut Rows, got: &[Got], logs: LogSet, from: usize, end: usize) -> usize
    requires within { from ≤ length got.now }
    requires before { LacksTo logs got.now from rows.old }
    ensures within { result ≤ length got.now }
    ensures until { (end ≤ result) ⊎ (result ≡ length got.now) }
    ensures lacking { LacksTo logs got.now result rows.new }
{
    for index in from..got.len() {
        if end <= index {
            return index;
        }
        let by = got[index].by();
        rows.add(by, logs.minus(by));
    }
    got.len()
}

/// Returns whether no log that lacks what a sender delivers before it sends a message delivers that message.
#[tactic(auto, using(crate::proofs::Rowing::lacks_none, crate::proofs::Rowing::causal_none))]
fn are_causal(sent: &[Sent], got: &[Got], logs: LogSet) -> bool
    ensures { OnTrue result (AreCausalTo logs got.now sent.now (length sent.now)) }
{
    let mut rows = Rows::new();
    let mut taken = 0;
    for message in sent {
        taken = add_to(&mut rows, got, logs, taken, message.before as usize);
        if rows.row_meets(message.sender, message.by) {
            return false;
        }
    }
    true
}

/// Returns `true` only if the run meets the specification in the configuration.
#[tactic(auto, using(crate::proofs::Caused::causality_met))]
pub fn causality_is_met(traffic: &Traffic) -> bool
    ensures { OnTrue result (Shows SpecNo.Causality traffic.now) }
{
    are_fewer(&traffic.sent)
        && are_in_order(&traffic.got)
        && are_causal(&traffic.sent, &traffic.got, traffic.logs)
}
