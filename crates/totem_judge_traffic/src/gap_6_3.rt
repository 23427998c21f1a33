//! 6.3: a process that delivers a later message delivers the earlier one, if its sender is still a member (docs/SPECIFICATIONS.md, "6 Total
//! order"). This is the rule, which says yes. The search, which names what breaks it, is totem_pass_d `gap_6_3`.
ghost use Rattle.std.specs.Prelude.{◌<◌, length};
ghost use Rattle.std.specs.Bool.{OnTrue};
ghost use Rattle.totem_judge_traffic.specs.LogSets.{Has, IsWithin};
ghost use Rattle.totem_judge_traffic.specs.Clean.{HasAllBehind, NoGapsTo, Shows};

use crate::log_set::LogSet;
use crate::rows::Rows;
use crate::traffic::{Following, Got, Traffic};
use totem_evs::SpecNo;

/// Adds to the set the logs in which this configuration follows, if the sender is a member of it.
fn with_following(logs: LogSet, following: &Following, sender: u32) -> LogSet
    requires { sender < 32 }
    ensures kept { IsWithin logs result }
    ensures added { Has following.now.members.logs sender → IsWithin following.now.logs result }
{
    if following.members.logs.contains(sender) {
        logs.union(following.logs)
    } else {
        logs
    }
}

/// Returns the logs in which a configuration follows that has the sender as a member.
#[tactic(auto, using(crate::proofs::Rowing::behind_none, crate::proofs::Rowing::behind_next))]
fn behind_with(list: &[Following], sender: u32) -> LogSet
    requires { sender < 32 }
    ensures { HasAllBehind list.now sender (length list.now) result }
{
    let mut logs = LogSet::none();
    for following in list {
        logs = with_following(logs, following, sender);
    }
    logs
}

/// Returns whether no log that lacks a message delivers a later one where the sender is still a member.
#[tactic(auto, using(crate::proofs::Rowing::no_gaps_none, crate::proofs::Rowing::lacks_none, crate::proofs::Rowing::lacks_behind_none))]
fn has_no_gaps(got: &[Got], logs: LogSet, following: &[Following]) -> bool
    ensures { OnTrue result (NoGapsTo logs following.now got.now (length got.now)) }
{
    let mut lacking = Rows::new();
    let mut lacking_behind = Rows::new();
    for message in got {
        let by = message.by();
        if lacking.meet(by, message.regular) {
            return false;
        }
        if lacking_behind.meet(by, message.transitional) {
            return false;
        }
        let others = logs.minus(by);
        lacking.add(by, others);
        let behind = others.intersection(behind_with(following, message.sender));
        lacking_behind.add(by, behind);
    }
    true
}

/// Returns `true` only if the run meets the specification in the configuration.
#[tactic(auto, using(crate::proofs::Gapless::gap_met))]
pub fn no_gap_is_left(traffic: &Traffic) -> bool
    ensures { OnTrue result (Shows SpecNo.Gap traffic.now) }
{
    has_no_gaps(&traffic.got, traffic.logs, &traffic.following)
}
