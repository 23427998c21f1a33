//! 7.1: a safe message that is delivered reaches each member of the configuration in which it is delivered (docs/SPECIFICATIONS.md, "7 Safe
//! delivery"). This is the rule, which says yes. The search, which names what breaks it, is totem_pass_d `safety_7_1`.
ghost use Rattle.std.specs.Prelude.{◌≡◌, ◌⊎◌, ◌↔◌, IsTrue, All};
ghost use Rattle.std.specs.Bool.{OnTrue};
ghost use Rattle.totem_judge_traffic.specs.LogSets.{IsEmpty, AreApart};
ghost use Rattle.totem_judge_traffic.specs.Clean.{AreAllAmong, ReachesAll, IsSafeBehind, Shows};

use crate::log_set::LogSet;
use crate::traffic::{Following, Got, MemberLogs, Traffic};
use totem_evs::SpecNo;

/// Returns whether each member has a log that is in the set.
fn are_all_among(members: &MemberLogs, logs: LogSet) -> bool
    ensures { IsTrue result ↔ AreAllAmong logs members.now }
{
    members.all && members.logs.is_within(logs)
}

/// Returns whether the message reaches each member of the transitional configuration, if it is delivered there.
fn is_safe_behind(following: &Following, behind: LogSet, reached: LogSet) -> bool
    ensures { IsTrue result ↔ IsSafeBehind behind reached following.now }
{
    following.logs.is_apart(behind) || are_all_among(&following.members, reached)
}

/// Returns whether the message reaches each member of each transitional configuration in which it is delivered.
fn is_safe_in_all(list: &[Following], behind: LogSet, reached: LogSet) -> bool
    ensures { IsTrue result ↔ All (IsSafeBehind behind reached) list.now }
{
    list.iter()
        .all(|following| is_safe_behind(following, behind, reached))
}

/// Returns whether the message reaches each member of each configuration in which it is delivered, if it is safe.
fn reaches_all(got: &Got, traffic: &Traffic) -> bool
    ensures { OnTrue result (ReachesAll traffic.now got.now) }
{
    if !got.safe {
        return true;
    }
    let reached = got.by().union(traffic.ended);
    let there = got.regular.is_empty() || are_all_among(&traffic.members, reached);
    there && is_safe_in_all(&traffic.following, got.transitional, reached)
}

fn all_reach(got: &[Got], traffic: &Traffic) -> bool
    ensures { OnTrue result (All (ReachesAll traffic.now) got.now) }
{
    got.iter().all(|message| reaches_all(message, traffic))
}

/// Returns `true` only if the run meets the specification in the configuration.
#[tactic(auto, using(crate::proofs::Safe::safety_met))]
pub fn safety_is_met(traffic: &Traffic) -> bool
    ensures { OnTrue result (Shows SpecNo.Safety traffic.now) }
{
    all_reach(&traffic.got, traffic)
}
