//! 4: processes that go together from one configuration to the next deliver the same messages there (docs/SPECIFICATIONS.md, "4 Failure
//! atomicity"). This is the rule, which says yes. The search, which names what breaks it, is totem_pass_d `atomicity_4`.
ghost use Rattle.std.specs.Prelude.{◌⊎◌, ◌↔◌, IsTrue, All};
ghost use Rattle.std.specs.Bool.{OnTrue};
ghost use Rattle.totem_judge_traffic.specs.LogSets.{AreApart, IsWithin};
ghost use Rattle.totem_judge_traffic.specs.Clean.{IsWhole, IsTogether, IsAtomic, Shows};

use crate::log_set::LogSet;
use crate::traffic::{Following, Got, Traffic};
use totem_evs::SpecNo;

/// Returns whether all logs of the group are in the set, or none.
fn is_whole(group: LogSet, set: LogSet) -> bool
    ensures { IsTrue result ↔ IsWhole group set }
{
    group.is_apart(set) || group.is_within(set)
}

/// Returns whether all or none of the logs that move on to this configuration deliver the message before it, and all or none of those
/// that move on from it deliver the message in it.
fn is_together(got: &Got, following: &Following) -> bool
    ensures { IsTrue result ↔ IsTogether got.now following.now }
{
    is_whole(following.logs, got.regular) && is_whole(following.left, got.transitional)
}

fn is_atomic(got: &Got, list: &[Following]) -> bool
    ensures { IsTrue result ↔ IsAtomic list.now got.now }
{
    list.iter().all(|following| is_together(got, following))
}

fn all_are_atomic(got: &[Got], list: &[Following]) -> bool
    ensures { OnTrue result (All (IsAtomic list.now) got.now) }
{
    got.iter().all(|message| is_atomic(message, list))
}

/// Returns `true` only if the run meets the specification in the configuration.
#[tactic(auto, using(crate::proofs::Together::atomicity_met))]
pub fn atomicity_is_met(traffic: &Traffic) -> bool
    ensures { OnTrue result (Shows SpecNo.Atomicity traffic.now) }
{
    all_are_atomic(&traffic.got, &traffic.following)
}
