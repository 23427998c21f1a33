//! 7.2: where a safe message is delivered in the regular configuration, each of its members changes to it (docs/SPECIFICATIONS.md, "7 Safe
//! delivery"). This is the rule, which says yes. The search, which names what breaks it, is totem_pass_d `installed_7_2`.
ghost use Rattle.std.specs.Prelude.{◌⊎◌, ◌↔◌, IsTrue, All};
ghost use Rattle.std.specs.Bool.{OnTrue};
ghost use Rattle.totem_judge_traffic.specs.Clean.{AllHaveCome, IsNotSafeThere, Shows};

use crate::traffic::{Got, Traffic};
use totem_evs::SpecNo;

fn all_have_come(traffic: &Traffic) -> bool
    ensures { IsTrue result ↔ AllHaveCome traffic.now }
{
    traffic.members.all && traffic.members.logs.is_within(traffic.logs)
}

/// Returns whether the message is not safe, or no log delivers it in the regular configuration.
fn is_not_safe_there(got: &Got) -> bool
    ensures { IsTrue result ↔ IsNotSafeThere got.now }
{
    !got.safe || got.regular.is_empty()
}

fn none_is_safe_there(traffic: &Traffic) -> bool
    ensures { IsTrue result ↔ All IsNotSafeThere traffic.now.got.items }
{
    traffic.got.iter().all(is_not_safe_there)
}

/// Returns `true` only if the run meets the specification in the configuration.
#[tactic(auto, using(crate::proofs::AllCome::come_met, crate::proofs::AllCome::none_met))]
pub fn installed_is_met(traffic: &Traffic) -> bool
    ensures { OnTrue result (Shows SpecNo.Installed traffic.now) }
{
    all_have_come(traffic) || none_is_safe_there(traffic)
}
