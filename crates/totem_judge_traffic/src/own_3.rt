//! 3: the sender of a message delivers it (docs/SPECIFICATIONS.md, "3 Self-delivery"). This is the rule, which says yes. The search, which
//! names what breaks it, is totem_pass_d `own_3`.
ghost use Rattle.std.specs.Prelude.{◌↔◌, IsTrue, All};
ghost use Rattle.std.specs.Bool.{OnTrue};
ghost use Rattle.totem_judge_traffic.specs.Clean.{IsOwned, Shows};

use crate::log_set::LogSet;
use crate::traffic::{Sent, Traffic};
use totem_evs::SpecNo;

/// Returns whether the sender delivers the message, or ends where it could have done so.
fn is_owned(sent: &Sent, ended: LogSet) -> bool
    ensures { IsTrue result ↔ IsOwned ended sent.now }
{
    sent.by.contains(sent.sender) || ended.contains(sent.sender)
}

fn all_are_owned(traffic: &Traffic) -> bool
    ensures { IsTrue result ↔ All (IsOwned traffic.now.ended) traffic.now.sent.items }
{
    let ended = traffic.ended;
    traffic.sent.iter().all(|sent| is_owned(sent, ended))
}

/// Returns `true` only if the run meets the specification in the configuration.
#[tactic(auto, using(crate::proofs::Owned::own_met))]
pub fn own_delivery_is_met(traffic: &Traffic) -> bool
    ensures { OnTrue result (Shows SpecNo.OwnDelivery traffic.now) }
{
    all_are_owned(traffic)
}
