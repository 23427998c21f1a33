//! The walk (docs/SPECIFICATIONS.md, "5 Causal delivery").
ghost use Rattle.std.specs.Prelude.{◌≡◌, ◌↔◌, ◌+◌, ◌<◌, ◌≤◌, ◌^◌, IsTrue, IfOk, IfErr, OnOk};
ghost use Rattle.std.specs.Bool.{OnTrue, OnFalse};
ghost use Rattle.totem_evs.specs.Answers.{MeetsPasses};
ghost use Rattle.totem_evs.specs.Events.{log_of};
ghost use Rattle.totem_stitch.specs.Stitched.{IsStitch};
ghost use Rattle.totem_walk.specs.Deliveries.{IsFollowedBy};
ghost use Rattle.totem_walk.specs.Between.{entries_of_both, IsCausalBetween, BreaksBetween, IsOfPairs};

use crate::deliveries::Deliveries;
use crate::order::keeps_order;
use crate::reading::entries_of;
use std::alloc::{AllocError, Global};
use totem_evs::Run;
use totem_names::{ConfId, Proc, RingId};
use totem_stitch::Stitch;

/// A law: specification 5 holds in a regular configuration exactly if it holds between each two processes.
pub fn causality_is_of_pairs()
    ensures { IsOfPairs }
{}

/// Returns what `walk` does. `follower` is the configuration that follows the regular one in the receiver's log, if any.
fn is_causal(
    alloc: Global,
    run: &Run,
    ring: RingId,
    follower: &Option<ConfId>,
    sender: Proc,
    receiver: Proc,
    looks: &mut u64,
) -> Result<bool, AllocError>
    requires meets { MeetsPasses run.now.logs }
    requires follower { IsFollowedBy (log_of run.now.logs receiver) ring follower.now }
    requires room { looks.old + entries_of_both run.now.logs sender receiver < 2 ^ 64 }
    ensures kept { IfOk result (λ kept. OnTrue kept (IsCausalBetween run.now.logs ring sender receiver)) }
    ensures broken { IfOk result (λ kept. OnFalse kept (BreaksBetween run.now.logs ring sender receiver)) }
    ensures all { IfOk result (λ kept. OnTrue kept (looks.new ≡ looks.old + entries_of_both run.now.logs sender receiver)) }
    ensures most { OnOk result (looks.new ≤ looks.old + entries_of_both run.now.logs sender receiver) }
{
    let delivering = entries_of(run, receiver);
    let deliveries = Deliveries::build(alloc, delivering, ring, follower, looks)?;
    let sending = entries_of(run, sender);
    Ok(keeps_order(&deliveries, sending, &ConfId::Regular(ring), looks))
}

/// Returns whether the receiver delivers what the sender sends in the regular configuration of this ring only after all that the
/// sender sent or delivered there before (docs/SPECIFICATIONS.md, "5 Causal delivery"). Deliveries of the receiver in the
/// configuration that follows count too. `looks` grows by one for each entry that is read: all of the receiver's log, and the
/// sender's up to the first send that breaks 5. Takes n log n steps.
pub fn walk(
    alloc: Global,
    run: &Run,
    stitch: &Stitch,
    ring: RingId,
    sender: Proc,
    receiver: Proc,
    looks: &mut u64,
) -> Result<bool, AllocError>
    requires meets { MeetsPasses run.now.logs }
    requires stitch { IsStitch stitch.now run.now.logs }
    requires room { looks.old + entries_of_both run.now.logs sender receiver < 2 ^ 64 }
    ensures exact { IfOk result (λ kept. IsTrue kept ↔ IsCausalBetween run.now.logs ring sender receiver) }
    ensures broken { IfOk result (λ kept. OnFalse kept (BreaksBetween run.now.logs ring sender receiver)) }
    ensures all { IfOk result (λ kept. OnTrue kept (looks.new ≡ looks.old + entries_of_both run.now.logs sender receiver)) }
    ensures most { looks.new ≤ looks.old + entries_of_both run.now.logs sender receiver }
    ensures rises { looks.old ≤ looks.new }
    ensures kept { IfErr result (λ _. looks.new ≡ looks.old) }
{
    let follower = stitch.follow(receiver, ring);
    let mut seen = 0;
    let kept = is_causal(alloc, run, ring, &follower, sender, receiver, &mut seen)?;
    *looks += seen;
    Ok(kept)
}
