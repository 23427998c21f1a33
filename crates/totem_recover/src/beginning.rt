//! How a recovery begins (docs/PROTOCOL.md, "Recovery").
ghost use Rattle.std.specs.Prelude.{◌≡◌, ◌↔◌, ◌≤◌, IsTrue, IfOk, length};
ghost use Rattle.totem_packets.specs.Lives.{member_ranks, transitional_ranks};
ghost use Rattle.totem_packets.specs.OldRings.{transitional_set, obligation_union};
ghost use Rattle.totem_packets.specs.Sets.{has};
ghost use Rattle.totem_recover.specs.Exchange.{IsReady, reported_obligation};

use crate::lives::members_with;
use std::alloc::{AllocError, Global};
use std::sync::Arc;
use totem_evs::Members;
use totem_names::{ProcId, RingId};
use totem_packets::{CommitMembers, CommitToken, Processes, TooMany};
use totem_ring::RingState;

/// Returns whether a recovery may begin: in the token `me` reports the ring of `prev`, and O has at most 32 processes.
/// Takes no memory.
pub fn is_ready(me: ProcId, prev: &RingState, token: &CommitToken) -> bool
    ensures { IsTrue result ↔ IsReady me prev.now token.now }
{
    let old = prev.ring();
    token.members.is_from(&old, me) && token.members.obligation_union(&old).is_ok()
}

/// Returns the members of the new ring, in the lives that they reported.
#[tactic(auto, using(crate::proofs::Reported::members_are))]
pub(crate) fn members_of(alloc: Global, members: &CommitMembers) -> Result<Members, AllocError>
    ensures { IfOk result (λ m. m ≡ member_ranks members.now) }
{
    let lives = members.lives(alloc)?;
    let _rule = members.as_slice();
    Ok(members_with(Arc::new(alloc, lives)?))
}

/// Returns the transitional set: the members that come from the ring `old`, in the lives that they reported. `me` is one of them.
#[tactic(auto, using(crate::proofs::Reported::transitional_are))]
pub(crate) fn transitional_of(
    alloc: Global,
    old: &RingId,
    members: &CommitMembers,
    me: ProcId,
) -> Result<Members, AllocError>
    requires { IsTrue (has (transitional_set old.now members.now) me) }
    ensures { IfOk result (λ m. m ≡ transitional_ranks old.now members.now) }
{
    let lives = members.transitional_lives(alloc, old)?;
    let _rule = members.as_slice();
    Ok(members_with(Arc::new(alloc, lives)?))
}

/// Returns the obligation union: the processes to which the members from the ring `old` owe the delivery of their messages.
pub(crate) fn obliged_of(old: &RingId, members: &CommitMembers) -> Processes
    requires { length (obligation_union old.now members.now) ≤ 32 }
    ensures { result ≡ obligation_union old.now members.now }
{
    match members.obligation_union(old) {
        Ok(obliged) => obliged,
        Err(TooMany) => unreachable!(),
    }
}

/// Returns the obligation set that this process reported.
pub(crate) fn reported_obligation(members: &CommitMembers, proc: ProcId) -> Processes
    ensures { result ≡ reported_obligation members.now proc }
{
    for member in members.as_slice() {
        if member.proc == proc {
            return match &member.report {
                None => Processes::none(),
                Some(report) => report.obligation,
            };
        }
    }
    Processes::none()
}
