//! The commit token: how it is made, filled in and taken.
ghost use Rattle.std.specs.Prelude.{◌≡◌, ◌<◌, IfOk, IsTrue, map, length};
ghost use Rattle.totem_packets.specs.Sets.{has};
ghost use Rattle.totem_member.specs.Commits.{first_commit, on_commit, filled_by, unfilled};
ghost use Rattle.totem_member.specs.Acts.{passed_on};
ghost use Rattle.totem_member.specs.Steps.{IsAnswer};

use crate::act::commit_act;
use crate::fault::MemberFault;
use crate::views::{Act, CommitOut, CommitView};
use std::alloc::{AllocError, Global};
use totem_names::{ProcId, RingId};
use totem_packets::{CommitMember, CommitMembers, CommitToken, Processes, Report, Round};

/// How far the number of a new ring is above the greatest ring number that its maker knows.
const STEP: u32 = 4;

/// Returns the members with the report of `proc` filled in.
fn filled(
    alloc: Global,
    members: &CommitMembers,
    proc: ProcId,
    report: &Report,
) -> Result<CommitMembers, AllocError>
    ensures { IfOk result (λ r. r ≡ map (filled_by proc report.now) members.now) }
{
    report.keeps_its_rule();
    let list = members.as_slice();
    let mut filled = Vec::with_capacity(alloc, list.len())?;
    for member in list {
        let next = if member.proc == proc {
            CommitMember {
                proc,
                report: Some(*report),
            }
        } else {
            *member
        };
        filled.push(next)?;
    }
    Ok(CommitMembers::of(filled))
}

/// Returns these processes as members that have not reported.
fn unfilled(alloc: Global, members: &Processes) -> Result<CommitMembers, AllocError>
    requires { 0 < length members.now }
    ensures { IfOk result (λ r. r ≡ map unfilled members.now) }
{
    let list = members.as_slice();
    let mut unfilled = Vec::with_capacity(alloc, list.len())?;
    for proc in list {
        unfilled.push(CommitMember {
            proc: *proc,
            report: None,
        })?;
    }
    Ok(CommitMembers::of(unfilled))
}

/// Makes the commit token, as the least member does. The number of its ring is 4 above the greatest that the member
/// knows; `Range` if that would pass the greatest number. The caller has to ensure that `view.members` contains `view.me`.
pub fn first_commit(
    alloc: Global,
    view: &CommitView,
    report: Report,
) -> Result<CommitToken, MemberFault>
    requires { IsTrue (has view.now.members view.now.me) }
    ensures { IsAnswer result (first_commit view.now report) }
{
    let known = view.seq.get();
    if known > u32::MAX - STEP {
        return Err(MemberFault::Range);
    }
    let members = unfilled(alloc, &view.members)?;
    Ok(CommitToken {
        ring: RingId {
            seq: known + STEP,
            rep: view.me,
        },
        round: Round::First,
        members: filled(alloc, &members, view.me, &report)?,
    })
}

/// Returns the token after the member has taken it in this way.
pub fn passed_on(
    alloc: Global,
    token: &CommitToken,
    me: ProcId,
    report: &Report,
    act: Act,
) -> Result<CommitToken, AllocError>
    ensures { IfOk result (λ t. t ≡ passed_on token.now me report.now act) }
{
    match act {
        Act::Filled => Ok(CommitToken {
            ring: token.ring,
            round: token.round,
            members: filled(alloc, &token.members, me, report)?,
        }),
        Act::Entered => Ok(CommitToken {
            ring: token.ring,
            round: Round::Second,
            members: token.members.try_clone(alloc)?,
        }),
        Act::Started => token.try_clone(alloc),
    }
}

/// Takes a commit token in one of three ways, or refuses it (docs/PROTOCOL.md, "The commit token"). `report` is what
/// the member would report now.
#[tactic(auto, using(crate::proofs::Ways::refused, crate::proofs::Ways::grown))]
pub fn on_commit(
    alloc: Global,
    token: &CommitToken,
    view: &CommitView,
    report: Report,
) -> Result<CommitOut, MemberFault>
    ensures { IsAnswer result (on_commit token.now view.now report) }
{
    let act = commit_act(token, view, &report)?;
    let token = passed_on(alloc, token, view.me, &report, act)?;
    Ok(CommitOut { act, token })
}
