//! How a member takes a commit token (docs/PROTOCOL.md, "The commit token").
ghost use Rattle.std.specs.Prelude.{◌≡◌, ◌≢◌, ◌≤◌, length, true, is_some, MatchResult, Ok, Err};
ghost use Rattle.totem_packets.specs.OldRings.{obligation_union};
ghost use Rattle.totem_member.specs.Commits.{on_commit, report_of, same_report, is_report, is_filled_ring, may_fill, may_enter, may_start};
ghost use Rattle.totem_member.specs.Acts.{passed_on};
ghost use Rattle.totem_member.specs.declared.fault.MemberFault.TheVariants.{Memory};
ghost use Rattle.totem_member.specs.declared.views.Act.TheVariants.{Entered};

use crate::fault::MemberFault;
use crate::views::{Act, CommitView, Phase};
use totem_names::{ProcId, RingId};
use totem_packets::{CommitMember, CommitToken, Report, Round};

/// Returns whether this process has reported.
fn has_reported(members: &[CommitMember], proc: ProcId) -> bool
    ensures { result ≡ is_some (report_of members.now proc) }
{
    for member in members {
        if member.proc == proc {
            return member.report.is_some();
        }
    }
    false
}

fn is_filled_ring(filled: &Option<RingId>, ring: &RingId) -> bool
    ensures { result ≡ is_filled_ring filled.now ring.now }
{
    match filled {
        None => false,
        Some(own) => own.seq == ring.seq && own.rep == ring.rep,
    }
}

/// Returns whether the member may fill in its report.
fn may_fill(token: &CommitToken, view: &CommitView) -> bool
    ensures { result ≡ may_fill token.now view.now }
{
    token.round == Round::First
        && !has_reported(token.members.as_slice(), view.me)
        && view.seq.get() < token.ring.seq
}

/// Returns whether the two are the same report.
fn same_report(reported: &Report, report: &Report) -> bool
    ensures { result ≡ same_report reported.now report.now }
{
    reported.life == report.life
        && reported.ring.seq == report.ring.seq
        && reported.ring.rep == report.ring.rep
        && reported.aru == report.aru
        && reported.delivered == report.delivered
        && reported.obligation.is(&report.obligation)
}

/// Returns whether the process has reported exactly this.
fn has_reported_this(members: &[CommitMember], proc: ProcId, report: &Report) -> bool
    ensures { result ≡ is_report (report_of members.now proc) report.now }
{
    for member in members {
        if member.proc == proc {
            return match &member.report {
                None => false,
                Some(reported) => same_report(reported, report),
            };
        }
    }
    false
}

/// Returns whether the member may begin its recovery.
fn may_enter(token: &CommitToken, view: &CommitView, report: &Report) -> bool
    ensures { result ≡ may_enter token.now view.now report.now }
{
    let round = if view.members.is_least(view.me) {
        Round::First
    } else {
        Round::Second
    };
    is_filled_ring(&view.filled, &token.ring)
        && view.phase == Phase::Commit
        && token.members.is_filled()
        && has_reported_this(token.members.as_slice(), view.me, report)
        && token.round == round
}

/// Returns whether the member may take the first token of the new ring.
fn may_start(token: &CommitToken, view: &CommitView) -> bool
    ensures { result ≡ may_start token.now view.now }
{
    view.members.is_least(view.me)
        && is_filled_ring(&view.filled, &token.ring)
        && view.phase == Phase::Recovery
        && token.round == Round::Second
        && !view.started
}

/// Returns how the member takes this commit token, or why it refuses it. `Range` if it would enter a ring whose
/// obligation union has more than 32 processes. `passed_on` makes the token that goes on. Takes no memory.
pub fn commit_act(
    token: &CommitToken,
    view: &CommitView,
    report: &Report,
) -> Result<Act, MemberFault>
    ensures act { MatchResult result (λ act. on_commit token.now view.now report.now ≡ Ok (record { act = act; token = passed_on token.now view.now.me report.now act }))
        (λ fault. (fault ≢ Memory) × (on_commit token.now view.now report.now ≡ Err fault)) }
    ensures entered { result ≡ Ok Entered → (may_enter token.now view.now report.now ≡ true) × (length (obligation_union report.now.ring token.now.members) ≤ 32) }
{
    if !token.members.are(&view.members) {
        return Err(MemberFault::Stale);
    }
    if may_fill(token, view) {
        return Ok(Act::Filled);
    }
    if may_enter(token, view, report) {
        if token.members.obligation_union(&report.ring).is_err() {
            return Err(MemberFault::Range);
        }
        return Ok(Act::Entered);
    }
    if may_start(token, view) {
        return Ok(Act::Started);
    }
    Err(MemberFault::Stale)
}
