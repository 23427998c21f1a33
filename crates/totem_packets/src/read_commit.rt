//! Reading commit tokens from left to right.
ghost use Rattle.std.specs.Prelude.{All, IfOk};
ghost use Rattle.totem_packets.specs.CommitMembers.{IsCommitMember};
ghost use Rattle.totem_packets.specs.Fields.{rising_at};
ghost use Rattle.totem_packets.specs.Grammar.{round_at, life_at, report_at, filled_at, maybe_report_at, member_at, members_at, commit_at, later_commit_at};
ghost use Rattle.totem_packets.specs.Parsing.{Reads};

use crate::commit::{CommitToken, Round};
use crate::commit_member::{CommitMember, Report};
use crate::commit_members::CommitMembers;
use crate::fault::PacketFault;
use crate::life::Life;
use crate::lives::Lives;
use crate::read_lists::process_set;
use crate::reader::Reader;
use std::alloc::Global;

#[tactic(auto, using(crate::proofs::Falling::passes_on), unfolding(crate::specs::Grammar::round_at))]
fn round(reader: &mut Reader) -> Result<Round, PacketFault>
    ensures { Reads (λ x. x) result reader.new (round_at reader.old) }
{
    match reader.u8()? {
        1 => Ok(Round::First),
        2 => Ok(Round::Second),
        _ => Err(PacketFault::Range),
    }
}

/// Reads the life of a report. Where reports carry no lives, each is the first.
#[tactic(auto, unfolding(crate::specs::Grammar::life_at))]
fn life(reader: &mut Reader, lives: Lives) -> Result<Life, PacketFault>
    ensures { Reads (λ x. x) result reader.new (life_at lives reader.old) }
{
    match lives {
        Lives::Untold => Ok(Life::first()),
        Lives::Told => reader.life(),
    }
}

#[tactic(auto, using(crate::proofs::Falling::passes_on), unfolding(crate::specs::Grammar::report_at))]
fn report(reader: &mut Reader, lives: Lives) -> Result<Report, PacketFault>
    ensures { Reads (λ x. x) result reader.new (report_at lives reader.old) }
{
    let life = life(reader, lives)?;
    let ring = reader.ring()?;
    let aru = reader.u32()?;
    let delivered = reader.u32()?;
    let obligation = process_set(reader)?;
    Ok(Report {
        life,
        ring,
        aru,
        delivered,
        obligation,
    })
}

#[tactic(auto, using(crate::proofs::Falling::passes_on), unfolding(crate::specs::Grammar::maybe_report_at, crate::specs::Grammar::filled_at))]
fn maybe_report(reader: &mut Reader, lives: Lives) -> Result<Option<Report>, PacketFault>
    ensures { Reads (λ x. x) result reader.new (maybe_report_at lives reader.old) }
{
    match reader.u8()? {
        0 => Ok(None),
        1 => Ok(Some(report(reader, lives)?)),
        _ => Err(PacketFault::Range),
    }
}

/// Reads a member whose process is above `least`.
#[tactic(auto, using(crate::proofs::Falling::passes_on), unfolding(crate::specs::Grammar::member_at))]
fn member(reader: &mut Reader, lives: Lives, least: u16) -> Result<CommitMember, PacketFault>
    ensures reads { Reads (λ x. x) result reader.new (member_at lives least reader.old) }
    ensures rule { IfOk result IsCommitMember }
{
    let proc = reader.process(least)?;
    let report = maybe_report(reader, lives)?;
    let member = CommitMember { proc, report };
    member.keeps_its_rule();
    Ok(member)
}

/// Reads `count` members with strictly ascending processes.
fn member_list(
    alloc: Global,
    reader: &mut Reader,
    lives: Lives,
    count: u8,
) -> Result<Vec<CommitMember>, PacketFault>
    ensures reads { Reads (λ x. x.items) result reader.new (rising_at (member_at lives) (λ m. m.proc) count 0 reader.old) }
    ensures each { IfOk result (λ x. All IsCommitMember x.items) }
{
    let mut list = Vec::with_capacity(alloc, usize::from(count))?;
    let mut last = 0u16;
    for _ in 0..count {
        let member = member(reader, lives, last)?;
        // Without this the prover does not know the type of a report here.
        let _has_reported = member.report.is_some();
        last = member.proc.number();
        list.push(member)?;
    }
    Ok(list)
}

#[tactic(auto, using(crate::proofs::Falling::passes_on, crate::proofs::Members::are_members), unfolding(crate::specs::Grammar::members_at))]
fn members(alloc: Global, reader: &mut Reader, lives: Lives) -> Result<CommitMembers, PacketFault>
    ensures { Reads (λ x. x) result reader.new (members_at lives reader.old) }
{
    let count = reader.count(32)?;
    if count == 0 {
        return Err(PacketFault::Range);
    }
    let list = member_list(alloc, reader, lives, count)?;
    Ok(CommitMembers::of(list))
}

#[tactic(auto, using(crate::proofs::Falling::passes_on), unfolding(crate::specs::Grammar::commit_at))]
pub fn commit_token(
    alloc: Global,
    reader: &mut Reader,
    lives: Lives,
) -> Result<CommitToken, PacketFault>
    ensures { Reads (λ x. x) result reader.new (commit_at lives reader.old) }
{
    let ring = reader.ring()?;
    let round = round(reader)?;
    let members = members(alloc, reader, lives)?;
    Ok(CommitToken {
        ring,
        round,
        members,
    })
}

/// Reads a commit token whose reports carry lives. At least one of them has to be above the first.
#[tactic(auto, using(crate::proofs::Falling::passes_on), unfolding(crate::specs::Grammar::later_commit_at))]
pub fn later_commit_token(alloc: Global, reader: &mut Reader) -> Result<CommitToken, PacketFault>
    ensures { Reads (λ x. x) result reader.new (later_commit_at reader.old) }
{
    let token = commit_token(alloc, reader, Lives::Told)?;
    if !token.members.has_later_life() {
        return Err(PacketFault::Range);
    }
    Ok(token)
}
