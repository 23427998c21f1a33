//! Writing commit tokens from left to right, after the bytes that the output has.
ghost use Rattle.std.specs.Prelude.{◌≡◌, ◌++◌, OnOk};
ghost use Rattle.std.specs.Int.{w8};
ghost use Rattle.totem_packets.specs.Spelling.{round_number, number_bytes, life_bytes, report_bytes, member_bytes, commit_bytes};

use crate::commit::{CommitToken, Round};
use crate::commit_member::{CommitMember, Report};
use crate::life::Life;
use crate::lives::Lives;
use crate::writing::{put_process, put_process_set, put_ring, put_u8, put_u16, put_u32};
use std::alloc::AllocError;

fn put_round(out: &mut Vec<u8>, round: Round) -> Result<(), AllocError>
    ensures { OnOk result (out.new.items ≡ out.old.items ++ number_bytes w8 (round_number round)) }
{
    match round {
        Round::First => put_u8(out, 1),
        Round::Second => put_u8(out, 2),
    }
}

/// Writes the life of a report if reports carry lives, and nothing otherwise.
fn put_life(out: &mut Vec<u8>, lives: Lives, life: Life) -> Result<(), AllocError>
    ensures { OnOk result (out.new.items ≡ out.old.items ++ life_bytes lives life) }
{
    match lives {
        Lives::Untold => Ok(()),
        Lives::Told => put_u16(out, life.get()),
    }
}

#[tactic(auto, unfolding(crate::specs::Spelling::report_bytes))]
fn put_report(out: &mut Vec<u8>, lives: Lives, report: &Option<Report>) -> Result<(), AllocError>
    ensures { OnOk result (out.new.items ≡ out.old.items ++ report_bytes lives report.now) }
{
    match report {
        None => put_u8(out, 0),
        Some(report) => {
            put_u8(out, 1)?;
            put_life(out, lives, report.life)?;
            put_ring(out, &report.ring)?;
            put_u32(out, report.aru)?;
            put_u32(out, report.delivered)?;
            put_process_set(out, &report.obligation)
        }
    }
}

#[tactic(auto, unfolding(crate::specs::Spelling::member_bytes))]
fn put_member(out: &mut Vec<u8>, lives: Lives, member: &CommitMember) -> Result<(), AllocError>
    ensures { OnOk result (out.new.items ≡ out.old.items ++ member_bytes lives member.now) }
{
    put_process(out, member.proc)?;
    put_report(out, lives, &member.report)
}

#[tactic(auto, unfolding(crate::specs::Spelling::commit_bytes))]
pub fn put_commit(out: &mut Vec<u8>, lives: Lives, token: &CommitToken) -> Result<(), AllocError>
    ensures { OnOk result (out.new.items ≡ out.old.items ++ commit_bytes lives token.now) }
{
    put_ring(out, &token.ring)?;
    put_round(out, token.round)?;
    let members = token.members.as_slice();
    put_u8(out, members.len() as u8)?;
    for member in members {
        put_member(out, lives, member)?;
    }
    Ok(())
}
