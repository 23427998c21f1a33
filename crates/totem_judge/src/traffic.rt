//! The traffic of a regular configuration, as it was gathered and verified.
ghost use Rattle.std.specs.Prelude.{◌≤◌, IfOk, IfSome, length};
ghost use Rattle.std.specs.Bool.{OnTrue};
ghost use Rattle.totem_judge.specs.Seen.{AreReplayed, AreTrue, HasMembers, IsSeen};

use crate::ends::ends_of;
use crate::following::following_in;
use crate::gathered::{Gathered, Stay};
use crate::members::member_logs;
use crate::replay::is_replayed;
use crate::sends::{all_are_got, all_are_sent};
use std::alloc::{AllocError, Global};
use totem_certificate::Line;
use totem_evs::{Entry, Log};
use totem_judge_traffic::{LogSet, MemberLogs, Traffic};
use totem_outcome::rises;

/// Returns whether the lists and the entries of each stay agree.
fn are_replayed(logs: &[Log], lines: &[Line], gathered: &Gathered) -> bool
    ensures { OnTrue result (AreReplayed logs.now lines.now gathered.now (length gathered.now.stays.items)) }
{
    for stay in &gathered.stays {
        if !is_replayed(logs, lines, gathered, stay) {
            return false;
        }
    }
    true
}

/// Returns whether the lists agree with the logs that stay in the configuration about what was sent and delivered.
fn are_true(logs: &[Log], lines: &[Line], gathered: &Gathered, set: LogSet) -> bool
    ensures { OnTrue result (AreTrue logs.now lines.now gathered.now set) }
{
    rises(&gathered.got_numbers)
        && rises(&gathered.sent_numbers)
        && all_are_sent(gathered, set)
        && all_are_got(gathered, set)
        && are_replayed(logs, lines, gathered)
}

/// Returns the members of the configuration in which the first of the stays begins.
fn members_in(logs: &[Log], stays: &[Stay]) -> Option<MemberLogs>
    requires { length logs.now ≤ 32 }
    ensures { IfSome result (HasMembers logs.now stays.now) }
{
    if stays.is_empty() {
        return None;
    }
    let stay = &stays[0];
    let index = stay.log as usize;
    if index >= logs.len() {
        return None;
    }
    let log = &logs[index];
    let entries = log.entries.as_slice();
    if stay.from >= entries.len() {
        return None;
    }
    match &entries[stay.from] {
        Entry::Conf(_, members) => Some(member_logs(logs, members)),
        _ => None,
    }
}

/// Returns the traffic that was gathered, or `None` unless the logs agree with it.
pub fn traffic_of(
    alloc: Global,
    logs: &[Log],
    lines: &[Line],
    gathered: Gathered,
) -> Result<Option<Traffic>, AllocError>
    requires { length logs.now ≤ 32 }
    ensures { IfOk result (λ found. IfSome found (IsSeen logs.now lines.now gathered)) }
{
    let ends = ends_of(logs, &gathered.stays);
    if !are_true(logs, lines, &gathered, ends.logs) {
        return Ok(None);
    }
    let Some(members) = members_in(logs, &gathered.stays) else {
        return Ok(None);
    };
    let following = following_in(alloc, logs, &gathered.stays)?;
    let Gathered { sent, got, .. } = gathered;
    Ok(Some(Traffic {
        sent,
        got,
        logs: ends.logs,
        members,
        ended: ends.ended,
        open: ends.open,
        following,
    }))
}
