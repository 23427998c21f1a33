//! 2.3: each configuration has one list of members, in which each process that changes to it is; and 2.4, by `succession_2_4`, on the same
//! walk along the changes (docs/SPECIFICATIONS.md, "2 Changes of configuration"). This is the rule, which says yes. The search, which names
//! what breaks it, is totem_pass_ab `configuration_2_3`.
ghost use Rattle.std.specs.Prelude.{◌≡◌, ◌<◌, IfOk, length, slice_get};
ghost use Rattle.std.specs.Bool.{OnTrue};
ghost use Rattle.totem_judge_run.specs.FirstChanges.{IsLastBefore, Meets, Enters};

use crate::first_changes::FirstChanges;
use crate::succession_2_4::came_from;
use std::alloc::AllocError;
use totem_evs::{Entry, Log, Members};
use totem_names::{ConfId, RingId};

/// The first change to a configuration, in the order in which changes are entered.
#[derive(Clone, Copy)]
pub struct FirstChange<'a> {
    pub conf: &'a ConfId,
    members: &'a Members,
    /// The ring from which the log comes to the configuration; for a regular configuration, its own ring.
    from: &'a RingId,
}

fn first_at<'a>(firsts: &FirstChanges<'a>, index: usize) -> Option<FirstChange<'a>>
    ensures { result ≡ slice_get firsts.now.list.items index }
{
    firsts.list.as_slice().get(index).copied()
}

/// Compares a change with the first one to its configuration, or notes it as the first. Returns whether members and origin agree.
fn meet<'a>(firsts: &mut FirstChanges<'a>, change: FirstChange<'a>) -> Result<bool, AllocError>
    ensures { IfOk result (λ ok. OnTrue ok (Meets firsts.old firsts.new change.entry.conf.now change.entry.members.now change.entry.from.now)) }
{
    let Some(index) = firsts.find(change.conf)? else {
        firsts.list.push(change)?;
        return Ok(true);
    };
    let Some(first) = first_at(firsts, index) else {
        return Ok(false);
    };
    Ok(
        first.conf.is(change.conf)
            && *first.from == *change.from
            && first.members.is(change.members),
    )
}

/// Enters the entry at this index of a log if it is a change; the last one before it is at `before`. Returns whether it is allowed there.
#[inline]
pub fn enter<'a>(
    firsts: &mut FirstChanges<'a>,
    log: &'a Log,
    at: usize,
    before: Option<usize>,
) -> Result<bool, AllocError>
    requires within { at < length log.now.entries }
    requires last { IsLastBefore log.now.entries at before }
    ensures { IfOk result (λ ok. OnTrue ok (Enters firsts.old firsts.new log.now at)) }
{
    let entries = log.entries.as_slice();
    let Entry::Conf(conf, members) = &entries[at] else {
        return Ok(true);
    };
    if !members.contains(log.proc) {
        return Ok(false);
    }
    let Some(from) = came_from(entries, before, conf, members) else {
        return Ok(false);
    };
    meet(
        firsts,
        FirstChange {
            conf,
            members,
            from,
        },
    )
}
