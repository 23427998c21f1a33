//! What follows a regular configuration in the logs that stay in it (docs/SPECIFICATIONS.md, "Following").
ghost use Rattle.std.specs.Prelude.{◌≡◌, ◌↔◌, ◌≤◌, IsTrue, IfSome, IfNone, IfOk, length};
ghost use Rattle.totem_judge.specs.Turns.{TurnsTo, TurnsNowhere, TurnsToConf, GoesFurther, IsFollowing, HasFollowings};

use crate::gathered::Stay;
use crate::members::member_logs;
use std::alloc::{AllocError, Global};
use totem_evs::{Entry, Log, Members};
use totem_judge_traffic::{Following, LogSet};
use totem_names::ConfId;

/// The change by which a log moves on from a regular configuration.
#[derive(Clone, Copy)]
struct Turn<'a> {
    conf: &'a ConfId,
    members: &'a Members,
}

/// Returns the change by which the log of the stay moves on, or `None` if it stays in the regular configuration.
fn turn_of<'a>(logs: &'a [Log], stay: &Stay) -> Option<Turn<'a>>
    ensures some { IfSome result (λ turn. TurnsTo logs.now stay.now turn.conf.now turn.members.now) }
    ensures none { IfNone result (TurnsNowhere logs.now stay.now) }
{
    if stay.turn >= stay.end {
        return None;
    }
    let log = logs.get(stay.log as usize)?;
    match log.entries.as_slice().get(stay.turn)? {
        Entry::Conf(conf, members) => Some(Turn { conf, members }),
        _ => None,
    }
}

/// Returns whether the log of the stay moves on to this configuration.
fn turns_to(logs: &[Log], stay: &Stay, conf: &ConfId) -> bool
    ensures { IsTrue result ↔ TurnsToConf logs.now conf.now stay.now }
{
    match turn_of(logs, stay) {
        Some(turn) => turn.conf.is(conf),
        None => false,
    }
}

/// Returns whether the log of the stay changes once more.
fn goes_further(logs: &[Log], stay: &Stay) -> bool
    ensures { IsTrue result ↔ GoesFurther logs.now stay.now }
{
    match logs.get(stay.log as usize) {
        Some(log) => stay.end < log.entries.as_slice().len(),
        None => false,
    }
}

/// Returns the configuration of this change, with the logs of the stays in which it follows.
fn following_as(logs: &[Log], stays: &[Stay], turn: &Turn) -> Following
    requires { length logs.now ≤ 32 }
    ensures { IsFollowing logs.now stays.now (length stays.now) turn.now.conf.now turn.now.members.now result }
{
    let mut following = Following {
        members: member_logs(logs, turn.members),
        logs: LogSet::none(),
        left: LogSet::none(),
    };
    for stay in stays {
        if turns_to(logs, stay, turn.conf) {
            following.logs = following.logs.with(stay.log);
            if goes_further(logs, stay) {
                following.left = following.left.with(stay.log);
            }
        }
    }
    following
}

/// Returns the configurations that follow in these stays.
pub fn following_in(
    alloc: Global,
    logs: &[Log],
    stays: &[Stay],
) -> Result<Vec<Following>, AllocError>
    requires { length logs.now ≤ 32 }
    ensures { IfOk result (λ list. HasFollowings logs.now stays.now (length stays.now) list.items) }
{
    let mut list = Vec::new(alloc);
    let mut seen = LogSet::none();
    for stay in stays {
        if let Some(turn) = turn_of(logs, stay) {
            if !seen.contains(stay.log) {
                let following = following_as(logs, stays, &turn);
                seen = seen.union(following.logs);
                list.push(following)?;
            }
        }
    }
    Ok(list)
}
