//! The changes of one log, and what follows a regular configuration there (docs/SPECIFICATIONS.md, "Following").
ghost use Rattle.std.specs.Prelude.{◌↔◌, ◌<◌, IsTrue, IfSome, IfNone};
ghost use Rattle.totem_evs.specs.Events.{ChangesTo, IsChange};
ghost use Rattle.totem_evs.specs.Following.{IsNextChange, IsFirstChange, Follows, Com};
ghost use Rattle.totem_search.specs.Following.{NoChangeAt, NoNextChange, NeverChangesTo};

use crate::neighbours::is_transitional;
use totem_evs::Entry;
use totem_names::{ConfId, RingId};

/// Returns the configuration to which a log changes at this index.
pub fn change_at(log: &[Entry], at: usize) -> Option<&ConfId>
    ensures some { IfSome result (λ conf. ChangesTo log.now at conf.now) }
    ensures none { IfNone result (NoChangeAt log.now at) }
{
    match log.get(at) {
        Some(Entry::Conf(conf, _)) => Some(conf),
        _ => None,
    }
}

pub fn is_change(log: &[Entry], at: usize) -> bool
    ensures { IsTrue result ↔ IsChange log.now at }
{
    matches!(log.get(at), Some(Entry::Conf(_, _)))
}

pub fn changes_to_at(log: &[Entry], at: usize, conf: &ConfId) -> bool
    ensures { IsTrue result ↔ ChangesTo log.now at conf.now }
{
    match change_at(log, at) {
        Some(other) => other.is(conf),
        None => false,
    }
}

/// Returns the index of the next change after this index.
pub fn next_change(log: &[Entry], at: usize) -> Option<usize>
    ensures some { IfSome result (IsNextChange log.now at) }
    ensures none { IfNone result (NoNextChange log.now at) }
{
    if at >= log.len() {
        return None;
    }
    for next in at + 1..log.len() {
        if is_change(log, next) {
            return Some(next);
        }
    }
    None
}

/// Returns the index of the first change to this configuration.
pub fn first_change(log: &[Entry], conf: &ConfId) -> Option<usize>
    ensures some { IfSome result (IsFirstChange log.now conf.now) }
    ensures none { IfNone result (NeverChangesTo log.now conf.now) }
{
    for at in 0..log.len() {
        if changes_to_at(log, at, conf) {
            return Some(at);
        }
    }
    None
}

/// Returns whether a configuration follows the regular one.
#[tactic(auto, using(crate::proofs::Follows::that_follows))]
fn follows(log: &[Entry], ring: &RingId, conf: &ConfId) -> bool
    ensures { IsTrue result ↔ Follows log.now ring.now conf.now }
{
    let regular = ConfId::Regular(*ring);
    let Some(from) = first_change(log, &regular) else {
        return false;
    };
    let Some(to) = next_change(log, from) else {
        return false;
    };
    changes_to_at(log, to, conf) && is_transitional(conf)
}

/// Returns whether a configuration is the regular one or follows it.
pub fn is_or_follows(log: &[Entry], ring: &RingId, conf: &ConfId) -> bool
    ensures { IsTrue result ↔ Com log.now ring.now conf.now }
{
    let regular = ConfId::Regular(*ring);
    conf.is(&regular) || follows(log, ring, conf)
}
