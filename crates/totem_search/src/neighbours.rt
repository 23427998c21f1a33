//! The two kinds of configurations, and a change with the next one of its log.
ghost use Rattle.std.specs.Prelude.{◌≡◌, ◌↔◌, ◌<◌, IsTrue, IfSome, IfNone, length};
ghost use Rattle.totem_evs.specs.Events.{IsRegular, IsTransitional};
ghost use Rattle.totem_evs.specs.Changes.{ChangesNext};
ghost use Rattle.totem_search.specs.Turns.{HasNoSuccession};

use totem_evs::{Entry, Members};
use totem_judge_run::walk_to_change;
use totem_names::ConfId;

/// Returns whether this is a transitional configuration.
pub fn is_transitional(conf: &ConfId) -> bool
    ensures transitional { IsTrue result ↔ IsTransitional conf.now }
    ensures regular { (IsTrue result → ⊥) ↔ IsRegular conf.now }
{
    matches!(conf, ConfId::Transitional { .. })
}

/// A change, and the next change of the same log.
#[derive(Clone, Copy)]
pub struct Succession<'a> {
    pub conf: &'a ConfId,
    pub members: &'a Members,
    pub next_at: usize,
    pub next: &'a ConfId,
    pub next_members: &'a Members,
}

/// Returns the change at this index and the next one, or `None` unless both exist.
pub fn succession_at(log: &[Entry], at: usize) -> Option<Succession<'_>>
    requires { at < length log.now }
    ensures found { IfSome result (λ succession. ChangesNext log.now at succession.next_at succession.conf.now succession.next.now succession.members.now succession.next_members.now) }
    ensures within { IfSome result (λ succession. succession.next_at < length log.now) }
    ensures none { IfNone result (HasNoSuccession log.now at) }
{
    let Entry::Conf(conf, members) = &log[at] else {
        return None;
    };
    let next_at = walk_to_change(log, at);
    if next_at >= log.len() {
        return None;
    }
    let Entry::Conf(next, next_members) = &log[next_at] else {
        return None;
    };
    Some(Succession {
        conf,
        members,
        next_at,
        next,
        next_members,
    })
}
