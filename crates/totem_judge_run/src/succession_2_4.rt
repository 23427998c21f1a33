//! 2.4: the first configuration of a log is regular, then transitional and regular ones take turns, and each transitional one leads to the
//! regular one that it names, and has only members of the regular ones before and after it (docs/SPECIFICATIONS.md, "2 Changes of
//! configuration"). This is the rule for one change. `changes_2_3` applies it to each change, on the walk of `orderly` along each log, and
//! also tests that all logs come to a configuration from one ring. What breaks it is searched by totem_pass_ab `succession_2_4`.
ghost use Rattle.std.specs.Prelude.{◌≡◌, ◌↔◌, ◌<◌, All, Contains, IfSome, IsTrue, length};
ghost use Rattle.totem_names.specs.declared.conf.ConfId.TheVariants.{Regular};
ghost use Rattle.totem_judge_run.specs.FirstChanges.{ComesFrom};
ghost use Rattle.totem_judge_run.specs.Succession.{IsWrongSuccession};

use totem_evs::{Entry, Members};
use totem_names::{ConfId, RingId};

fn contains_all(members: &Members, others: &Members) -> bool
    ensures { IsTrue result ↔ All (Contains members.now) others.now }
{
    if members.is(others) {
        return true;
    }
    for proc in others.as_slice() {
        if !members.contains(*proc) {
            return false;
        }
    }
    true
}

/// Returns whether the succession is wrong: the second change may not be the next after the first.
pub fn is_wrong_succession(
    conf: &ConfId,
    members: &Members,
    next: &ConfId,
    next_members: &Members,
) -> bool
    ensures { IsTrue result ↔ IsWrongSuccession conf.now members.now next.now next_members.now }
{
    match (conf, next) {
        (ConfId::Regular(_), ConfId::Transitional { .. }) => !contains_all(members, next_members),
        (ConfId::Transitional { next: named, .. }, ConfId::Regular(ring)) => {
            !contains_all(next_members, members) || *ring != *named
        }
        _ => true,
    }
}

/// Returns the ring of a regular configuration.
fn ring_of(conf: &ConfId) -> Option<&RingId>
    ensures { IfSome result (λ ring. conf.now ≡ Regular ring.now) }
{
    match conf {
        ConfId::Regular(ring) => Some(ring),
        ConfId::Transitional { .. } => None,
    }
}

/// Returns the ring from which a log comes to this configuration after the change at `before`, or as its first one. Returns
/// `None` if it may not come there in this way.
pub fn came_from<'a>(
    log: &'a [Entry],
    before: Option<usize>,
    conf: &'a ConfId,
    members: &Members,
) -> Option<&'a RingId>
    requires { IfSome before (λ i. i < length log.now) }
    ensures { IfSome result (λ ring. ComesFrom log.now before conf.now members.now ring.now) }
{
    let Some(at) = before else {
        return ring_of(conf);
    };
    let Entry::Conf(before, before_members) = &log[at] else {
        return None;
    };
    if is_wrong_succession(before, before_members, conf, members) {
        return None;
    }
    match conf {
        ConfId::Regular(ring) => Some(ring),
        ConfId::Transitional { .. } => ring_of(before),
    }
}
