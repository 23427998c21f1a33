//! 2.2: each entry is where it is allowed (docs/SPECIFICATIONS.md, "2 Changes of configuration"). This is the rule, which says yes. The
//! search, which names what breaks it, is totem_pass_ab `misplaced_2_2`.
ghost use Rattle.std.specs.Prelude.{◌≡◌, ℕ, ◌<◌, ◌↔◌, IsTrue, IfSome, IfNone, Option, Some};
ghost use Rattle.totem_names.specs.declared.conf.ConfId.{ConfId};
ghost use Rattle.totem_evs.specs.Changes.{StaysInPlace};
ghost use Rattle.totem_evs.specs.ChangeFaults.{IsMisplaced};
ghost use Rattle.totem_judge_run.specs.Misplaced.{Fits, standing_after};

use totem_evs::Entry;
use totem_names::ConfId;

fn is_in(standing: &Option<ConfId>, conf: &ConfId) -> bool
    ensures { IsTrue result ↔ (standing.now ≡ Some conf.now) }
{
    matches!(standing, Some(here) if here.is(conf))
}

/// Returns the configuration that an entry names, or `None` for a change.
fn conf_of(entry: &Entry) -> Option<&ConfId>
    ensures some { IfSome result (λ conf. (standing : Option ConfId) → Fits standing entry.now ↔ (standing ≡ Some conf.now)) }
    ensures none { IfNone result ((standing : Option ConfId) → Fits standing entry.now) }
{
    match entry {
        Entry::Conf(_, _) => None,
        Entry::Send(_, conf, _) => Some(conf),
        Entry::Deliver(_, conf) => Some(conf),
        Entry::Fail(conf) => Some(conf),
    }
}

#[inline(always)]
pub fn fits(standing: &Option<ConfId>, entry: &Entry) -> bool
    ensures { IsTrue result ↔ Fits standing.now entry.now }
{
    match conf_of(entry) {
        Some(conf) => is_in(standing, conf),
        None => true,
    }
}

/// Moves past an entry. Only a change writes to `standing`, since it alone moves the log to another configuration.
pub fn go_past(standing: &mut Option<ConfId>, entry: &Entry)
    ensures { standing.new ≡ standing_after standing.old entry.now }
{
    if let Entry::Conf(conf, _) = entry {
        *standing = Some(*conf);
    }
}

/// Returns the index of the first entry of a log that is out of place.
pub fn first_misplaced(log: &[Entry]) -> Option<usize>
    ensures found { IfSome result (λ i. IsMisplaced log.now i) }
    ensures least { IfSome result (λ i. (k : ℕ) → k < i → IsMisplaced log.now k → ⊥) }
    ensures none { IfNone result (StaysInPlace log.now) }
{
    let mut standing: Option<ConfId> = None;
    let mut failed = false;
    for (i, entry) in log.iter().enumerate() {
        let good = fits(&standing, entry);
        if failed || !good {
            return Some(i);
        }
        go_past(&mut standing, entry);
        failed = entry.is_failure();
    }
    None
}
