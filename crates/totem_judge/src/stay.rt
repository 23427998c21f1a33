//! Tests whether a log changes where a stay begins, turns and ends (docs/SPECIFICATIONS.md, "Following").
ghost use Rattle.std.specs.Prelude.{◌↔◌, IsTrue};
ghost use Rattle.std.specs.Bool.{OnTrue};
ghost use Rattle.totem_judge.specs.StaysIn.{IsChangeToRing, ChangesOrEnds, IsBounded};

use crate::gathered::Stay;
use totem_evs::Entry;
use totem_names::{ConfId, RingId};

fn is_change_to(entry: &Entry, ring: &RingId) -> bool
    ensures { IsTrue result ↔ IsChangeToRing entry.now ring.now }
{
    match entry {
        Entry::Conf(ConfId::Regular(other), _) => *other == *ring,
        _ => false,
    }
}

/// Returns whether the log has a change at this index, or ends there.
fn changes_or_ends(entries: &[Entry], at: usize) -> bool
    ensures { OnTrue result (ChangesOrEnds entries.now at) }
{
    if at >= entries.len() {
        return at == entries.len();
    }
    match &entries[at] {
        Entry::Conf(_, _) => true,
        _ => false,
    }
}

/// Returns whether the log changes to the ring's regular configuration where the stay begins, and changes or ends where it turns and
/// where it ends.
pub fn is_bounded(entries: &[Entry], ring: &RingId, stay: &Stay) -> bool
    ensures { OnTrue result (IsBounded entries.now ring.now stay.now) }
{
    if stay.from >= stay.turn || stay.turn > stay.end || stay.from >= entries.len() {
        return false;
    }
    if stay.turn == stay.end && stay.turn != entries.len() {
        return false;
    }
    if !is_change_to(&entries[stay.from], ring) {
        return false;
    }
    if !changes_or_ends(entries, stay.turn) {
        return false;
    }
    if !changes_or_ends(entries, stay.end) {
        return false;
    }
    true
}
