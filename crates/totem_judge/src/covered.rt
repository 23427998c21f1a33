//! Whether each entry of a run is in a stay that is gathered.
ghost use Rattle.std.specs.Prelude.{◌≤◌, IfSome, length};
ghost use Rattle.std.specs.Bool.{OnTrue};
ghost use Rattle.totem_judge.specs.Covered.{AreCoveredTo, AreCovered, AreRisingTo};

use crate::gathered::Gathered;
use totem_evs::Log;

/// Returns where the last stay of each log ends, or `None` unless the first begins where the log does, and each other one where the
/// one before it ends.
fn covered_to(list: &[Gathered]) -> Option<[usize; 32]>
    ensures { IfSome result (AreCoveredTo list.now) }
{
    let mut ends = [0; 32];
    for gathered in list {
        for stay in &gathered.stays {
            let log = stay.log as usize;
            if stay.from != ends[log] {
                return None;
            }
            ends[log] = stay.end;
        }
    }
    Some(ends)
}

/// Returns whether each log is made up of stays.
pub fn are_covered(logs: &[Log], list: &[Gathered]) -> bool
    requires { length logs.now ≤ 32 }
    ensures { OnTrue result (AreCovered logs.now list.now (length logs.now)) }
{
    let Some(ends) = covered_to(list) else {
        return false;
    };
    for index in 0..logs.len() {
        let log = &logs[index];
        if ends[index] != log.entries.as_slice().len() {
            return false;
        }
    }
    true
}

/// Returns whether the numbers of the configurations are ascending.
pub fn rise(list: &[Gathered]) -> bool
    ensures { OnTrue result (AreRisingTo list.now (length list.now)) }
{
    for at in 1..list.len() {
        if list[at].number <= list[at - 1].number {
            return false;
        }
    }
    true
}
