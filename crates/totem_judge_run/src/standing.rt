//! Where a log stands: whether it has failed, its last change, and the next one (docs/SPECIFICATIONS.md, "Pending and waiting").
ghost use Rattle.std.specs.Prelude.{◌↔◌, ◌<◌, IsTrue, length};
ghost use Rattle.std.specs.Bool.{OnTrue, OnFalse};
ghost use Rattle.totem_evs.specs.Changes.{StaysInPlace};
ghost use Rattle.totem_evs.specs.Following.{IsNextOrEnd};
ghost use Rattle.totem_evs.specs.Unsettled.{EndsIn};
ghost use Rattle.totem_judge_run.specs.Ends.{GoesOn};
ghost use Rattle.totem_judge_run.specs.Endings.{HasFailed, IsEnd};

use crate::ends_2_1;
use totem_evs::Entry;
use totem_names::ConfId;

/// Returns whether the log has a failure, which can only be at its end.
#[tactic(auto, using(std::proofs::lemmas::Option::slice_get_read, crate::proofs::Ending::goes_on))]
pub fn has_failed(log: &[Entry]) -> bool
    requires { StaysInPlace log.now }
    ensures failed { OnTrue result (HasFailed log.now) }
    ensures goes_on { OnFalse result (GoesOn log.now) }
{
    if log.is_empty() {
        return false;
    }
    matches!(&log[log.len() - 1], Entry::Fail(_))
}

/// Returns the index of the last change of a log that has no failure.
#[tactic(auto, using(crate::proofs::Ending::is_end))]
pub fn standing_change(log: &[Entry]) -> Option<usize>
    requires { StaysInPlace log.now }
    ensures { IsEnd log.now result }
{
    if has_failed(log) {
        return None;
    }
    ends_2_1::last_change(log)
}

/// Returns whether the log ends in the configuration: it has no failure, and its last change, at index `last`, is to it.
#[tactic(auto, using(crate::proofs::Ending::end_stands, crate::proofs::Ending::stands_last, crate::proofs::Ending::ends_decided))]
pub fn ends_in(log: &[Entry], last: Option<usize>, conf: &ConfId) -> bool
    requires { IsEnd log.now last }
    ensures { IsTrue result ↔ EndsIn log.now conf.now }
{
    match last {
        Some(_) => ends_2_1::ends_in(log, last, conf),
        None => false,
    }
}

/// Returns the index of the next change after an entry, or the length of the log if none follows. Looks at entry after entry.
#[tactic(auto, using(crate::proofs::Staying::next_is_end))]
pub fn walk_to_change(log: &[Entry], at: usize) -> usize
    requires { at < length log.now }
    ensures { IsNextOrEnd log.now at result }
{
    for next in at + 1..log.len() {
        if let Entry::Conf(_, _) = &log[next] {
            return next;
        }
    }
    log.len()
}
