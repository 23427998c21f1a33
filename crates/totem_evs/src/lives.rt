//! Which logs the texts of a version can write.
ghost use Rattle.std.specs.Prelude.{◌≡◌, ◌↔◌, IsTrue, IfSome, IfNone, All, false};
ghost use Rattle.totem_names.specs.Ranks.{life_of};
ghost use Rattle.totem_evs.specs.Missing.{members_of};
ghost use Rattle.totem_evs.specs.Runs.{IsRun, IsRunIn};
ghost use Rattle.totem_names.specs.Processes.{writes_lives};
ghost use Rattle.totem_evs.specs.declared.ending.Ending.TheVariants.{Quiet};
ghost use Rattle.totem_evs.specs.Endings.{writes_quiet};
ghost use Rattle.totem_evs.specs.Lives.{AreFirst, AreLoud, HasFirstLives, IsFirstVersion, IsUnsaid, IsUnwritten, RefusesRun};

use crate::ending::{Ending, may_be_quiet};
use crate::entry::Entry;
use crate::log::Log;
use totem_names::{ListFault, Proc, Version};

fn are_first(procs: &[Proc]) -> bool
    ensures { IsTrue result ↔ AreFirst procs.now }
{
    procs.iter().all(|proc| proc.life() == 1)
}

fn name_first(entries: &[Entry]) -> bool
    ensures { IsTrue result ↔ All (λ e. AreFirst (members_of e)) entries.now }
{
    entries.iter().all(|entry| are_first(entry.members()))
}

fn has_first_lives(log: &Log) -> bool
    ensures { IsTrue result ↔ HasFirstLives log.now }
{
    log.proc.life() == 1 && name_first(log.entries.as_slice())
}

fn is_quiet(log: &Log) -> bool
    ensures { IsTrue result ↔ (log.now.ending ≡ Quiet) }
{
    log.ending == Ending::Quiet
}

/// Returns the index of the first log with lives that a text of this version does not write.
fn first_unwritten(version: Version, logs: &[Log]) -> Option<usize>
    ensures some { IfSome result (IsUnwritten version logs.now) }
    ensures none { IfNone result (writes_lives version ≡ false → All HasFirstLives logs.now) }
{
    if version.lives() {
        return None;
    }
    for (at, log) in logs.iter().enumerate() {
        if !has_first_lives(log) {
            return Some(at);
        }
    }
    None
}

/// Returns the index of the first quiet log if a text of this version has no word for it.
fn first_unsaid(version: Version, logs: &[Log]) -> Option<usize>
    ensures some { IfSome result (IsUnsaid version logs.now) }
    ensures none { IfNone result (writes_quiet version ≡ false → AreLoud logs.now) }
{
    if may_be_quiet(version) {
        return None;
    }
    for (at, log) in logs.iter().enumerate() {
        if is_quiet(log) {
            return Some(at);
        }
    }
    None
}

/// Returns the first rule of a run of this version that these logs break, or `None` if a text of it can write them all.
pub fn refusal(version: Version, logs: &[Log]) -> Option<ListFault>
    requires { IsRun logs.now }
    ensures some { IfSome result (RefusesRun version logs.now) }
    ensures none { IfNone result (IsRunIn version logs.now) }
{
    if let Some(at) = first_unwritten(version, logs) {
        return Some(ListFault::Life(at));
    }
    if let Some(at) = first_unsaid(version, logs) {
        return Some(ListFault::Silence(at));
    }
    None
}

/// Returns the first version whose texts can write these logs.
pub fn first_version(logs: &[Log]) -> Version
    ensures { IsFirstVersion result logs.now }
{
    if logs.iter().any(is_quiet) {
        return Version::Three;
    }
    if logs.iter().all(has_first_lives) {
        return Version::One;
    }
    Version::Two
}
