//! 2.1: where a quiet log ends, each member ends too or may still arrive (docs/SPECIFICATIONS.md, "2 Changes of configuration"). This is
//! the rule, which says yes. The search, which names what breaks it, is totem_pass_ab `ends_2_1`. If no log is quiet, only the endings of
//! the logs are read. Otherwise each log is walked once for a failure, and once from its end back to its last change. A log is walked
//! again, once for each quiet log whose last configuration has its process as a member, only if it is not quiet itself and its own last
//! change is to another configuration.
ghost use Rattle.std.specs.Prelude.{◌≡◌, ◌↔◌, IsTrue, IfSome, IfNone, IfOk, MatchOption, [], ◌∷◌};
ghost use Rattle.std.specs.Bool.{OnTrue, OnFalse};
ghost use Rattle.totem_evs.specs.Following.{LastChange};
ghost use Rattle.totem_evs.specs.Changes.{SharesEnd, EndsTogether};
ghost use Rattle.totem_evs.specs.Answers.{IsLeastBreak};
ghost use Rattle.totem_judge_run.specs.Ends.{IsChangeTo, NeverChangesTo, GoesOn, IsLast, IsLogEnd, AreLogEnds, MayCome, LogShares, IsLogOf, HasNoLog, AllShare, SomeStrays, StraysAt, EndsWithAll};

use std::alloc::{AllocError, Global};
use totem_evs::{Ending, Entry, Log, Run, SpecNo};
use totem_names::{ConfId, Place, Proc};

/// Where a log ends: whether it has no failure, and the index of its last change.
#[derive(Clone, Copy)]
struct LogEnd {
    goes_on: bool,
    last: Option<usize>,
}

fn is_quiet(log: &Log) -> bool
    ensures { IsTrue result ↔ (log.now.ending ≡ Ending.Quiet) }
{
    matches!(log.ending, Ending::Quiet)
}

/// Returns whether a run has a quiet log. If it has none, it meets 2.1.
fn has_quiet(run: &Run) -> bool
    ensures { OnFalse result (EndsTogether run.now.logs) }
{
    for log in run.logs.as_slice() {
        if is_quiet(log) {
            return true;
        }
    }
    false
}

/// Returns whether a log has no failure, at its end or elsewhere.
fn goes_on(log: &[Entry]) -> bool
    ensures { IsTrue result ↔ GoesOn log.now }
{
    for entry in log {
        if entry.is_failure() {
            return false;
        }
    }
    true
}

/// Returns the index of the last change of a log.
pub fn last_change(log: &[Entry]) -> Option<usize>
    ensures { IsLast log.now result }
{
    for back in 0..log.len() {
        let at = log.len() - 1 - back;
        if let Entry::Conf(_, _) = &log[at] {
            return Some(at);
        }
    }
    None
}

/// Returns where each log of a run ends.
fn ends_of(alloc: Global, run: &Run) -> Result<Vec<LogEnd>, AllocError>
    ensures { IfOk result (λ ends. AreLogEnds run.now.logs ends.items) }
{
    let logs = run.logs.as_slice();
    let mut ends = Vec::with_capacity(alloc, logs.len())?;
    for log in logs {
        let entries = log.entries.as_slice();
        let goes_on = goes_on(entries);
        let last = last_change(entries);
        ends.push(LogEnd { goes_on, last })?;
    }
    Ok(ends)
}

fn is_change_to(entry: &Entry, conf: &ConfId) -> bool
    ensures { IsTrue result ↔ IsChangeTo entry.now conf.now }
{
    match entry {
        Entry::Conf(other, _) => other.is(conf),
        _ => false,
    }
}

fn never_changes_to(log: &[Entry], conf: &ConfId) -> bool
    ensures { IsTrue result ↔ NeverChangesTo log.now conf.now }
{
    for entry in log {
        if is_change_to(entry, conf) {
            return false;
        }
    }
    true
}

/// Returns whether the last change of a log is to the configuration.
pub fn ends_in(log: &[Entry], last: Option<usize>, conf: &ConfId) -> bool
    requires { IsLast log.now last }
    ensures { IsTrue result ↔ LastChange log.now conf.now }
{
    let Some(at) = last else {
        return false;
    };
    is_change_to(&log[at], conf)
}

/// Returns whether the process of a log may still arrive in the configuration: the log is not quiet, and never changes to it.
fn may_come(log: &Log, conf: &ConfId) -> bool
    ensures { IsTrue result ↔ MayCome log.now conf.now }
{
    !is_quiet(log) && never_changes_to(log.entries.as_slice(), conf)
}

/// Returns whether a log ends in the configuration, or its process may still arrive there.
fn shares(log: &Log, end: &LogEnd, conf: &ConfId) -> bool
    requires { IsLogEnd log.now.entries end.now }
    ensures { IsTrue result ↔ LogShares log.now conf.now }
{
    end.goes_on && (ends_in(log.entries.as_slice(), end.last, conf) || may_come(log, conf))
}

/// Returns the index of the log of this process.
#[tactic(auto, using(crate::proofs::EndsTogether::no_log, crate::proofs::Common::gathered))]
pub fn index_of(run: &Run, proc: Proc) -> Option<usize>
    ensures found { IfSome result (IsLogOf run.now.logs proc) }
    ensures none { IfNone result (HasNoLog run.now.logs proc) }
{
    for (k, log) in run.logs.as_slice().iter().enumerate() {
        if log.proc.rank() == proc.rank() {
            return Some(k);
        }
    }
    None
}

/// Returns whether this process has a log that ends in the configuration, or after which it may still arrive there.
fn shares_end(run: &Run, ends: &[LogEnd], conf: &ConfId, proc: Proc) -> bool
    requires { AreLogEnds run.now.logs ends.now }
    ensures { IsTrue result ↔ SharesEnd run.now.logs conf.now proc }
{
    match index_of(run, proc) {
        Some(k) => shares(&run.logs.as_slice()[k], &ends[k], conf),
        None => false,
    }
}

/// Returns whether all these members end in the configuration, or may still arrive there.
#[tactic(auto, using(crate::proofs::EndsTogether::all_share))]
fn all_share(run: &Run, ends: &[LogEnd], conf: &ConfId, members: &[Proc]) -> bool
    requires { AreLogEnds run.now.logs ends.now }
    ensures all { OnTrue result (AllShare run.now.logs conf.now members.now) }
    ensures not_all { OnFalse result (SomeStrays run.now.logs conf.now members.now) }
{
    for member in members {
        if !shares_end(run, ends, conf, *member) {
            return false;
        }
    }
    true
}

/// Returns the index of the last change of a log, if a member does not share that end.
fn strays_at(run: &Run, ends: &[LogEnd], log: &[Entry], last: Option<usize>) -> Option<usize>
    requires ends { AreLogEnds run.now.logs ends.now }
    requires last { IsLast log.now last }
    ensures found { IfSome result (StraysAt run.now.logs log.now) }
    ensures none { IfNone result (EndsWithAll run.now.logs log.now) }
{
    let Some(at) = last else {
        return None;
    };
    let Entry::Conf(conf, members) = &log[at] else {
        return None;
    };
    if all_share(run, ends, conf, members.as_slice()) {
        return None;
    }
    Some(at)
}

/// Returns the index of the last change of a log, if the log is quiet and a member does not share that end.
fn ends_alone(run: &Run, ends: &[LogEnd], log: &Log, last: Option<usize>) -> Option<usize>
    requires ends { AreLogEnds run.now.logs ends.now }
    requires last { IsLast log.now.entries last }
    ensures quiet { IfSome result (λ i. log.now.ending ≡ Ending.Quiet) }
    ensures found { IfSome result (StraysAt run.now.logs log.now.entries) }
    ensures none { IfNone result (log.now.ending ≡ Ending.Quiet → EndsWithAll run.now.logs log.now.entries) }
{
    if !is_quiet(log) {
        return None;
    }
    strays_at(run, ends, log.entries.as_slice(), last)
}

/// Returns the first event of a run in which a quiet log ends without one of its members.
fn first_of(run: &Run, ends: &[LogEnd]) -> Option<Place>
    requires { AreLogEnds run.now.logs ends.now }
    ensures least { IfSome result (λ e. IsLeastBreak run.now.logs SpecNo.End (e ∷ [])) }
    ensures none { IfNone result (EndsTogether run.now.logs) }
{
    for (k, log) in run.logs.as_slice().iter().enumerate() {
        let last = ends[k].last;
        if let Some(i) = ends_alone(run, ends, log, last) {
            return Some(Place {
                proc: log.proc,
                at: (i + 1) as u32,
            });
        }
    }
    None
}

/// Returns the first event of a run in which a quiet log ends without one of its members.
pub fn first_end_alone(alloc: Global, run: &Run) -> Result<Option<Place>, AllocError>
    ensures { IfOk result (λ found. MatchOption found (EndsTogether run.now.logs) (λ e. IsLeastBreak run.now.logs SpecNo.End (e ∷ []))) }
{
    if !has_quiet(run) {
        return Ok(None);
    }
    let ends = ends_of(alloc, run)?;
    Ok(first_of(run, &ends))
}

/// Returns `true` only if the run meets the specification.
pub fn end_together(alloc: Global, run: &Run) -> Result<bool, AllocError>
    ensures { IfOk result (λ ok. OnTrue ok (EndsTogether run.now.logs)) }
{
    Ok(first_end_alone(alloc, run)?.is_none())
}
