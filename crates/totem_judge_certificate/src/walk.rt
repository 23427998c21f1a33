//! A walk over a run in the order of its numbers, from class to class. It ends early if the numbers do not order the run.
ghost use Rattle.std.specs.Prelude.{◌≡◌, ◌↔◌, ◌+◌, ◌^◌, ◌<◌, Some, IsTrue, MatchBool, IfSome, IfOk, length, slice_get};
ghost use Rattle.std.specs.Bool.{OnTrue};
ghost use Rattle.totem_names.specs.declared.place.Place.{Place};
ghost use Rattle.totem_evs.specs.Certificates.{Matches};
ghost use Rattle.totem_evs.specs.Runs.{IsRun};
ghost use Rattle.totem_certificate.specs.Keeping.{IsCertificate};
ghost use Rattle.totem_outcome.specs.Each.{SomePair};
ghost use Rattle.totem_outcome.specs.Kinds.{NumberIsShared};
ghost use Rattle.totem_outcome.specs.Rising.{LinesRise};
ghost use Rattle.totem_judge_certificate.specs.Walks.{IsHead, IsAhead, IsLesser, IsLeastTo, IsStepped, AreOne, IsPassed, AreClasses, IsCleanTo, IsClean, IsUnclean};

use crate::passed::Passed;
use std::alloc::{AllocError, Global};
use totem_certificate::Line;
use totem_evs::{Entry, Log};

/// The next number of a log, at this index of the logs.
#[derive(Clone, Copy)]
struct Head {
    log: usize,
    number: u32,
}

fn number_at(line: &Line, at: usize) -> Option<u32>
    ensures number { result ≡ slice_get line.now.numbers at }
    ensures room { IfSome result (λ _. at + 1 < 2 ^ 64) }
{
    line.numbers.as_slice().get(at).copied()
}

/// Returns whether the line has this number at the index.
fn is_number_at(line: &Line, at: usize, number: u32) -> bool
    ensures number { IsTrue result ↔ (slice_get line.now.numbers at ≡ Some number) }
    ensures room { OnTrue result (at + 1 < 2 ^ 64) }
{
    matches!(number_at(line, at), Some(other) if other == number)
}

/// Returns the head with the lesser number, or the first one if they share it.
fn lesser(first: Option<Head>, second: Head) -> Head
    ensures { IsLesser first second result }
{
    match first {
        Some(head) if head.number <= second.number => head,
        _ => second,
    }
}

/// Returns the first of the heads with the least number, or `None` if all entries have been passed. `passed` has the number of
/// entries passed in each log; these have numbers up to `last`.
fn least_head(lines: &[Line], passed: &[usize], last: u32) -> Option<Head>
    requires as_many { length passed.now ≡ length lines.now }
    requires passed { IsPassed lines.now passed.now last }
    ensures { IsLeastTo lines.now passed.now (length lines.now) result }
{
    let mut least = None;
    for log in 0..lines.len() {
        if let Some(number) = number_at(&lines[log], passed[log]) {
            if number - last == 1 {
                return Some(Head { log, number });
            }
            least = Some(lesser(least, Head { log, number }));
        }
    }
    least
}

/// Returns the entry at this head.
fn entry_at<'a>(logs: &'a [Log], lines: &[Line], passed: &[usize], head: Head) -> &'a Entry
    requires matches { Matches logs.now lines.now }
    requires head { IsHead lines.now passed.now head.log head.number }
    ensures { (place : Place) × IsAhead logs.now lines.now passed.now head.log place result.now head.number }
{
    let log = &logs[head.log];
    let at = passed[head.log];
    let entries = log.entries.as_slice();
    &entries[at]
}

/// Passes the next entries that have the number of this head. Returns whether they are its own, `first`, or of one class with it; if not,
/// passes only some of them.
fn pass(logs: &[Log], lines: &[Line], passed: &mut [usize], head: Head, first: &Entry) -> bool
    requires matches { Matches logs.now lines.now }
    requires run { IsRun logs.now }
    requires as_many { length passed.old ≡ length lines.now }
    requires first { (place : Place) × IsAhead logs.now lines.now passed.old head.log place first.now head.number }
    ensures one { MatchBool result (AreOne logs.now lines.now passed.old head.log first.now head.number)
        (SomePair NumberIsShared logs.now lines.now) }
    ensures stepped { OnTrue result (IsStepped lines.now head.number passed.old passed.new (length lines.now)) }
{
    let number = head.number;
    for log in 0..lines.len() {
        if !is_number_at(&lines[log], passed[log], number) {
            continue;
        }
        if log != head.log {
            let entry = entry_at(logs, lines, passed, Head { log, number });
            if !entry.is_of_class_of(first) {
                return false;
            }
        }
        passed[log] += 1;
    }
    true
}

/// Walks from class to class as long as the numbers order the run. Returns whether they do so up to the end.
fn walk(
    logs: &[Log],
    lines: &[Line],
    passed: &mut [usize],
    classes: &mut Passed,
) -> Result<bool, AllocError>
    requires matches { Matches logs.now lines.now }
    requires run { IsRun logs.now }
    requires rise { LinesRise lines.now (length lines.now) }
    requires as_many { length passed.old ≡ length lines.now }
    requires passed { IsPassed lines.now passed.old 0 }
    requires classes { AreClasses logs.now lines.now classes.old 0 }
    requires clean { IsCleanTo logs.now lines.now 0 }
    ensures { IfOk result (λ clean. MatchBool clean (IsClean logs.now lines.now) (IsUnclean logs.now lines.now)) }
{
    let mut last = 0;
    while let Some(head) = least_head(lines, passed, last) {
        prove!(last < head.number);
        let first = entry_at(logs, lines, passed, head);
        if !classes.note(first)? || !pass(logs, lines, passed, head, first) {
            return Ok(false);
        }
        last = head.number;
    }
    Ok(true)
}

/// Returns whether the numbers order the run: each send is below the deliveries of its message, and events share a number
/// if and only if they are of one class. The numbers of each line have to be ascending.
#[tactic(auto, using(crate::proofs::Passing::start_classes, crate::proofs::Passing::start_clean))]
pub fn is_ordered(alloc: Global, logs: &[Log], lines: &[Line]) -> Result<bool, AllocError>
    requires matches { Matches logs.now lines.now }
    requires run { IsRun logs.now }
    requires certificate { IsCertificate lines.now }
    requires rise { LinesRise lines.now (length lines.now) }
    ensures { IfOk result (λ clean. MatchBool clean (IsClean logs.now lines.now) (IsUnclean logs.now lines.now)) }
{
    let mut passed = vec![in alloc; 0usize; lines.len()]?;
    let mut classes = Passed::none(alloc);
    walk(logs, lines, &mut passed, &mut classes)
}
