//! The tests of a certificate that look at its lines only: whether they match the logs, and whether their numbers are ascending.
ghost use Rattle.std.specs.Prelude.{◌↔◌, IsTrue, MatchBool, length};
ghost use Rattle.totem_evs.specs.Certificates.{Matches};
ghost use Rattle.totem_outcome.specs.Counts.{IsLineOf};
ghost use Rattle.totem_outcome.specs.Rising.{RisesBefore, FallsSomewhere, LinesRise, LineFalls};

use totem_certificate::Line;
use totem_evs::Log;

fn is_line_of(log: &Log, line: &Line) -> bool
    ensures { IsTrue result ↔ IsLineOf log.now line.now }
{
    log.proc == line.proc && log.entries.as_slice().len() == line.numbers.as_slice().len()
}

/// Returns whether the lines match the logs: the same processes, and a number for each entry.
pub fn matches_logs(logs: &[Log], lines: &[Line]) -> bool
    ensures { MatchBool result (Matches logs.now lines.now) (Matches logs.now lines.now → ⊥) }
{
    if logs.len() != lines.len() {
        return false;
    }
    for at in 0..logs.len() {
        if !is_line_of(&logs[at], &lines[at]) {
            return false;
        }
    }
    true
}

/// Returns whether the numbers are strictly ascending.
pub fn rises(numbers: &[u32]) -> bool
    ensures { MatchBool result (RisesBefore numbers.now (length numbers.now)) (FallsSomewhere numbers.now) }
{
    for at in 1..numbers.len() {
        if numbers[at] <= numbers[at - 1] {
            return false;
        }
    }
    true
}

/// Returns whether the numbers of each line are strictly ascending.
pub fn all_rise(lines: &[Line]) -> bool
    ensures { MatchBool result (LinesRise lines.now (length lines.now)) (LineFalls lines.now) }
{
    lines.iter().all(|line| rises(line.numbers.as_slice()))
}
