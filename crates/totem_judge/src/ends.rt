//! Which logs stay in a configuration, which end there, and which are open there (docs/SPECIFICATIONS.md, "Failed and open").
ghost use Rattle.std.specs.Prelude.{◌≡◌, ◌↔◌, IsTrue, length};
ghost use Rattle.totem_judge.specs.Ends.{IsExcusedIn, GoesOnAt, AreEnds};

use crate::gathered::Stay;
use totem_evs::{Ending, Log};
use totem_judge_traffic::LogSet;

/// The logs that stay in a configuration, those of them that fail or are open there, and those that are open.
#[derive(Clone, Copy)]
pub struct Ends {
    pub logs: LogSet,
    pub ended: LogSet,
    pub open: LogSet,
}

/// Returns whether the stay reaches the end of a log that is not quiet.
fn is_excused(logs: &[Log], stay: &Stay) -> bool
    ensures { IsTrue result ↔ IsExcusedIn logs.now stay.now }
{
    match logs.get(stay.log as usize) {
        Some(log) => stay.end == log.entries.as_slice().len() && log.ending != Ending::Quiet,
        None => false,
    }
}

/// Returns whether the log of the stay does not end as failed.
fn goes_on(logs: &[Log], stay: &Stay) -> bool
    ensures { IsTrue result ↔ GoesOnAt logs.now stay.now }
{
    match logs.get(stay.log as usize) {
        Some(log) => log.ending != Ending::Failed,
        None => false,
    }
}

/// Returns how the stays end.
pub fn ends_of(logs: &[Log], stays: &[Stay]) -> Ends
    ensures { AreEnds logs.now stays.now (length stays.now) result.logs result.ended result.«open» }
{
    let mut ends = Ends {
        logs: LogSet::none(),
        ended: LogSet::none(),
        open: LogSet::none(),
    };
    for stay in stays {
        ends.logs = ends.logs.with(stay.log);
        if is_excused(logs, stay) {
            ends.ended = ends.ended.with(stay.log);
            if goes_on(logs, stay) {
                ends.open = ends.open.with(stay.log);
            }
        }
    }
    ends
}
