//! What happened to a process that has to do something, and where it was instead.
use crate::lookup::{change_behind, change_in, log_of, place_of};
use std::alloc::{AllocError, Global};
use totem_evs::{Ending, Entry, Log, Run};
use totem_names::{ConfId, Place, Proc, RingId};

/// What a process did that never came to a configuration.
#[derive(Clone, Copy, PartialEq, Eq)]
pub enum Instead {
    /// Its log has no change.
    Nowhere,
    /// It began in a later configuration.
    Began(ConfId),
    /// It went from an earlier configuration to a later one.
    Passed(ConfId, ConfId),
    /// It ended in an earlier configuration.
    Ended(ConfId, Ending),
}

/// What happened to a process in a configuration and in what follows it.
#[derive(Clone, Copy, PartialEq, Eq)]
pub enum Fate {
    WithoutLog,
    NeverCame(ConfId, Instead),
    WentOn(ConfId),
    /// Its log ends there.
    Ended(ConfId, Ending),
}

/// The fate of a process, and the place at which it came about. There is none if it is the end of the log.
#[derive(Clone, Copy, PartialEq, Eq)]
pub struct Course {
    pub fate: Fate,
    pub place: Option<Place>,
}

/// Whether a text is about one process or about several.
#[derive(Clone, Copy, PartialEq, Eq)]
pub enum Number {
    One,
    Several,
}

impl Number {
    pub fn of(count: usize) -> Number {
        if count == 1 {
            Number::One
        } else {
            Number::Several
        }
    }

    /// Returns the form of a word for this number.
    pub fn form(self, one: &'static str, several: &'static str) -> &'static str {
        match self {
            Number::One => one,
            Number::Several => several,
        }
    }
}

/// Returns the word with which a run text closes a log.
pub fn word_of(ending: Ending) -> &'static str {
    match ending {
        Ending::Standing => "open",
        Ending::Failed => "failed",
        Ending::Quiet => "quiet",
    }
}

/// Returns the text about a process, or several, whose log ends in a configuration.
fn ended(
    alloc: Global,
    conf: &ConfId,
    ending: Ending,
    number: Number,
) -> Result<String, AllocError> {
    let is = number.form("is", "are");
    match ending {
        Ending::Standing => format!(in alloc; "{is} still in {conf}"),
        Ending::Failed => format!(in alloc; "failed in {conf}"),
        Ending::Quiet => format!(in alloc; "ended in {conf}, and {is} quiet"),
    }
}

impl Instead {
    fn told(&self, alloc: Global, number: Number) -> Result<String, AllocError> {
        match self {
            Instead::Nowhere => format!(in alloc; "changed to no configuration"),
            Instead::Began(to) => format!(in alloc; "began in {to}"),
            Instead::Passed(from, to) => format!(in alloc; "went from {from} on to {to}"),
            Instead::Ended(from, ending) => ended(alloc, from, *ending, number),
        }
    }
}

impl Fate {
    /// Returns whether nothing excuses the process: it neither failed nor is still in the configuration. A quiet log is no excuse, since
    /// it says that nothing more was to come.
    pub fn owes(&self) -> bool {
        !matches!(self, Fate::Ended(_, Ending::Standing | Ending::Failed))
    }

    /// Returns the text about the fate that goes after the process, or after several that share it.
    pub fn told(&self, alloc: Global, number: Number) -> Result<String, AllocError> {
        match self {
            Fate::WithoutLog => {
                let has = number.form("has", "have");
                format!(in alloc; "{has} no log")
            }
            Fate::NeverCame(conf, instead) => {
                let instead = instead.told(alloc, number)?;
                format!(in alloc; "never came to {conf}, but {instead}")
            }
            Fate::WentOn(conf) => format!(in alloc; "went on to {conf}"),
            Fate::Ended(conf, ending) => ended(alloc, conf, *ending, number),
        }
    }
}

impl Course {
    /// Nothing more was recorded.
    pub fn ended(fate: Fate) -> Course {
        Course { fate, place: None }
    }
}

/// Returns what a process did after entry `at` of its log, or `None` if it did not change again.
pub fn went_on(log: &Log, at: u32) -> Option<Course> {
    let (place, next) = change_behind(log, at)?;
    Some(Course {
        fate: Fate::WentOn(next),
        place: Some(place),
    })
}

/// Returns how a log ends: in a failure, too, if only other entries than changes come after it.
fn ending_of(log: &Log) -> Ending {
    let behind = log.entries.as_slice().iter().rev();
    let mut behind = behind.take_while(|entry| !matches!(entry, Entry::Conf(..)));
    match behind.any(|entry| matches!(entry, Entry::Fail(_))) {
        true => Ending::Failed,
        false => log.ending,
    }
}

/// Returns what a process did after entry `at` of its log, at which it is in `conf`.
fn behind(log: &Log, conf: &ConfId, at: u32) -> Course {
    match went_on(log, at) {
        Some(course) => course,
        None => Course::ended(Fate::Ended(*conf, ending_of(log))),
    }
}

/// Returns what a process did after entry `at` of its log, at which it is in `conf`. The transitional configuration that follows
/// still counts as part of it.
pub fn next_of(log: &Log, conf: &ConfId, at: u32) -> Course {
    match change_behind(log, at) {
        Some((place, next)) => match next {
            ConfId::Transitional { .. } => behind(log, &next, place.at),
            ConfId::Regular(_) => behind(log, conf, at),
        },
        None => behind(log, conf, at),
    }
}

/// Returns the ring of a configuration: of a transitional one, the ring to which it leads.
fn ring_of(conf: &ConfId) -> RingId {
    match conf {
        ConfId::Regular(ring) => *ring,
        ConfId::Transitional { next, .. } => *next,
    }
}

/// Returns whether a process that changes to `to` has gone past a configuration to which it never came, as the numbers of rings tell.
fn is_past(to: &ConfId, conf: &ConfId) -> bool {
    let ring = ring_of(conf);
    let reached = ring_of(to);
    match conf {
        ConfId::Regular(_) => ring.is_below(&reached),
        ConfId::Transitional { .. } => !reached.is_below(&ring),
    }
}

/// Returns what a process did that never came to this configuration.
pub fn instead_of(log: &Log, conf: &ConfId) -> Course {
    let mut last = None;
    for (index, entry) in log.entries.as_slice().iter().enumerate() {
        let Entry::Conf(to, _) = entry else {
            continue;
        };
        if is_past(to, conf) {
            let instead = match last {
                Some(from) => Instead::Passed(from, *to),
                None => Instead::Began(*to),
            };
            return Course {
                fate: Fate::NeverCame(*conf, instead),
                place: Some(place_of(log, index)),
            };
        }
        last = Some(*to);
    }
    Course::ended(match last {
        Some(from) => Fate::NeverCame(*conf, Instead::Ended(from, ending_of(log))),
        None => Fate::NeverCame(*conf, Instead::Nowhere),
    })
}

/// Returns what happened to a process in a configuration and in what follows it.
pub fn course_of(run: &Run, proc: Proc, conf: &ConfId) -> Course {
    let Some(log) = log_of(run, proc) else {
        return Course::ended(Fate::WithoutLog);
    };
    match change_in(log, conf) {
        Some(place) => next_of(log, conf, place.at),
        None => instead_of(log, conf),
    }
}
