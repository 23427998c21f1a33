//! Members of a configuration that did not do what the others rely on, each with what happened to it.
use crate::event::place_name;
use crate::fate::{Course, Fate, Number, instead_of, went_on};
use crate::groups::add_to_group;
use crate::lookup::{change_in, entry_at, last_change, log_of, place_of};
use std::alloc::{AllocError, Global};
use totem_evs::{Ending, Entry, Log, Run};
use totem_names::{ConfId, Place, Proc, Version};

/// A process and what happened to it.
#[derive(Clone, Copy)]
pub struct Member {
    pub proc: Proc,
    pub course: Course,
}

/// Returns the first failure of a log.
fn failure_in(log: &Log) -> Option<Course> {
    let mut entries = log.entries.as_slice().iter().enumerate();
    entries.find_map(|(index, entry)| match entry {
        Entry::Fail(conf) => Some(Course {
            fate: Fate::Ended(*conf, Ending::Failed),
            place: Some(place_of(log, index)),
        }),
        _ => None,
    })
}

/// Returns what a process did instead of ending in the configuration, or `None` if it ended there or may still come.
fn parted_by(log: &Log, conf: &ConfId) -> Option<Course> {
    if let Some(failure) = failure_in(log) {
        return Some(failure);
    }
    if let Some((last, _)) = last_change(log)
        && last.is(conf)
    {
        return None;
    }
    match change_in(log, conf) {
        Some(came) => went_on(log, came.at),
        None if log.ending == Ending::Quiet => Some(instead_of(log, conf)),
        None => None,
    }
}

/// 2.1: returns the members of the configuration that neither end in it nor may still come. A quiet log ends in it by this change.
pub fn parted(alloc: Global, run: &Run, change: Place) -> Result<Vec<Member>, AllocError> {
    let mut list = Vec::new(alloc);
    let Some(Entry::Conf(conf, members)) = entry_at(run, change) else {
        return Ok(list);
    };
    for proc in members.as_slice() {
        let course = match log_of(run, *proc) {
            Some(log) => parted_by(log, conf),
            None => Some(Course::ended(Fate::WithoutLog)),
        };
        if let Some(course) = course {
            list.push(Member {
                proc: *proc,
                course,
            })?;
        }
    }
    Ok(list)
}

/// Returns these processes as they stand in a sentence, as in `Process 2` or `Processes 2, 3 and 4`.
pub fn named(alloc: Global, version: Version, procs: &[Proc]) -> Result<String, AllocError> {
    let process = Number::of(procs.len()).form("Process ", "Processes ");
    let mut text = String::from_str(alloc, process)?;
    let last = procs.len().saturating_sub(1);
    for (index, proc) in procs.iter().enumerate() {
        let proc = proc.written(version);
        match index {
            0 => write!(text, "{proc}")?,
            _ if index == last => write!(text, " and {proc}")?,
            _ => write!(text, ", {proc}")?,
        }
    }
    Ok(text)
}

/// Returns these places in brackets after a space, or nothing if there are none.
pub fn bracketed(alloc: Global, version: Version, places: &[Place]) -> Result<String, AllocError> {
    let mut text = String::new(alloc);
    for place in places {
        text.push_str(if text.is_empty() { " (" } else { ", " })?;
        text.push_str(place_name(alloc, version, *place)?.as_str())?;
    }
    if !text.is_empty() {
        text.push_str(")")?;
    }
    Ok(text)
}

/// Returns what happened to these members, with those that share a fate in one line. `missed`, if any, says first what all of them did
/// not do.
pub fn told_together(
    alloc: Global,
    version: Version,
    missed: &str,
    list: &[Member],
) -> Result<String, AllocError> {
    let mut groups = Vec::new(alloc);
    for Member { proc, course } in list {
        add_to_group(alloc, &mut groups, course.fate, *proc, course.place)?;
    }
    let mut text = String::new(alloc);
    for group in &groups {
        let number = Number::of(group.procs.len());
        let procs = named(alloc, version, group.procs.as_slice())?;
        let places = bracketed(alloc, version, group.places.as_slice())?;
        let told = group.shared.told(alloc, number)?;
        if missed.is_empty() {
            write!(text, "  {procs} {told}{places}.\n")?;
        } else {
            let it = number.form("it", "they");
            write!(text, "  {procs} {missed}: {it} {told}{places}.\n")?;
        }
    }
    Ok(text)
}
