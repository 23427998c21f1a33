//! Which entries of a run are drawn.
use crate::subject::Subject;
use std::alloc::{AllocError, Global};
use totem_evs::{Entry, Log, Run};
use totem_explain::{Absence, Excerpt, Lacked, Lane, entry_at, message_of};
use totem_names::{MsgId, Place};

/// A run with at most this many entries is drawn whole.
const WHOLE: usize = 120;

/// How many entries are drawn before and after a place.
const AROUND: u32 = 3;

/// Around how many places a picture is drawn, and for how many the messages are followed.
const PLACES: usize = 32;

/// How many further entries with the messages at the places are drawn at most.
const FOLLOWED: usize = 150;

/// What is drawn: everything, or the entries near these places and those with these messages.
#[derive(Drop)]
struct Choice<'a> {
    is_whole: bool,
    places: &'a [Place],
    absences: &'a [Absence],
    messages: Vec<MsgId>,
    /// How many entries with the messages may still be added.
    left: usize,
}

/// Returns whether a run is drawn whole.
pub fn is_small(run: &Run) -> bool {
    let mut length = 0usize;
    for log in run.logs.as_slice() {
        length = length.saturating_add(log.entries.as_slice().len());
    }
    length <= WHOLE
}

fn add_message(messages: &mut Vec<MsgId>, message: MsgId) -> Result<(), AllocError> {
    if !messages.contains(&message) {
        messages.push(message)?;
    }
    Ok(())
}

/// Returns the messages that are sent or delivered at the places of a subject, or that logs lack.
fn messages_of(alloc: Global, subject: &Subject<'_>) -> Result<Vec<MsgId>, AllocError> {
    let mut messages = Vec::new(alloc);
    for place in subject.places.iter().take(PLACES) {
        if let Some(message) = entry_at(subject.run, *place).and_then(message_of) {
            add_message(&mut messages, message)?;
        }
    }
    for absence in subject.absences.iter().take(PLACES) {
        if let Lacked::Delivery(message) = absence.event {
            add_message(&mut messages, message)?;
        }
    }
    Ok(messages)
}

fn are_near(one: Place, other: Place) -> bool {
    one.proc == other.proc && one.at.abs_diff(other.at) <= AROUND
}

impl<'a> Choice<'a> {
    /// Returns whether an entry is near one of the places, or near the place at which a missing event was due.
    fn is_near(&self, place: Place) -> bool {
        let mut places = self.places.iter().take(PLACES);
        let mut absences = self.absences.iter().take(PLACES);
        places.any(|near| are_near(*near, place))
            || absences.any(|absence| are_near(absence.due, place))
    }

    /// Returns whether an entry has one of the messages and may be drawn, and if so counts it.
    fn is_followed(&mut self, entry: &Entry) -> bool {
        if self.left == 0 {
            return false;
        }
        let is_followed = message_of(entry).is_some_and(|message| self.messages.contains(&message));
        if is_followed {
            self.left -= 1;
        }
        is_followed
    }

    /// Returns the numbers of a log's entries that are drawn.
    fn drawn_of(&mut self, alloc: Global, log: &Log) -> Result<Vec<u32>, AllocError> {
        let mut drawn = Vec::new(alloc);
        let mut at = 0u32;
        for entry in log.entries.as_slice() {
            at = at.saturating_add(1);
            let place = Place { proc: log.proc, at };
            if self.is_whole || self.is_near(place) || self.is_followed(entry) {
                drawn.push(at)?;
            }
        }
        Ok(drawn)
    }
}

/// Returns the lanes of a subject's run: all its entries if it is small, otherwise those near the places and those that send or deliver
/// the messages there. A log of which nothing is drawn has no lane.
pub fn lanes_of(alloc: Global, subject: &Subject<'_>) -> Result<Vec<Lane>, AllocError> {
    let run = subject.run;
    let mut choice = Choice {
        is_whole: is_small(run),
        places: subject.places,
        absences: subject.absences,
        messages: messages_of(alloc, subject)?,
        left: FOLLOWED,
    };
    let mut lanes = Vec::new(alloc);
    for log in run.logs.as_slice() {
        let drawn = choice.drawn_of(alloc, log)?;
        if !drawn.is_empty() {
            lanes.push(Lane::of(
                alloc,
                Excerpt {
                    log,
                    entries: drawn.as_slice(),
                    absences: subject.absences,
                },
            )?)?;
        }
    }
    Ok(lanes)
}
