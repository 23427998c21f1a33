//! Why the places of a fault break the specification, and what is missing there.
use crate::absence::{Absence, Lacked, lack_of};
use crate::cycle::cycle;
use crate::event::place_name;
use crate::lookup::{change_before, delivery_in, entry_at, entry_of, log_of, message_at};
use crate::twice::twice;
use crate::unsent::unsent;
use std::alloc::{AllocError, Global};
use totem_evs::{Entry, Fault, Run, SpecNo};
use totem_names::Place;

/// 2.2: returns why the entry may not be at its place.
fn misplaced(alloc: Global, run: &Run, place: Place) -> Result<String, AllocError> {
    let Some(log) = log_of(run, place.proc) else {
        return Ok(String::new(alloc));
    };
    if let Some(Entry::Fail(_)) = entry_of(log, place.at.saturating_sub(1)) {
        return format!(in alloc; "  It follows a failure.\n");
    }
    match change_before(log, place.at) {
        None => format!(in alloc; "  No change comes before it.\n"),
        Some((conf, _)) => {
            let proc = place.proc.written(run.version);
            format!(in alloc; "  Process {proc} was in {conf} then.\n")
        }
    }
}

/// 2.3: returns what does not fit.
fn configuration(alloc: Global, run: &Run, places: &[Place]) -> Result<String, AllocError> {
    let Some(first) = places.first() else {
        return Ok(String::new(alloc));
    };
    let proc = first.proc.written(run.version);
    match places.get(1) {
        None => format!(in alloc; "  Process {proc} is not one of these members.\n"),
        Some(second) if second.proc == first.proc => {
            format!(in alloc; "  Process {proc} changed to it twice.\n")
        }
        Some(_) => format!(in alloc; "  The two do not have the same members.\n"),
    }
}

/// 2.4: returns what does not alternate or does not fit.
fn turns(alloc: Global, places: &[Place]) -> Result<String, AllocError> {
    match places.len() {
        1 => format!(in alloc; "  A log can't begin with a transitional configuration.\n"),
        2 => format!(in alloc;
            "  The second can't come next: it is of the same kind, or its members or its ring don't fit the first.\n"
        ),
        _ => format!(in alloc;
            "  Two processes came to one transitional configuration from different regular ones.\n"
        ),
    }
}

/// Returns what a process did at a place before which it had to deliver a message.
fn done_instead(alloc: Global, run: &Run, place: Place) -> Result<String, AllocError> {
    let name = place_name(alloc, run.version, place)?;
    match entry_at(run, place) {
        Some(Entry::Conf(conf, _)) => format!(in alloc; "went on to {conf} ({name})"),
        Some(Entry::Deliver(message, conf)) => {
            format!(in alloc; "delivered {message} in {conf} ({name})")
        }
        _ => Ok(name),
    }
}

/// 4, 5, 6.3: returns a line that says that the process at `due` lacks the message at `known` there, and what it did instead.
fn lacks(alloc: Global, run: &Run, known: Place, due: Place) -> Result<String, AllocError> {
    let (Some(message), Some(log)) = (message_at(run, known), log_of(run, due.proc)) else {
        return Ok(String::new(alloc));
    };
    let proc = due.proc.written(run.version);
    let instead = done_instead(alloc, run, due)?;
    match delivery_in(log, message) {
        Some(place) => {
            let place = place_name(alloc, run.version, place)?;
            format!(in alloc;
                "  Process {proc} delivered {message} too late ({place}): before, it {instead}.\n"
            )
        }
        None => format!(in alloc;
            "  Process {proc} never delivered {message}: it {instead} without it.\n"
        ),
    }
}

/// Returns lines that say why the places of a fault of 1, 2 or 6.1 break the specification.
fn happened(alloc: Global, run: &Run, fault: &Fault) -> Result<String, AllocError> {
    let places = fault.places.as_slice();
    match (fault.spec, places) {
        (SpecNo::Cycle | SpecNo::Order, _) => cycle(alloc, run, places),
        (SpecNo::Unsent, [delivery, ..]) => match message_at(run, *delivery) {
            Some(message) => unsent(alloc, run, *delivery, message),
            None => Ok(String::new(alloc)),
        },
        (SpecNo::Twice, _) => twice(alloc, run, places),
        (SpecNo::Misplaced, [entry, ..]) => misplaced(alloc, run, *entry),
        (SpecNo::Configuration, _) => configuration(alloc, run, places),
        (SpecNo::Turns, _) => turns(alloc, places),
        _ => Ok(String::new(alloc)),
    }
}

/// Why a fault breaks its specification.
#[derive(Debug, Drop)]
pub struct Reason {
    /// Lines that say why, and what is missing there.
    pub text: String,
    /// The events whose absence is the fault, in ascending order of the logs that lack them. There are none if the fault is something that
    /// happened.
    pub absences: Vec<Absence>,
}

impl Reason {
    /// 4, 5, 6.3: returns the reason of a fault that the process at `due` lacks the message at `known` there.
    fn lacks(alloc: Global, run: &Run, known: Place, due: Place) -> Result<Reason, AllocError> {
        let mut absences = Vec::new(alloc);
        if let Some(message) = message_at(run, known) {
            absences.push(Absence {
                event: Lacked::Delivery(message),
                due,
            })?;
        }
        Ok(Reason {
            text: lacks(alloc, run, known, due)?,
            absences,
        })
    }

    /// Returns the reason of a fault of the run.
    pub fn of(alloc: Global, run: &Run, fault: &Fault) -> Result<Reason, AllocError> {
        if let (SpecNo::Atomicity | SpecNo::Causality | SpecNo::Gap, [known, _, due, ..]) = (
            fault.spec,
            fault.places.as_slice(),
        ) {
            return Reason::lacks(alloc, run, *known, *due);
        }
        match lack_of(alloc, run, fault)? {
            Some(lack) => Ok(Reason {
                text: lack.told(alloc, run.version)?,
                absences: lack.absences(alloc, run)?,
            }),
            None => Ok(Reason {
                text: happened(alloc, run, fault)?,
                absences: Vec::new(alloc),
            }),
        }
    }
}
