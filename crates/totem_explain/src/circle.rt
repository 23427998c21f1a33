//! The shortest circle of events where no order fits: a closed list (docs/SPECIFICATIONS.md, "Faults") of two events of one log, or of four of
//! two logs. A circle comes to each of its logs at one event and leaves it from a later one, so any other has six events or more.
use crate::lookup::{log_of, place_of};
use std::alloc::{AllocError, Global};
use totem_evs::{Entry, Fault, Log, Places, Run, SpecNo};
use totem_names::{ConfId, MsgId, Place};

/// So many steps of a list from log to log are looked at.
const STEPS: usize = 32;

#[derive(Clone, Copy, PartialEq, Eq, PartialOrd, Ord)]
enum Event {
    Change(ConfId),
    Send(MsgId),
    Delivery(MsgId),
}

/// The events of a log and their places, sorted by what they are.
#[derive(Drop)]
pub struct Events {
    list: Vec<(Event, Place)>,
}

impl Events {
    pub fn of(alloc: Global, log: &Log) -> Result<Events, AllocError> {
        let mut list = Vec::new(alloc);
        for (index, entry) in log.entries.as_slice().iter().enumerate() {
            let event = match entry {
                Entry::Conf(conf, _) => Event::Change(*conf),
                Entry::Send(message, _, _) => Event::Send(*message),
                Entry::Deliver(message, _) => Event::Delivery(*message),
                Entry::Fail(_) => continue,
            };
            list.push((event, place_of(log, index)))?;
        }
        list.sort()?;
        Ok(Events { list })
    }

    fn find(&self, event: Event) -> Option<Place> {
        let at = self.list.partition_point(|(known, _)| *known < event);
        let (known, place) = self.list.get(at)?;
        (*known == event).then_some(*place)
    }

    pub fn delivery(&self, message: MsgId) -> Option<Place> {
        self.find(Event::Delivery(message))
    }

    /// Returns the event of this log to which there is a step from an entry of another log, for a circle that breaks this specification.
    fn behind(&self, spec: SpecNo, entry: &Entry) -> Option<Place> {
        match entry {
            Entry::Conf(conf, _) => self.find(Event::Change(*conf)),
            Entry::Deliver(_, _) if spec == SpecNo::Cycle => None,
            Entry::Send(message, _, _) | Entry::Deliver(message, _) => self.delivery(*message),
            Entry::Fail(_) => None,
        }
    }

    /// Returns the event of this log from which there is a step to an entry of another log.
    fn before(&self, spec: SpecNo, entry: &Entry) -> Option<Place> {
        match entry {
            Entry::Send(_, _, _) => None,
            Entry::Deliver(message, _) => {
                let twin = self.behind(spec, entry);
                twin.or(self.find(Event::Send(*message)))
            }
            _ => self.behind(spec, entry),
        }
    }
}

/// Returns a circle of two events if this is one log, or of four if these are two logs.
fn circle_of(
    alloc: Global,
    spec: SpecNo,
    one: &Log,
    other: &Log,
) -> Result<Option<Vec<Place>>, AllocError> {
    let events = Events::of(alloc, other)?;
    // The last event of the other log from which there is a step to an entry so far, and that entry.
    let mut last: Option<(Place, Place)> = None;
    for (index, entry) in one.entries.as_slice().iter().enumerate() {
        let place = place_of(one, index);
        match (events.behind(spec, entry), last) {
            (Some(to), _) if to.proc == place.proc && to.at < place.at => {
                return Ok(Some(vec![in alloc; to, place]?));
            }
            (Some(to), Some((end, begin))) if to.at < end.at => {
                return Ok(Some(vec![in alloc; begin, place, to, end]?));
            }
            _ => {}
        }
        let known = last.map_or(0, |(end, _)| end.at);
        let from = events.before(spec, entry);
        if let Some(from) = from.filter(|from| from.at > known) {
            last = Some((from, place));
        }
    }
    Ok(None)
}

/// Returns a circle of one log, or of two between which this list has a step.
fn found(
    alloc: Global,
    run: &Run,
    spec: SpecNo,
    places: &[Place],
) -> Result<Option<Vec<Place>>, AllocError> {
    for log in run.logs.as_slice() {
        let circle = circle_of(alloc, spec, log, log)?;
        if circle.is_some() {
            return Ok(circle);
        }
    }
    let next = places.iter().skip(1).chain(places.iter().take(1));
    let steps = places.iter().zip(next);
    let between = steps.filter(|(from, to)| from.proc != to.proc);
    for (from, to) in between.take(STEPS) {
        if let (Some(from), Some(to)) = (log_of(run, from.proc), log_of(run, to.proc)) {
            let circle = circle_of(alloc, spec, from, to)?;
            if circle.is_some() {
                return Ok(circle);
            }
        }
    }
    Ok(None)
}

/// Returns the fault, with a shorter circle in place of its list if it has a list of events and such a circle is found.
pub fn shortened(alloc: Global, run: &Run, fault: &Fault) -> Result<Fault, AllocError> {
    let places = fault.places.as_slice();
    if let SpecNo::Cycle | SpecNo::Order = fault.spec {
        match found(alloc, run, fault.spec, places)? {
            Some(circle) if circle.len() < places.len() => {
                return Ok(Fault {
                    spec: fault.spec,
                    places: Places::new(circle),
                });
            }
            _ => {}
        }
    }
    fault.try_clone(alloc)
}
