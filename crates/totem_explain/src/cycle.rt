//! A closed list of events: why each of them comes before the next one, and the last before the first.
use crate::circle::Events;
use crate::event::place_name;
use crate::groups::add_to_group;
use crate::lookup::{delivery_in, entry_at, log_of};
use crate::members::named;
use std::alloc::{AllocError, Global};
use totem_evs::{Entry, Run};
use totem_names::Place;

/// Returns why the event at one place comes before the one at the next place, or is the same event.
fn step(run: &Run, from: Place, to: Place) -> &'static str {
    if from.proc == to.proc && from.at < to.at {
        return "they are in one log, in this order";
    }
    match (entry_at(run, from), entry_at(run, to)) {
        (Some(Entry::Send(_, _, _)), Some(Entry::Deliver(_, _))) => {
            "a message is sent before it is delivered"
        }
        (Some(Entry::Deliver(_, _)), Some(Entry::Deliver(_, _))) => {
            "both deliver one message, which is one event"
        }
        (Some(Entry::Conf(_, _)), Some(Entry::Conf(_, _))) => {
            "both change to one configuration, which is one event"
        }
        _ => "the first comes before the second",
    }
}

fn push_step(
    alloc: Global,
    text: &mut String,
    run: &Run,
    from: Place,
    to: Place,
) -> Result<(), AllocError> {
    let why = step(run, from, to);
    let from = place_name(alloc, run.version, from)?;
    let to = place_name(alloc, run.version, to)?;
    write!(text, "  {from} and {to}: {why}.\n")
}

/// Returns the list step by step, and says that no order can fit it.
pub fn cycle(alloc: Global, run: &Run, places: &[Place]) -> Result<String, AllocError> {
    let mut text = String::new(alloc);
    let Some(first) = places.first() else {
        return Ok(text);
    };
    let mut from = *first;
    for to in places.iter().skip(1) {
        push_step(alloc, &mut text, run, from, *to)?;
        from = *to;
    }
    push_step(alloc, &mut text, run, from, *first)?;
    let first = place_name(alloc, run.version, *first)?;
    write!(
        text,
        "  So {first} would come before itself: no order fits these logs.\n"
    )?;
    if let [begin, end, behind, back] = places {
        push_orders(alloc, &mut text, run, *begin, *end)?;
        push_lack(alloc, &mut text, run, &[*begin, *end], *behind)?;
        push_lack(alloc, &mut text, run, &[*behind, *back], *begin)?;
    }
    Ok(text)
}

/// Says which logs deliver the messages of two deliveries in which order, if three or more deliver both.
fn push_orders(
    alloc: Global,
    text: &mut String,
    run: &Run,
    one: Place,
    other: Place,
) -> Result<(), AllocError> {
    let (Some(Entry::Deliver(one, _)), Some(Entry::Deliver(other, _))) = (
        entry_at(run, one),
        entry_at(run, other),
    ) else {
        return Ok(());
    };
    let mut groups = Vec::new(alloc);
    let mut count = 0usize;
    for log in run.logs.as_slice() {
        if let (Some(first), Some(second)) = (delivery_in(log, *one), delivery_in(log, *other)) {
            add_to_group(alloc, &mut groups, first.at < second.at, log.proc, None)?;
            count = count.saturating_add(1);
        }
    }
    for group in groups.iter().filter(|_| count > 2) {
        let procs = named(alloc, run.version, group.procs.as_slice())?;
        let alone = if group.procs.len() == 1 { " alone" } else { "" };
        let (first, second) = if group.shared {
            (one, other)
        } else {
            (other, one)
        };
        write!(
            text,
            "  {procs}{alone} delivered {first} before {second}.\n"
        )?;
    }
    Ok(())
}

/// Says which message the log of another place never delivers, of those that are delivered before one of these places without a change between.
fn push_lack(
    alloc: Global,
    text: &mut String,
    run: &Run,
    places: &[Place],
    other: Place,
) -> Result<(), AllocError> {
    let Some(lacking) = log_of(run, other.proc) else {
        return Ok(());
    };
    let events = Events::of(alloc, lacking)?;
    for place in places {
        let (Some(log), Some(Entry::Deliver(message, _))) = (
            log_of(run, place.proc),
            entry_at(run, *place),
        ) else {
            continue;
        };
        let entries = log.entries.as_slice().iter().take(place.at as usize).rev();
        let lacked = entries
            .take_while(|entry| !matches!(entry, Entry::Conf(..)))
            .find_map(|entry| match entry {
                Entry::Deliver(message, _) if events.delivery(*message).is_none() => Some(*message),
                _ => None,
            });
        if let Some(lacked) = lacked
            && let Some(known) = delivery_in(log, lacked)
        {
            let [lacking, proc] = [other.proc, place.proc].map(|proc| proc.written(run.version));
            let known = place_name(alloc, run.version, known)?;
            return write!(
                text,
                "  Process {lacking} never delivered {lacked}, which {proc} delivered before {message} ({known}).\n"
            );
        }
    }
    Ok(())
}
