//! 1.4: why a message may not be sent or delivered once more, and what other processes did with it.
use crate::groups::{Group, add_to_group};
use crate::lookup::{delivery_in, entry_at, entry_of, log_of, place_of};
use crate::members::{bracketed, named};
use crate::unsent::push_sends;
use std::alloc::{AllocError, Global};
use totem_evs::{Entry, Log, Run};
use totem_names::{ConfId, MsgId, Place, Proc};

/// Returns the message that an entry of a log delivers, or `None` if it does something else.
fn delivered_by(log: &Log, at: u32) -> Option<MsgId> {
    match entry_of(log, at)? {
        Entry::Deliver(message, _) => Some(*message),
        _ => None,
    }
}

/// Returns what a log delivers between two messages, if it delivers one there and nothing else happens.
fn between(log: &Log, before: MsgId, after: MsgId) -> Option<MsgId> {
    let first = delivery_in(log, before)?.at;
    let message = delivered_by(log, first.saturating_add(1))?;
    let next = delivered_by(log, first.saturating_add(2))?;
    if next == after { Some(message) } else { None }
}

/// Returns the messages that other logs deliver between two others, where the log of a process delivers this one.
fn others_between(
    alloc: Global,
    run: &Run,
    proc: Proc,
    message: MsgId,
    before: MsgId,
    after: MsgId,
) -> Result<Vec<Group<MsgId>>, AllocError> {
    let mut others = Vec::new(alloc);
    for log in run.logs.as_slice() {
        match between(log, before, after) {
            Some(other) if log.proc != proc && other != message => {
                add_to_group(alloc, &mut others, other, log.proc, None)?;
            }
            _ => {}
        }
    }
    Ok(others)
}

/// Adds what other processes deliver where a log delivers a message twice, between the same two messages.
fn push_instead(
    alloc: Global,
    text: &mut String,
    run: &Run,
    place: Place,
    message: MsgId,
) -> Result<(), AllocError> {
    let Some(log) = log_of(run, place.proc) else {
        return Ok(());
    };
    let (Some(before), Some(after)) = (
        delivered_by(log, place.at.saturating_sub(1)),
        delivered_by(log, place.at.saturating_add(1)),
    ) else {
        return Ok(());
    };
    let here = log.proc.written(run.version);
    for other in &others_between(alloc, run, log.proc, message, before, after)? {
        let procs = named(alloc, run.version, other.procs.as_slice())?;
        let instead = other.shared;
        write!(
            text,
            "  {procs} delivered {instead} between {before} and {after}, where {here} delivered {message}.\n"
        )?;
    }
    Ok(())
}

/// Adds where a log delivers a message. Returns whether it does.
fn add_deliveries(
    alloc: Global,
    list: &mut Vec<Group<ConfId>>,
    log: &Log,
    message: MsgId,
) -> Result<bool, AllocError> {
    let mut is_any = false;
    for (index, entry) in log.entries.as_slice().iter().enumerate() {
        if let Entry::Deliver(delivered, conf) = entry {
            if *delivered == message {
                add_to_group(alloc, list, *conf, log.proc, Some(place_of(log, index)))?;
                is_any = true;
            }
        }
    }
    Ok(is_any)
}

/// Adds where other processes delivered a message, and which of them did not.
fn push_others(
    alloc: Global,
    text: &mut String,
    run: &Run,
    proc: Proc,
    message: MsgId,
) -> Result<(), AllocError> {
    let mut list = Vec::new(alloc);
    let mut without = Vec::new(alloc);
    for log in run.logs.as_slice() {
        if log.proc != proc && !add_deliveries(alloc, &mut list, log, message)? {
            without.push(log.proc)?;
        }
    }
    for one in list.iter_mut() {
        let conf = one.shared;
        one.procs.dedup();
        let procs = named(alloc, run.version, one.procs.as_slice())?;
        let places = bracketed(alloc, run.version, one.places.as_slice())?;
        write!(text, "  {procs} delivered it in {conf}{places}.\n")?;
    }
    if !without.is_empty() {
        let procs = named(alloc, run.version, without.as_slice())?;
        write!(text, "  {procs} did not deliver it.\n")?;
    }
    Ok(())
}

/// Returns why a process may not deliver a message at these places, and what others did with it.
fn delivered_twice(
    alloc: Global,
    run: &Run,
    places: &[Place],
    message: MsgId,
) -> Result<String, AllocError> {
    let mut text = String::new(alloc);
    let Some(first) = places.first() else {
        return Ok(text);
    };
    let proc = first.proc.written(run.version);
    let ring = message.ring;
    write!(
        text,
        "  Process {proc} delivered {message} twice. The message is named after ring {ring}.\n"
    )?;
    push_sends(alloc, &mut text, run, message)?;
    push_others(alloc, &mut text, run, first.proc, message)?;
    for place in places {
        push_instead(alloc, &mut text, run, *place, message)?;
    }
    Ok(text)
}

/// 1.4: returns what is done twice.
pub fn twice(alloc: Global, run: &Run, places: &[Place]) -> Result<String, AllocError> {
    let Some(first) = places.first() else {
        return Ok(String::new(alloc));
    };
    match (places.len(), entry_at(run, *first)) {
        (1, _) => format!(in alloc; "  A process can't send in a transitional configuration.\n"),
        (_, Some(Entry::Deliver(message, _))) => delivered_twice(alloc, run, places, *message),
        (_, Some(Entry::Send(message, _, _))) => {
            format!(in alloc; "  {message} was sent twice.\n")
        }
        _ => Ok(String::new(alloc)),
    }
}
