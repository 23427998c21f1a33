//! Why a delivery has no send (docs/SPECIFICATIONS.md, "1 Basic delivery"): where the message was sent, or which logs may lack the send.
use crate::event::place_name;
use crate::lookup::{change_before, change_in, last_change, log_of, place_of, send_in};
use std::alloc::{AllocError, Global};
use totem_evs::{Ending, Log, Run};
use totem_names::{ConfId, MsgId, Place};

/// Adds a line for each log that sends the message, with the place.
pub fn push_sends(
    alloc: Global,
    text: &mut String,
    run: &Run,
    message: MsgId,
) -> Result<(), AllocError> {
    for log in run.logs.as_slice() {
        if let Some((place, conf)) = send_in(log, message) {
            let proc = log.proc.written(run.version);
            let place = place_name(alloc, run.version, place)?;
            write!(
                text,
                "  Process {proc} sent {message} in {conf} ({place}).\n"
            )?;
        }
    }
    Ok(())
}

/// Returns the entry before which the last change is to the configuration in which the message that entry `at` of the log delivers had
/// to be sent: after a transitional change it is the regular one before that.
fn origin(log: &Log, at: u32) -> u32 {
    let Some((conf, _)) = change_before(log, at) else {
        return at;
    };
    match conf {
        ConfId::Regular(_) => at,
        ConfId::Transitional { .. } => change_in(log, &conf).map_or(at, |place| place.at),
    }
}

/// Returns the place of a log's last entry.
fn last_of(log: &Log) -> Option<Place> {
    let index = log.entries.as_slice().len().checked_sub(1)?;
    Some(place_of(log, index))
}

/// Returns the text about a log that ends in the configuration, or before its change to it, so that its last lines may be missing.
/// Returns nothing for any other log, and for a quiet one.
fn cut_off(
    alloc: Global,
    run: &Run,
    log: &Log,
    conf: &ConfId,
) -> Result<Option<String>, AllocError> {
    let (Some((last, _)), Some(place)) = (last_change(log), last_of(log)) else {
        return Ok(None);
    };
    let came = change_in(log, conf).is_some();
    if came && !last.is(conf) {
        return Ok(None);
    }
    let proc = log.proc.written(run.version);
    let place = place_name(alloc, run.version, place)?;
    let before = if came {
        String::new(alloc)
    } else {
        format!(in alloc; ", before it comes to {conf}")?
    };
    match log.ending {
        Ending::Standing => Ok(Some(format!(in alloc;
            "  The log of process {proc} is open and ends in {last} ({place}){before}: if its last lines are missing, the send may be one of them.\n"
        )?)),
        Ending::Failed => Ok(Some(format!(in alloc;
            "  The log of process {proc} ends in {last} with a failure ({place}){before}: if its last lines were lost, the send may be one of them.\n"
        )?)),
        Ending::Quiet => Ok(None),
    }
}

/// Adds the logs of other members that may lack the send of the message that entry `delivery` delivers.
fn push_cut_off(
    alloc: Global,
    text: &mut String,
    run: &Run,
    delivery: Place,
) -> Result<(), AllocError> {
    let Some(delivering) = log_of(run, delivery.proc) else {
        return Ok(());
    };
    let at = origin(delivering, delivery.at);
    let Some((conf, members)) = change_before(delivering, at) else {
        return Ok(());
    };
    for member in members {
        if *member == delivery.proc {
            continue;
        }
        if let Some(log) = log_of(run, *member) {
            if let Some(told) = cut_off(alloc, run, log, &conf)? {
                text.push_str(told.as_str())?;
            }
        }
    }
    Ok(())
}

/// 1.3: returns where the message of a delivery was sent, or, if no log sends it, which logs may lack the send.
pub fn unsent(
    alloc: Global,
    run: &Run,
    delivery: Place,
    message: MsgId,
) -> Result<String, AllocError> {
    let mut text = String::new(alloc);
    push_sends(alloc, &mut text, run, message)?;
    if text.is_empty() {
        write!(text, "  No log sends {message}.\n")?;
        push_cut_off(alloc, &mut text, run, delivery)?;
    } else {
        text.push_str(
            "  A message is sent when it gets its place in the order, not when the layer takes it (docs/OWN-LOGS.md).\n",
        )?;
    }
    Ok(text)
}
