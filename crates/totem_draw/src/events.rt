//! The events of the lanes.
use crate::frame::Frame;
use crate::marks::number_of;
use crate::shapes::{
    Point, push_bar, push_cross, push_dot, push_label, push_mark, push_missing, push_ring,
};
use crate::subject::Subject;
use std::alloc::{AllocError, Global};
use totem_explain::{Gap, Lane, Spot, What, event_at, place_name};
use totem_names::{MsgId, Place};

/// Adds a name below its event.
pub fn push_below(text: &mut String, at: Point, name: &str) -> Result<(), AllocError> {
    let below = Point {
        x: at.x,
        y: at.y.saturating_add(26),
    };
    push_label(text, below, name)
}

/// Adds the message's name below its event.
fn push_name(
    alloc: Global,
    text: &mut String,
    at: Point,
    message: MsgId,
) -> Result<(), AllocError> {
    let name = format!(in alloc; "{message}")?;
    push_below(text, at, name.as_str())
}

/// Returns the text about entries that are left out: how many they are, and to how many configurations they change.
fn gap_name(alloc: Global, gap: Gap) -> Result<String, AllocError> {
    let Gap { entries, changes } = gap;
    if changes == 0 {
        return format!(in alloc; ".. {entries}");
    }
    format!(in alloc; ".. {entries}, {changes} conf")
}

/// Returns how many letters the name at a spot has.
pub fn letters_at(alloc: Global, spot: &Spot) -> Result<usize, AllocError> {
    match spot.what {
        What::Send(message) | What::Delivery(message) => {
            Ok(format!(in alloc; "{message}")?.len())
        }
        What::Change => match spot.conf {
            Some(conf) => Ok(format!(in alloc; "{conf}")?.len()),
            None => Ok(0),
        },
        What::LeftOut(gap) => Ok(gap_name(alloc, gap)?.len()),
        What::Lacking(event) => Ok(event.line(alloc)?.len()),
        What::Failure => Ok(0),
    }
}

/// Returns how many letters the longest name in the lanes has.
pub fn most_letters(alloc: Global, lanes: &[Lane]) -> Result<usize, AllocError> {
    let mut most = 0usize;
    for lane in lanes {
        for spot in lane.spots.as_slice() {
            most = most.max(letters_at(alloc, spot)?);
        }
    }
    Ok(most)
}

/// Adds the shape of the event at a spot.
fn push_shape(alloc: Global, text: &mut String, at: Point, what: What) -> Result<(), AllocError> {
    match what {
        What::Lacking(event) => {
            push_missing(text, at)?;
            push_below(text, at, event.line(alloc)?.as_str())
        }
        What::Change => push_bar(text, at),
        What::Failure => push_cross(text, at),
        What::Send(message) => {
            push_dot(text, at)?;
            push_name(alloc, text, at, message)
        }
        What::Delivery(message) => {
            push_ring(text, at)?;
            push_name(alloc, text, at, message)
        }
        What::LeftOut(gap) => {
            let words = gap_name(alloc, gap)?;
            let below = Point {
                x: at.x,
                y: at.y.saturating_add(4),
            };
            push_label(text, below, words.as_str())
        }
    }
}

/// Returns the point at which a spot of a lane at this height is drawn: a change at the start of its slot, anything else in the middle.
fn point_of(frame: &Frame, y: u32, spot: &Spot) -> Point {
    let x = match spot.what {
        What::Change => frame.x(spot.slot).saturating_add(2),
        _ => frame.middle(spot.slot),
    };
    Point { x, y }
}

/// Adds the shape of a spot, with a text about the event for people who point at it or cannot see it.
fn push_spot(
    alloc: Global,
    text: &mut String,
    at: Point,
    place: Place,
    spot: &Spot,
    subject: &Subject<'_>,
) -> Result<(), AllocError> {
    let run = subject.run;
    match spot.what {
        What::LeftOut(_) => return push_shape(alloc, text, at, spot.what),
        What::Lacking(event) => {
            let proc = place.proc.written(run.version);
            let event = event.line(alloc)?;
            write!(text, "<g><title>log {proc}: {event}</title>\n")?;
            push_shape(alloc, text, at, spot.what)?;
            return text.push_str("</g>\n");
        }
        _ => {}
    }
    let event = event_at(alloc, run, place)?;
    let name = place_name(alloc, run.version, place)?;
    write!(text, "<g><title>{name}: {event}</title>\n")?;
    push_shape(alloc, text, at, spot.what)?;
    if let Some(number) = number_of(subject.marked, place) {
        push_mark(text, at, number)?;
    }
    text.push_str("</g>\n")
}

/// Adds the events of all lanes, and marks the places of the subject.
pub fn push_events(
    alloc: Global,
    text: &mut String,
    frame: &Frame,
    lanes: &[Lane],
    subject: &Subject<'_>,
) -> Result<(), AllocError> {
    for (number, lane) in lanes.iter().enumerate() {
        let y = frame.y(number);
        for spot in lane.spots.as_slice() {
            let place = lane.place_of(spot);
            push_spot(alloc, text, point_of(frame, y, spot), place, spot, subject)?;
        }
    }
    Ok(())
}
