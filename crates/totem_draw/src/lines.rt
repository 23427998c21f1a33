//! The lines from the sends of messages to their deliveries.
use crate::events::push_below;
use crate::frame::Frame;
use crate::routes::{End, Routes};
use crate::shapes::{push_ring_behind, push_way};
use std::alloc::{AllocError, Global};
use totem_evs::Pending;
use totem_explain::Lane;
use totem_names::{MsgId, Proc};

/// Returns where a message is sent, if the send is drawn.
fn send_of(lanes: &[Lane], message: MsgId) -> Option<End> {
    for (number, lane) in lanes.iter().enumerate() {
        for spot in lane.spots.as_slice() {
            if spot.sends() == Some(message) {
                return Some(End {
                    lane: number,
                    slot: spot.slot,
                });
            }
        }
    }
    None
}

/// Returns the messages whose delivery is pending at a process.
fn pending_at(alloc: Global, pending: &[Pending], proc: Proc) -> Result<Vec<MsgId>, AllocError> {
    let mut messages = Vec::new(alloc);
    for one in pending {
        if one.proc == proc {
            messages.push(one.msg)?;
        }
    }
    Ok(messages)
}

/// Returns what is written below the ring of these pending deliveries: the message, or how many they are.
fn pending_name(alloc: Global, messages: &[MsgId]) -> Result<String, AllocError> {
    match messages {
        [message] => format!(in alloc; "{message}"),
        _ => {
            let count = messages.len();
            format!(in alloc; "{count} pending")
        }
    }
}

/// Adds a line for each delivery in a lane whose send is drawn too, dashed for one that is missing.
fn push_lane(
    alloc: Global,
    text: &mut String,
    routes: &Routes<'_>,
    lanes: &[Lane],
    number: usize,
    lane: &Lane,
) -> Result<(), AllocError> {
    for spot in lane.spots.as_slice() {
        let Some(from) = spot.needs().and_then(|message| send_of(lanes, message)) else {
            continue;
        };
        let to = End {
            lane: number,
            slot: spot.slot,
        };
        let way = routes.between(alloc, &from, &to)?;
        push_way(text, way.as_slice(), spot.delivers().is_none())?;
    }
    Ok(())
}

/// The pending deliveries of a lane.
#[derive(Drop)]
struct Behind {
    /// The ring that stands for them, behind the lane.
    ring: End,
    messages: Vec<MsgId>,
    name: String,
}

/// Returns the pending deliveries of each lane that has any.
fn behind_of(
    alloc: Global,
    frame: &Frame,
    lanes: &[Lane],
    pending: &[Pending],
) -> Result<Vec<Behind>, AllocError> {
    let mut list = Vec::new(alloc);
    for (number, lane) in lanes.iter().enumerate() {
        let messages = pending_at(alloc, pending, lane.proc)?;
        if !messages.is_empty() {
            let ring = End {
                lane: number,
                slot: frame.end(),
            };
            let name = pending_name(alloc, messages.as_slice())?;
            list.push(Behind {
                ring,
                messages,
                name,
            })?;
        }
    }
    Ok(list)
}

/// Adds a line for each delivery whose send is drawn too, dashed for one that is missing; and behind each lane with pending deliveries a ring
/// with their message or their number, and a dashed line from each send that is drawn.
pub fn push_lines(
    alloc: Global,
    text: &mut String,
    frame: &Frame,
    lanes: &[Lane],
    pending: &[Pending],
) -> Result<(), AllocError> {
    let behind = behind_of(alloc, frame, lanes, pending)?;
    let mut routes = Routes::of(alloc, frame, lanes)?;
    for one in &behind {
        routes.add_ring(&one.ring, one.name.len())?;
    }
    for (number, lane) in lanes.iter().enumerate() {
        push_lane(alloc, text, &routes, lanes, number, lane)?;
    }
    for one in &behind {
        for message in &one.messages {
            if let Some(from) = send_of(lanes, *message) {
                let way = routes.between(alloc, &from, &one.ring)?;
                push_way(text, way.as_slice(), true)?;
            }
        }
    }
    for one in &behind {
        let at = one.ring.point(frame);
        push_ring_behind(text, at)?;
        push_below(text, at, one.name.as_str())?;
    }
    Ok(())
}
