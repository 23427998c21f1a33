//! An order that fits what is shown of all logs.
use crate::lane::{Lane, Spot};
use std::alloc::{AllocError, Global};
use std::collections::BTreeSet;
use totem_names::MsgId;

/// The messages whose sends are shown, and those whose sends have got their slots.
#[derive(Drop)]
struct Sends {
    shown: BTreeSet<MsgId>,
    placed: BTreeSet<MsgId>,
}

impl Sends {
    fn of(alloc: Global, lanes: &[Lane]) -> Result<Sends, AllocError> {
        let mut shown = BTreeSet::new(alloc);
        for lane in lanes {
            for spot in lane.spots.as_slice() {
                if let Some(message) = spot.sends() {
                    shown.insert(message)?;
                }
            }
        }
        Ok(Sends {
            shown,
            placed: BTreeSet::new(alloc),
        })
    }

    /// Returns whether a spot may be placed now. A delivery has to be after its send, if the send is shown, also one that is missing.
    fn let_through(&self, spot: &Spot) -> bool {
        match spot.needs() {
            Some(message) => self.placed.contains(&message) || !self.shown.contains(&message),
            None => true,
        }
    }
}

/// Gives the next spot of a lane its slot. Returns the message that is sent there.
fn place(lane: &mut Lane, slot: u32) -> Option<MsgId> {
    let spot = lane.spots.get_mut(lane.placed)?;
    spot.slot = slot;
    let message = spot.sends();
    lane.placed = lane.placed.saturating_add(1);
    message
}

fn may_place(lane: &Lane, sends: &Sends) -> bool {
    let next = lane.spots.get(lane.placed);
    next.is_some_and(|spot| sends.let_through(spot))
}

/// Places one spot of each lane whose next spot may be placed now. Returns whether there was any.
fn place_ready(
    alloc: Global,
    lanes: &mut [Lane],
    slot: u32,
    sends: &mut Sends,
) -> Result<bool, AllocError> {
    let mut sent = Vec::new(alloc);
    let mut is_any = false;
    for lane in lanes.iter_mut() {
        if may_place(lane, sends) {
            is_any = true;
            if let Some(message) = place(lane, slot) {
                sent.push(message)?;
            }
        }
    }
    for message in sent {
        sends.placed.insert(message)?;
    }
    Ok(is_any)
}

/// Places the next spot of the first lane that has one left, whatever it is. Returns whether there was any.
fn place_first(lanes: &mut [Lane], slot: u32, sends: &mut Sends) -> Result<bool, AllocError> {
    for lane in lanes.iter_mut() {
        if lane.placed < lane.spots.len() {
            if let Some(message) = place(lane, slot) {
                sends.placed.insert(message)?;
            }
            return Ok(true);
        }
    }
    Ok(false)
}

/// Gives each spot its slot. The spots of a lane keep their order, and a delivery is after its send if that is shown. Where that
/// is impossible, since events come before themselves, the first lane continues. Returns the number of slots.
pub fn lay_out(alloc: Global, lanes: &mut [Lane]) -> Result<u32, AllocError> {
    let mut sends = Sends::of(alloc, lanes)?;
    for slot in 0..u32::MAX {
        if !place_ready(alloc, lanes, slot, &mut sends)? && !place_first(lanes, slot, &mut sends)? {
            return Ok(slot);
        }
    }
    Ok(u32::MAX)
}
