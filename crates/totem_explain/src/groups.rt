//! Processes put together by what they share, in the order in which it first comes up, and messages one after the other.
use std::alloc::{AllocError, Global};
use totem_names::{MsgId, Place, Proc};

/// The processes that share something, and the places at which it came about.
#[derive(Drop)]
pub struct Group<S> {
    pub shared: S,
    pub procs: Vec<Proc>,
    pub places: Vec<Place>,
}

/// Adds a process to those that share this, with the place if there is one.
pub fn add_to_group<S: PartialEq + Copy>(
    alloc: Global,
    groups: &mut Vec<Group<S>>,
    shared: S,
    proc: Proc,
    place: Option<Place>,
) -> Result<(), AllocError> {
    let known = groups.iter().position(|group| group.shared == shared);
    if known.is_none() {
        groups.push(Group {
            shared,
            procs: Vec::new(alloc),
            places: Vec::new(alloc),
        })?;
    }
    let group = match known {
        Some(at) => groups.get_mut(at),
        None => groups.last_mut(),
    };
    if let Some(group) = group {
        group.procs.push(proc)?;
        if let Some(place) = place {
            group.places.push(place)?;
        }
    }
    Ok(())
}

/// Messages of one ring, in ascending order, that share something.
#[derive(Clone, Copy)]
pub struct Range<S> {
    pub shared: S,
    pub first: MsgId,
    pub last: MsgId,
    pub count: u32,
}

/// Adds a message to the last range, if it shares this with that, or else begins a range.
pub fn add_to_range<S: PartialEq + Copy>(
    ranges: &mut Vec<Range<S>>,
    shared: S,
    message: MsgId,
) -> Result<(), AllocError> {
    if let Some(last) = ranges.last_mut()
        && last.shared == shared
        && last.last.ring == message.ring
    {
        last.last = message;
        last.count = last.count.saturating_add(1);
        return Ok(());
    }
    ranges.push(Range {
        shared,
        first: message,
        last: message,
        count: 1,
    })?;
    Ok(())
}
