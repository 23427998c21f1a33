//! The places that a picture marks, and the text about them.
use std::alloc::{AllocError, Global};
use totem_evs::Run;
use totem_explain::{event_at, place_name};
use totem_names::Place;

/// How many places are described.
const TOLD: usize = 12;

/// Returns the number of a place among the marked ones, counted from 1, or `None` if it is not marked.
pub fn number_of(places: &[Place], place: Place) -> Option<usize> {
    let index = places.iter().position(|marked| *marked == place)?;
    Some(index.saturating_add(1))
}

/// Returns a line for each place: its number, the place, and what happened there. If there are many, only the first are described.
pub fn lines_of(alloc: Global, run: &Run, places: &[Place]) -> Result<Vec<String>, AllocError> {
    let mut lines = Vec::new(alloc);
    let mut number = 0u32;
    for place in places.iter().take(TOLD) {
        number = number.saturating_add(1);
        let event = event_at(alloc, run, *place)?;
        let place = place_name(alloc, run.version, *place)?;
        lines.push(format!(in alloc; "({number}) {place}: {event}")?)?;
    }
    let more = places.len().saturating_sub(TOLD);
    if more > 0 {
        lines.push(format!(in alloc; "and {more} places more")?)?;
    }
    Ok(lines)
}
