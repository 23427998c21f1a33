//! The subject of a picture.
use totem_evs::{Pending, Run};
use totem_explain::Absence;
use totem_names::Place;

/// What a picture shows of a run.
#[derive(Clone, Copy)]
pub struct Subject<'a> {
    pub run: &'a Run,
    pub title: &'a str,
    /// The places around which the run is drawn.
    pub places: &'a [Place],
    /// The places that are marked with their numbers.
    pub marked: &'a [Place],
    /// The events whose absence is the fault.
    pub absences: &'a [Absence],
    /// Why it is a fault, in lines.
    pub why: &'a str,
    pub pending: &'a [Pending],
}
