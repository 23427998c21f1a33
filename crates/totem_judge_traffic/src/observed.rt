//! What is observed of a run: the traffic of each of its regular configurations.
use crate::traffic::Traffic;
use totem_names::RingId;

/// The traffic of the regular configuration of a ring.
#[derive(Drop)]
pub struct Observed {
    pub ring: RingId,
    pub traffic: Traffic,
}
