//! The steps that a node takes on its rings.
ghost use Rattle.std.specs.Prelude.{◌≡◌, IfOk};

use std::alloc::{AllocError, Global};
use totem_names::RingId;
use totem_ring::Act;

/// A step that a node took on one of its rings.
#[derive(Debug, Drop)]
pub struct RingStep {
    pub ring: RingId,
    pub act: Act,
}

impl RingStep {
    pub fn try_clone(&self, alloc: Global) -> Result<RingStep, AllocError>
        ensures { IfOk result (λ step. step ≡ self.now) }
    {
        Ok(RingStep {
            ring: self.ring,
            act: self.act.try_clone(alloc)?,
        })
    }
}
