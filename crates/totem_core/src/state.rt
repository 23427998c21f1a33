//! The state of a node.
ghost use Rattle.std.specs.Prelude.{◌≡◌, IfOk};

use std::alloc::{AllocError, Global};
use totem_member::Gather;
use totem_recover::Recovery;
use totem_ring::RingState;

/// A recovery that is under way.
#[derive(Debug, Drop)]
pub struct Recovering {
    pub gather: Gather,
    /// The new ring, which is not installed yet.
    pub ring: RingState,
    pub recovery: Recovery,
    /// Whether the new ring's first token was taken here.
    pub started: bool,
}

/// What a node is doing (docs/PROTOCOL.md, "The node").
#[derive(Debug, Drop)]
pub enum State {
    /// The node sends and delivers on its installed ring.
    Operational,
    /// The node looks for other processes to form a ring with.
    Gathering(Gather),
    /// There is consensus, and a commit token forms the ring.
    Committing(Gather),
    /// On the new ring the members exchange what the old rings still owe.
    InRecovery(Recovering),
}

impl Recovering {
    pub fn try_clone(&self, alloc: Global) -> Result<Recovering, AllocError>
        ensures { IfOk result (λ x. x ≡ self.now) }
    {
        Ok(Recovering {
            gather: self.gather.try_clone(alloc)?,
            ring: self.ring.try_clone(alloc)?,
            recovery: self.recovery.try_clone(alloc)?,
            started: self.started,
        })
    }
}

impl State {
    pub fn try_clone(&self, alloc: Global) -> Result<State, AllocError>
        ensures { IfOk result (λ s. s ≡ self.now) }
    {
        Ok(match self {
            State::Operational => State::Operational,
            State::Gathering(gather) => State::Gathering(gather.try_clone(alloc)?),
            State::Committing(gather) => State::Committing(gather.try_clone(alloc)?),
            State::InRecovery(x) => State::InRecovery(x.try_clone(alloc)?),
        })
    }
}
