//! The state of one member of a weave.
ghost use Rattle.std.specs.Prelude.{◌≡◌, ◌<◌, ◌≤◌, length, IfOk, MatchBool};
ghost use Rattle.totem_ring.specs.Steps.{act_on};
ghost use Rattle.totem_weave.specs.Weaving.{Tries, TakesNext};

use crate::sent::Sent;
use std::alloc::{AllocError, Global};
use totem_ring::{Act, RingFault, RingOut, RingState};

/// A member's state, and the index of its next act.
#[derive(Drop)]
pub struct Seat {
    pub state: RingState,
    pub next: usize,
}

/// Does the act, if it isn't refused.
pub fn try_act(
    alloc: Global,
    state: &mut RingState,
    act: &Act,
) -> Result<Option<RingOut>, AllocError>
    ensures { IfOk result (Tries state.old state.new (act_on state.old act.now)) }
{
    match state.act(alloc, act) {
        Ok(out) => Ok(Some(out)),
        Err(RingFault::Memory) => Err(AllocError),
        Err(_) => Ok(None),
    }
}

impl Seat {
    /// Returns whether all of these acts are done.
    pub fn is_through(&self, acts: &[Act]) -> bool
        ensures { MatchBool result (length acts.now ≤ self.now.next) (self.now.next < length acts.now) }
    {
        self.next >= acts.len()
    }

    /// Does the next of these acts, if that is possible.
    pub fn take_next(
        &mut self,
        alloc: Global,
        acts: &[Act],
        sent: &Sent,
    ) -> Result<Option<(Act, RingOut)>, AllocError>
        ensures { IfOk result (TakesNext self.old self.new acts.now sent.now) }
    {
        if self.next >= acts.len() {
            return Ok(None);
        }
        let act = &acts[self.next];
        if !sent.is_coming(act) {
            return Ok(None);
        }
        let Some(out) = try_act(alloc, &mut self.state, act)? else {
            return Ok(None);
        };
        self.next += 1;
        Ok(Some((act.try_clone(alloc)?, out)))
    }
}
