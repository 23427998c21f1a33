//! A member's step for any act.
ghost use Rattle.std.specs.Prelude.{◌≡◌};

use crate::fault::RingFault;
use crate::moves::Act;
use crate::outcome::RingOut;
use crate::state::{MOST_WAITING, RingState};
use std::alloc::Global;
use totem_packets::Body;

impl RingState {
    ghost use Rattle.totem_ring.specs.Steps.{act_on, submit};
    ghost use Rattle.totem_ring.specs.Answers.{Answers, AnswersNothing};

    /// Queues a copy of the body for the next visit, as `submit` does. The copy is made only if the body isn't refused.
    fn submit_copy(&mut self, body: &Body) -> Result<(), RingFault>
        ensures { AnswersNothing result self.old self.new (submit self.old body.now) }
    {
        if self.waiting.len() >= MOST_WAITING {
            return Err(RingFault::Full);
        }
        self.waiting.push(body.try_clone()?)?;
        Ok(())
    }

    /// Does what the act says: one step of the ring. Returns what the step sends and delivers to the node.
    pub fn act(&mut self, alloc: Global, act: &Act) -> Result<RingOut, RingFault>
        ensures { Answers result self.old self.new (act_on self.old act.now) }
    {
        match act {
            Act::Submit(body) => {
                self.submit_copy(body)?;
                Ok(RingOut {
                    packets: Vec::new(alloc),
                    handed: Vec::new(alloc),
                })
            }
            Act::Message(message) => self.on_message(alloc, message),
            Act::Token(token) => self.on_token(alloc, token),
            Act::Resend => self.on_resend(alloc),
        }
    }
}
