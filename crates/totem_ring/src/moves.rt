//! The acts of the members of a ring.
ghost use Rattle.std.specs.Prelude.{◌≡◌, IfOk};

use std::alloc::{AllocError, Global};
use totem_names::ProcId;
use totem_packets::{Body, Message, Token};

/// What a member does on its ring.
#[derive(Debug, Drop)]
pub enum Act {
    Submit(Body),
    Message(Message),
    Token(Token),
    Resend,
}

/// An act and the member that does it.
#[derive(Debug, Drop)]
pub struct RingMove {
    pub proc: ProcId,
    pub act: Act,
}

impl Act {
    pub fn try_clone(&self, alloc: Global) -> Result<Act, AllocError>
        ensures { IfOk result (λ act. act ≡ self.now) }
    {
        Ok(match self {
            Act::Submit(body) => Act::Submit(body.try_clone()?),
            Act::Message(message) => Act::Message(message.try_clone()?),
            Act::Token(token) => Act::Token(token.try_clone(alloc)?),
            Act::Resend => Act::Resend,
        })
    }
}

impl RingMove {
    pub fn try_clone(&self, alloc: Global) -> Result<RingMove, AllocError>
        ensures { IfOk result (λ m. m ≡ self.now) }
    {
        Ok(RingMove {
            proc: self.proc,
            act: self.act.try_clone(alloc)?,
        })
    }
}
