ghost use Rattle.std.specs.Prelude.{◌≡◌, ◌↔◌, IsTrue, IfOk};

use crate::requests::Requests;
use crate::token_seq::TokenSeq;
use std::alloc::{AllocError, Global};
use totem_names::{ProcId, RingId};

/// The token of a ring: the member that has it may send.
#[derive(Debug, Drop)]
pub struct Token {
    pub ring: RingId,
    pub token_seq: TokenSeq,
    /// The greatest number given to a message; 0 means none.
    pub seq: u32,
    /// All members are taken to hold the messages up to this number; 0 means none.
    pub aru: u32,
    /// The member that holds `aru` down, if any.
    pub aru_id: Option<ProcId>,
    /// The numbers of the messages that members lack and ask for.
    pub rtr: Requests,
}

impl Token {
    /// Returns whether the two are the same token: `==` in a form that contracts can use.
    pub fn is(&self, other: &Token) -> bool
        ensures { IsTrue result ↔ (self.now ≡ other.now) }
    {
        self.ring == other.ring
            && self.token_seq == other.token_seq
            && self.seq == other.seq
            && self.aru == other.aru
            && self.aru_id == other.aru_id
            && self.rtr.is(&other.rtr)
    }

    pub fn try_clone(&self, alloc: Global) -> Result<Token, AllocError>
        ensures { IfOk result (λ t. t ≡ self.now) }
    {
        Ok(Token {
            ring: self.ring,
            token_seq: self.token_seq,
            seq: self.seq,
            aru: self.aru,
            aru_id: self.aru_id,
            rtr: self.rtr.try_clone(alloc)?,
        })
    }
}
