//! Why a member's ring refuses a message or a token, such as an old or a repeated one (docs/PROTOCOL.md, "The ring"). Whether a node
//! refuses it depends on its state, too: that is decided in totem_core, `messages` and `tokens`.
ghost use Rattle.std.specs.Prelude.{◌≡◌};
ghost use Rattle.totem_ring.specs.Refusals.{is_none_or_member, is_above};

use crate::fault::RingFault;
use crate::state::{RingState, is_same_ring};
use totem_names::ProcId;
use totem_packets::{Body, Message, Number, Token, TokenSeq, is_among};

pub fn is_none_or_member(members: &[ProcId], proc: Option<ProcId>) -> bool
    ensures { result ≡ is_none_or_member members.now proc }
{
    match proc {
        None => true,
        Some(proc) => is_among(members, proc),
    }
}

pub fn is_above(seq: u32, numbers: &[Number]) -> bool
    ensures { result ≡ is_above seq numbers.now }
{
    numbers.iter().any(|n| n.get() > seq)
}

impl RingState {
    ghost use Rattle.totem_ring.specs.Rings.{taker_of};
    ghost use Rattle.totem_ring.specs.Steps.{given};
    ghost use Rattle.totem_ring.specs.Refusals.{message_refusal, token_refusal, is_sound, has_room, is_token_in_range};

    /// Returns why this message would be refused on receipt or when adopted, or `None` if it would be taken.
    pub fn message_refusal(&self, message: &Message) -> Option<RingFault>
        ensures { result ≡ message_refusal self.now message.now }
    {
        if !is_same_ring(message.ring, self.ring) {
            return Some(RingFault::OtherRing);
        }
        if self.held.contains(message.number.get()) {
            return Some(RingFault::Repeat);
        }
        if !is_among(&self.members, message.sender) {
            return Some(RingFault::Range);
        }
        None
    }

    /// Returns why this token would be refused if these bodies were given to the ring, or `None` if it would be taken.
    pub fn token_refusal_with(&self, bodies: &[Body], token: &Token) -> Option<RingFault>
        ensures { result ≡ token_refusal (given self.now bodies.now) token.now }
    {
        if !is_same_ring(token.ring, self.ring) {
            return Some(RingFault::OtherRing);
        }
        if token.token_seq.get() <= self.last {
            return Some(RingFault::Repeat);
        }
        if !self.is_token_in_range_with(bodies, token) {
            return Some(RingFault::Range);
        }
        None
    }

    #[tactic(auto, using(crate::proofs::NotRefused::given_nothing))]
    pub(crate) fn token_refusal(&self, token: &Token) -> Option<RingFault>
        ensures { result ≡ token_refusal self.now token.now }
    {
        self.token_refusal_with(&[], token)
    }

    fn taker(&self, token_seq: TokenSeq) -> ProcId
        ensures { result ≡ taker_of self.now.members token_seq }
    {
        let count = self.members.len() as u64;
        self.members[((token_seq.get() - 1) % count) as usize]
    }

    fn is_sound(&self, token: &Token) -> bool
        ensures { result ≡ is_sound self.now token.now }
    {
        token.aru <= token.seq
            && is_none_or_member(&self.members, token.aru_id)
            && !is_above(token.seq, token.rtr.as_slice())
            && !self.held.holds_above(token.seq)
    }

    fn has_room_with(&self, bodies: &[Body], token: &Token) -> bool
        ensures { result ≡ has_room (given self.now bodies.now) token.now }
    {
        let waiting = self.waiting.len() as u64 + bodies.len() as u64;
        token.token_seq.get() < u64::MAX && waiting < (1 << 32) - token.seq as u64
    }

    fn is_token_in_range_with(&self, bodies: &[Body], token: &Token) -> bool
        ensures { result ≡ is_token_in_range (given self.now bodies.now) token.now }
    {
        self.taker(token.token_seq).number() == self.me.number()
            && self.is_sound(token)
            && self.has_room_with(bodies, token)
    }
}
