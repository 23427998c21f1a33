//! How a ring starts.
ghost use Rattle.std.specs.Prelude.{◌≡◌};
ghost use Rattle.totem_ring.specs.Rings.{first_token};

use std::alloc::Global;
use totem_names::RingId;
use totem_packets::{Requests, Token, TokenSeq};

/// Returns the first token of a ring, made for its least member. Takes no memory.
pub fn first_token(alloc: Global, ring: RingId) -> Token
    ensures { result ≡ first_token ring }
{
    Token {
        ring,
        token_seq: TokenSeq::of(1),
        seq: 0,
        aru: 0,
        aru_id: None,
        rtr: Requests::of(Vec::new(alloc)),
    }
}
