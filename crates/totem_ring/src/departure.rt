//! What a visit sends, and the token as it leaves.
ghost use Rattle.std.specs.Prelude.{◌≡◌, ◌++◌, ◌∷◌, [], IfOk};
ghost use Rattle.totem_packets.specs.declared.packet.Packet.TheVariants.{Token as AToken};
ghost use Rattle.totem_ring.specs.declared.outcome.To.TheVariants.{One as ToOne};
ghost use Rattle.totem_ring.specs.Visits.{broadcasts, aru_set};

use crate::outcome::To;
use std::alloc::{AllocError, Global};
use totem_names::ProcId;
use totem_packets::{Message, Packet, Token};

/// How a visit ends: the token that leaves, what the member sends, and what it delivers to its node.
#[derive(Drop)]
pub struct Departure {
    /// The token as it leaves.
    pub leaving: Token,
    /// Safe messages up to this number may be delivered to the node.
    pub safe_to: u32,
    pub packets: Vec<(To, Packet)>,
    pub handed: Vec<Message>,
}

/// Returns what a visit sends, in order: broadcasts of the messages that were asked for, broadcasts of the new ones, and
/// the token for the next member.
pub fn sendings(
    alloc: Global,
    asked: Vec<Message>,
    own: Vec<Message>,
    next: ProcId,
    token: &Token,
) -> Result<Vec<(To, Packet)>, AllocError>
    ensures { IfOk result (λ packets. packets.items ≡ (broadcasts asked.items ++ broadcasts own.items) ++ (ToOne next, AToken token.now) ∷ []) }
{
    let mut packets = Vec::new(alloc);
    for message in asked {
        packets.push((To::All, Packet::Message(message)))?;
    }
    for message in own {
        packets.push((To::All, Packet::Message(message)))?;
    }
    packets.push((To::One(next), Packet::Token(token.try_clone(alloc)?)))?;
    Ok(packets)
}

/// Returns the aru and the aru_id with which the token leaves `me` (docs/PROTOCOL.md, "The ring", step 3 of a visit).
pub fn set_aru(
    me: ProcId,
    my_aru: u32,
    seq: u32,
    aru: u32,
    aru_id: Option<ProcId>,
) -> (u32, Option<ProcId>)
    ensures { result ≡ aru_set me my_aru seq aru aru_id }
{
    let is_free = match aru_id {
        None => true,
        Some(proc) => proc.number() == me.number(),
    };
    if my_aru >= aru && !is_free {
        return (aru, aru_id);
    }
    if my_aru == seq {
        return (my_aru, None);
    }
    (my_aru, Some(me))
}
