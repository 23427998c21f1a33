ghost use Rattle.std.specs.Prelude.{◌≡◌, ◌↔◌, IsTrue, IfOk};

use crate::commit::CommitToken;
use crate::decoding::decode;
use crate::encoding::encode;
use crate::fault::PacketFault;
use crate::join::Join;
use crate::message::Message;
use crate::ranges::keeps_its_ranges;
use crate::token::Token;
use std::alloc::{AllocError, Global};

/// A packet: what nodes send to each other.
#[derive(Debug, Drop)]
pub enum Packet {
    Message(Message),
    Token(Token),
    Join(Join),
    Commit(CommitToken),
}

impl Packet {
    ghost use Rattle.std.specs.Prelude.{◌≡◌, Ok, Err, IfOk};
    ghost use Rattle.totem_packets.specs.Grammar.{decode_packet};
    ghost use Rattle.totem_packets.specs.Laws.{IsOfKind};
    ghost use Rattle.totem_packets.specs.Parsing.{Gives};
    ghost use Rattle.totem_packets.specs.Ranges.{IsPacket};
    ghost use Rattle.totem_packets.specs.Spelling.{packet_bytes};

    /// Returns the bytes of the packet.
    #[tactic(auto, using(crate::proofs::Decided::spelled_read))]
    pub fn encode(&self, alloc: Global) -> Result<Vec<u8>, AllocError>
        ensures spelled { IfOk result (λ bytes. bytes.items ≡ packet_bytes self.now) }
        // What is encoded can be decoded.
        ensures read { IfOk result (λ bytes. decode_packet bytes.items ≡ Ok self.now) }
        ensures range { IsPacket self.now }
    {
        keeps_its_ranges(self);
        encode(alloc, self)
    }

    /// Returns the packet whose spelling these bytes are, or the first fault from left to right.
    #[tactic(auto, using(crate::proofs::Decided::spelled_read, crate::proofs::Decided::found))]
    pub fn decode(alloc: Global, bytes: &[u8]) -> Result<Packet, PacketFault>
        // The bytes are the spelling of the decoded packet, which is in range.
        ensures spelled { IfOk result (λ packet. IsPacket packet × (bytes.now ≡ packet_bytes packet)) }
        // The spelling of a packet is decoded, unless memory is refused.
        ensures read { (packet : Packet) → IsPacket packet → bytes.now ≡ packet_bytes packet → Gives result (Ok packet) }
        // Each fault is the grammar's, unless memory is refused.
        ensures exact { Gives result (decode_packet bytes.now) }
        // Bytes of no kind of packet, and no bytes at all, take no memory.
        ensures memory { result ≡ Err PacketFault.Memory → IsOfKind bytes.now }
    {
        decode(alloc, bytes)
    }

    /// Returns whether the two are the same packet: `==` in a form that contracts can use.
    pub fn is(&self, other: &Packet) -> bool
        ensures { IsTrue result ↔ (self.now ≡ other.now) }
    {
        match (self, other) {
            (Packet::Message(message), Packet::Message(same)) => message.is(same),
            (Packet::Token(token), Packet::Token(same)) => token.is(same),
            (Packet::Join(join), Packet::Join(same)) => join.is(same),
            (Packet::Commit(token), Packet::Commit(same)) => token.is(same),
            _ => false,
        }
    }

    pub fn try_clone(&self, alloc: Global) -> Result<Packet, AllocError>
        ensures { IfOk result (λ p. p ≡ self.now) }
    {
        Ok(match self {
            Packet::Message(message) => Packet::Message(message.try_clone()?),
            Packet::Token(token) => Packet::Token(token.try_clone(alloc)?),
            Packet::Join(join) => Packet::Join(*join),
            Packet::Commit(token) => Packet::Commit(token.try_clone(alloc)?),
        })
    }
}
