//! Reading packets from left to right.
ghost use Rattle.std.specs.Prelude.{◌≡◌, Err, IfOk};
ghost use Rattle.totem_packets.specs.Grammar.{token_at, join_at, packet_of, packet_at, decode_packet};
ghost use Rattle.totem_packets.specs.Laws.{IsOfKind};
ghost use Rattle.totem_packets.specs.Parsing.{Gives, Reads};

use crate::fault::PacketFault;
use crate::join::Join;
use crate::lives::Lives;
use crate::packet::Packet;
use crate::read_commit::{commit_token, later_commit_token};
use crate::read_lists::{process_set, requests};
use crate::read_message::message;
use crate::reader::Reader;
use crate::token::Token;
use std::alloc::Global;

#[tactic(auto, using(crate::proofs::Falling::passes_on), unfolding(crate::specs::Grammar::token_at))]
fn token(alloc: Global, reader: &mut Reader) -> Result<Token, PacketFault>
    ensures { Reads (λ x. x) result reader.new (token_at reader.old) }
{
    let ring = reader.ring()?;
    let token_seq = reader.token_seq()?;
    let seq = reader.u32()?;
    let aru = reader.u32()?;
    let aru_id = reader.maybe_process()?;
    let rtr = requests(alloc, reader)?;
    Ok(Token {
        ring,
        token_seq,
        seq,
        aru,
        aru_id,
        rtr,
    })
}

#[tactic(auto, using(crate::proofs::Falling::passes_on), unfolding(crate::specs::Grammar::join_at))]
fn join(reader: &mut Reader) -> Result<Join, PacketFault>
    ensures { Reads (λ x. x) result reader.new (join_at reader.old) }
{
    let sender = reader.process(0)?;
    let seq = reader.number(0)?;
    let processes = process_set(reader)?;
    let failed = process_set(reader)?;
    Ok(Join {
        sender,
        seq,
        processes,
        failed,
    })
}

/// Reads a packet, which more bytes may follow.
#[tactic(auto, using(crate::proofs::Falling::passes_on, crate::proofs::FirstByte::kind_is_read), unfolding(crate::specs::Grammar::packet_at, crate::specs::Grammar::packet_of, crate::specs::Grammar::message_packet_at, crate::specs::Grammar::token_packet_at, crate::specs::Grammar::join_packet_at, crate::specs::Grammar::commit_packet_at, crate::specs::Grammar::later_commit_packet_at))]
fn packet(alloc: Global, reader: &mut Reader) -> Result<Packet, PacketFault>
    ensures reads { Reads (λ x. x) result reader.new (packet_at reader.old) }
    ensures memory { result ≡ Err PacketFault.Memory → IsOfKind reader.old }
{
    match reader.u8()? {
        1 => Ok(Packet::Message(message(alloc, reader)?)),
        2 => Ok(Packet::Token(token(alloc, reader)?)),
        3 => Ok(Packet::Join(join(reader)?)),
        4 => Ok(Packet::Commit(commit_token(alloc, reader, Lives::Untold)?)),
        5 => Ok(Packet::Commit(later_commit_token(alloc, reader)?)),
        _ => Err(PacketFault::Kind),
    }
}

/// Returns the packet whose spelling these bytes are.
#[tactic(auto, using(crate::proofs::Falling::passes_on), unfolding(crate::specs::Grammar::decode_packet))]
pub fn decode(alloc: Global, bytes: &[u8]) -> Result<Packet, PacketFault>
    ensures gives { Gives result (decode_packet bytes.now) }
    ensures memory { result ≡ Err PacketFault.Memory → IsOfKind bytes.now }
{
    let mut reader = Reader::new(bytes);
    let packet = packet(alloc, &mut reader)?;
    if !reader.is_empty() {
        return Err(PacketFault::Trailing);
    }
    Ok(packet)
}
