//! Proofs, as empty functions, that the types of a packet's parts keep its values in range.
ghost use Rattle.totem_packets.specs.Ranges.{IsBody, IsMessage, IsToken, IsJoin, IsCommitToken, IsPacket};

use crate::commit::CommitToken;
use crate::join::Join;
use crate::message::{Body, Message};
use crate::packet::Packet;
use crate::token::Token;
use totem_names::ring_fits;

fn body_keeps(body: &Body)
    ensures { IsBody body.now }
{
    match body {
        Body::App { payload, .. } => {
            let _ = payload.as_slice();
        }
        Body::Old {
            ring,
            number,
            sender,
            payload,
            ..
        } => {
            ring_fits(ring);
            let _number = number.get();
            let _sender = sender.number();
            let _ = payload.as_slice();
        }
        Body::Mark => {}
    }
}

fn message_keeps(message: &Message)
    ensures { IsMessage message.now }
{
    ring_fits(&message.ring);
    let _number = message.number.get();
    let _sender = message.sender.number();
    body_keeps(&message.body);
}

fn token_keeps(token: &Token)
    ensures { IsToken token.now }
{
    ring_fits(&token.ring);
    let _token_seq = token.token_seq.get();
    let _seq = token.seq;
    let _aru = token.aru;
    if let Some(proc) = token.aru_id {
        let _number = proc.number();
    }
    let _ = token.rtr.as_slice();
}

fn join_keeps(join: &Join)
    ensures { IsJoin join.now }
{
    let _sender = join.sender.number();
    let _seq = join.seq.get();
    let _ = join.processes.as_slice();
    let _ = join.failed.as_slice();
}

fn commit_keeps(token: &CommitToken)
    ensures { IsCommitToken token.now }
{
    ring_fits(&token.ring);
    let _ = token.members.as_slice();
}

/// Proves that each value of a packet is in its range.
pub fn keeps_its_ranges(packet: &Packet)
    ensures { IsPacket packet.now }
{
    match packet {
        Packet::Message(message) => message_keeps(message),
        Packet::Token(token) => token_keeps(token),
        Packet::Join(join) => join_keeps(join),
        Packet::Commit(token) => commit_keeps(token),
    }
}
