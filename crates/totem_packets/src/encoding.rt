//! Writing packets from left to right.
ghost use Rattle.std.specs.Prelude.{◌≡◌, ◌++◌, IfOk, OnOk};
ghost use Rattle.totem_packets.specs.Spelling.{token_bytes, join_bytes, packet_bytes};

use crate::join::Join;
use crate::packet::Packet;
use crate::token::Token;
use crate::write_commit::put_commit;
use crate::write_message::put_message;
use crate::writing::{
    put_maybe_process, put_process, put_process_set, put_requests, put_ring, put_u8, put_u32,
    put_u64,
};
use std::alloc::{AllocError, Global};

#[tactic(auto, unfolding(crate::specs::Spelling::token_bytes))]
fn put_token(out: &mut Vec<u8>, token: &Token) -> Result<(), AllocError>
    ensures { OnOk result (out.new.items ≡ out.old.items ++ token_bytes token.now) }
{
    put_ring(out, &token.ring)?;
    put_u64(out, token.token_seq.get())?;
    put_u32(out, token.seq)?;
    put_u32(out, token.aru)?;
    put_maybe_process(out, token.aru_id)?;
    put_requests(out, &token.rtr)
}

#[tactic(auto, unfolding(crate::specs::Spelling::join_bytes))]
fn put_join(out: &mut Vec<u8>, join: &Join) -> Result<(), AllocError>
    ensures { OnOk result (out.new.items ≡ out.old.items ++ join_bytes join.now) }
{
    put_process(out, join.sender)?;
    put_u32(out, join.seq.get())?;
    put_process_set(out, &join.processes)?;
    put_process_set(out, &join.failed)
}

/// Returns the bytes of the packet.
#[tactic(auto, unfolding(crate::specs::Spelling::packet_bytes))]
pub fn encode(alloc: Global, packet: &Packet) -> Result<Vec<u8>, AllocError>
    ensures { IfOk result (λ v. v.items ≡ packet_bytes packet.now) }
{
    let mut out = Vec::new(alloc);
    match packet {
        Packet::Message(message) => {
            put_u8(&mut out, 1)?;
            put_message(&mut out, message)?;
        }
        Packet::Token(token) => {
            put_u8(&mut out, 2)?;
            put_token(&mut out, token)?;
        }
        Packet::Join(join) => {
            put_u8(&mut out, 3)?;
            put_join(&mut out, join)?;
        }
        Packet::Commit(token) => {
            let lives = token.members.lives_told();
            put_u8(&mut out, lives.kind())?;
            put_commit(&mut out, lives, token)?;
        }
    }
    Ok(out)
}
