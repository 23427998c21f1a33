//! Writing messages from left to right, after the bytes that the output has.
ghost use Rattle.std.specs.Prelude.{◌≡◌, ◌++◌, OnOk};
ghost use Rattle.std.specs.Int.{w8};
ghost use Rattle.totem_packets.specs.Spelling.{app_kind, old_kind, number_bytes, body_bytes, message_bytes};

use crate::message::{Body, Message};
use crate::writing::{put_payload, put_process, put_ring, put_u8, put_u32};
use std::alloc::AllocError;
use totem_names::Service;

fn put_app_kind(out: &mut Vec<u8>, service: Service) -> Result<(), AllocError>
    ensures { OnOk result (out.new.items ≡ out.old.items ++ number_bytes w8 (app_kind service)) }
{
    match service {
        Service::Agreed => put_u8(out, 0),
        Service::Safe => put_u8(out, 1),
    }
}

fn put_old_kind(out: &mut Vec<u8>, service: Service) -> Result<(), AllocError>
    ensures { OnOk result (out.new.items ≡ out.old.items ++ number_bytes w8 (old_kind service)) }
{
    match service {
        Service::Agreed => put_u8(out, 2),
        Service::Safe => put_u8(out, 3),
    }
}

#[tactic(auto, unfolding(crate::specs::Spelling::body_bytes))]
fn put_body(out: &mut Vec<u8>, body: &Body) -> Result<(), AllocError>
    ensures { OnOk result (out.new.items ≡ out.old.items ++ body_bytes body.now) }
{
    match body {
        Body::App { service, payload } => {
            put_app_kind(out, *service)?;
            put_payload(out, payload)
        }
        Body::Old {
            ring,
            number,
            sender,
            service,
            payload,
        } => {
            put_old_kind(out, *service)?;
            put_ring(out, ring)?;
            put_u32(out, number.get())?;
            put_process(out, *sender)?;
            put_payload(out, payload)
        }
        Body::Mark => put_u8(out, 4),
    }
}

#[tactic(auto, unfolding(crate::specs::Spelling::message_bytes))]
pub fn put_message(out: &mut Vec<u8>, message: &Message) -> Result<(), AllocError>
    ensures { OnOk result (out.new.items ≡ out.old.items ++ message_bytes message.now) }
{
    put_ring(out, &message.ring)?;
    put_u32(out, message.number.get())?;
    put_process(out, message.sender)?;
    put_body(out, &message.body)
}
