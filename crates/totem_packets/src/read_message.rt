//! Reading messages from left to right.
ghost use Rattle.totem_packets.specs.Grammar.{app_at, old_at, body_of, body_at, message_at};
ghost use Rattle.totem_packets.specs.Parsing.{Reads};

use crate::fault::PacketFault;
use crate::message::{Body, Message};
use crate::reader::Reader;
use std::alloc::Global;
use totem_names::Service;

#[tactic(auto, using(crate::proofs::Falling::passes_on), unfolding(crate::specs::Grammar::app_at))]
fn app(alloc: Global, reader: &mut Reader, service: Service) -> Result<Body, PacketFault>
    ensures { Reads (λ x. x) result reader.new (app_at service reader.old) }
{
    let payload = reader.payload(alloc)?;
    Ok(Body::App { service, payload })
}

#[tactic(auto, using(crate::proofs::Falling::passes_on), unfolding(crate::specs::Grammar::old_at))]
fn old(alloc: Global, reader: &mut Reader, service: Service) -> Result<Body, PacketFault>
    ensures { Reads (λ x. x) result reader.new (old_at service reader.old) }
{
    let ring = reader.ring()?;
    let number = reader.number(0)?;
    let sender = reader.process(0)?;
    let payload = reader.payload(alloc)?;
    Ok(Body::Old {
        ring,
        number,
        sender,
        service,
        payload,
    })
}

#[tactic(auto, using(crate::proofs::Falling::passes_on), unfolding(crate::specs::Grammar::body_at, crate::specs::Grammar::body_of))]
fn body(alloc: Global, reader: &mut Reader) -> Result<Body, PacketFault>
    ensures { Reads (λ x. x) result reader.new (body_at reader.old) }
{
    match reader.u8()? {
        0 => app(alloc, reader, Service::Agreed),
        1 => app(alloc, reader, Service::Safe),
        2 => old(alloc, reader, Service::Agreed),
        3 => old(alloc, reader, Service::Safe),
        4 => Ok(Body::Mark),
        _ => Err(PacketFault::Range),
    }
}

#[tactic(auto, using(crate::proofs::Falling::passes_on), unfolding(crate::specs::Grammar::message_at))]
pub fn message(alloc: Global, reader: &mut Reader) -> Result<Message, PacketFault>
    ensures { Reads (λ x. x) result reader.new (message_at reader.old) }
{
    let ring = reader.ring()?;
    let number = reader.number(0)?;
    let sender = reader.process(0)?;
    let body = body(alloc, reader)?;
    Ok(Message {
        ring,
        number,
        sender,
        body,
    })
}
