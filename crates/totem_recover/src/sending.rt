//! The messages that a member sends on the new ring (docs/PROTOCOL.md, "Recovery").
ghost use Rattle.std.specs.Prelude.{◌≡◌, ◌++◌, ◌∷◌, [], IfOk, OnOk, length, fold, max};
ghost use Rattle.std.specs.List.{filter_map};
ghost use Rattle.totem_recover.specs.Exchange.{sent_again, list_to_send, sent_anew};

use std::alloc::{AllocError, Global};
use std::collections::BTreeMap;
use totem_names::ProcId;
use totem_packets::{Body, Message, Packet};
use totem_ring::To;

/// How many bodies one visit numbers at most.
pub(crate) const MOST_AT_A_VISIT: usize = 16;

/// Returns a body that carries this message of a client to the new ring. Any other message has none.
fn sent_again(message: &Message) -> Result<Option<Body>, AllocError>
    ensures { IfOk result (λ body. body ≡ sent_again message.now) }
{
    Ok(match &message.body {
        Body::App { service, payload } => Some(Body::Old {
            ring: message.ring,
            number: message.number,
            sender: message.sender,
            service: *service,
            payload: payload.try_clone()?,
        }),
        Body::Old { .. } => None,
        Body::Mark => None,
    })
}

/// Returns the list to send: the held messages above `low`, each in a body that carries it, and then one mark.
pub(crate) fn list_to_send(
    alloc: Global,
    low: u32,
    held: &BTreeMap<u32, Message>,
) -> Result<Vec<Body>, AllocError>
    ensures { IfOk result (λ list. list.items ≡ list_to_send low held.now.entries) }
{
    let mut list = Vec::new(alloc);
    for (number, message) in held {
        if *number <= low {
            continue;
        }
        if let Some(body) = sent_again(message)? {
            list.push(body)?;
        }
    }
    list.push(Body::Mark)?;
    Ok(list)
}

/// Returns copies of these bodies.
pub fn copies_of(alloc: Global, bodies: &[Body]) -> Result<Vec<Body>, AllocError>
    ensures { IfOk result (λ copies. copies.items ≡ bodies.now) }
{
    let mut copies = Vec::with_capacity(alloc, bodies.len())?;
    for body in bodies {
        copies.push(body.try_clone()?)?;
    }
    Ok(copies)
}

/// Returns the number of this packet if it is a broadcast message of process `me` with a number above `sent`.
fn sent_anew(me: ProcId, sent: u32, to: &To, packet: &Packet) -> Option<u32>
    ensures { result ≡ sent_anew me sent (to.now, packet.now) }
{
    let (To::All, Packet::Message(message)) = (to, packet) else {
        return None;
    };
    let number = message.number.get();
    if message.sender == me && sent < number {
        Some(number)
    } else {
        None
    }
}

/// Counts the broadcast messages of process `me` with numbers above `sent`. Returns the count and the greatest of these
/// numbers, or `sent` itself if there are none.
pub(crate) fn count_anew(me: ProcId, sent: u32, packets: &[(To, Packet)]) -> (usize, u32)
    ensures count { result.0 ≡ length (filter_map (sent_anew me sent) packets.now) }
    ensures greatest { result.1 ≡ fold max sent (filter_map (sent_anew me sent) packets.now) }
{
    let mut count = 0;
    let mut greatest = sent;
    for (to, packet) in packets {
        if let Some(number) = sent_anew(me, sent, to, packet) {
            count += 1;
            greatest = greatest.max(number);
        }
    }
    (count, greatest)
}
