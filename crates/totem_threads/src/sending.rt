//! Sends the packets of a node's answer to the network.
use bytes::Bytes;
use std::alloc::{AllocError, Global};
use std::sync::Wait;
use totem_books::Reply;
use totem_net::Outlet;
use totem_ring::To;

/// Encodes the packets of a step and sends them in their order. A refused step sends nothing.
pub fn send<R: Wait>(
    rt: &R,
    alloc: Global,
    outlet: &Outlet,
    reply: &Reply,
) -> Result<(), AllocError> {
    let Reply::Done(out) = reply else {
        return Ok(());
    };
    for (to, packet) in &out.packets {
        let bytes = Bytes::from_vec(packet.encode(alloc)?)?;
        match to {
            To::All => outlet.send_to_all(rt, bytes)?,
            To::One(receiver) => outlet.send_to(rt, *receiver, bytes)?,
        }
    }
    Ok(())
}
