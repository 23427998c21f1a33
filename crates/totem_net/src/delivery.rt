//! What the network forwards.
use bytes::Bytes;
use totem_names::ProcId;

/// An encoded packet, and the node that receives it.
#[derive(Debug, Drop)]
pub struct Delivery {
    pub to: ProcId,
    pub packet: Bytes,
}
