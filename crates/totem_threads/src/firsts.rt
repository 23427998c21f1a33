//! What the nodes of a run in threads begin with (docs/PROTOCOL.md, "A run in threads").
ghost use Rattle.std.specs.Prelude.{◌≡◌, ◌<◌, ◌≤◌, IfOk};
ghost use Rattle.totem_net.specs.Nodes.{node_numbers};
ghost use Rattle.totem_recover.specs.Lives.{first_ranks};
ghost use Rattle.totem_threads.specs.Starts.{first_ring, first_packet};

use bytes::Bytes;
use std::alloc::{AllocError, Global};
use totem_evs::Members;
use totem_names::{ProcId, RingId};
use totem_packets::Packet;
use totem_ring::first_token;

/// Returns the ring on which all nodes begin, 4.1.
pub fn first_ring() -> RingId
    ensures { result ≡ first_ring }
{
    RingId {
        seq: 4,
        rep: ProcId::of(1),
    }
}

/// Returns the members of that ring's configuration: the first lives of 1 to `nodes`.
#[tactic(auto, using(crate::proofs::Starting::numbers_more))]
pub fn first_members(alloc: Global, nodes: u16) -> Result<Members, AllocError>
    requires { (0 < nodes) × (nodes ≤ 32) }
    ensures { IfOk result (λ members. members ≡ first_ranks (node_numbers nodes)) }
{
    let mut list = Vec::new(alloc);
    'nodes: for number in 0..nodes {
        list.push(ProcId::of(number + 1))?;
    }
    totem_recover::first_members(alloc, &list)
}

/// Returns the bytes of that ring's first token.
pub fn first_packet(alloc: Global) -> Result<Bytes, AllocError>
    ensures { IfOk result (λ bytes. bytes ≡ first_packet) }
{
    let packet = Packet::Token(first_token(alloc, first_ring()));
    Ok(Bytes::from_vec(packet.encode(alloc)?)?)
}
