//! The channels of a run in threads.
ghost use Rattle.std.specs.Prelude.{◌≡◌, ◌<◌, IfOk, map};
ghost use Rattle.totem_net.specs.Nodes.{node_numbers};

use crate::ends::NodeEnds;
use crate::fates::Fates;
use crate::pacer::Pacer;
use crate::port::Port;
use crate::ports::Ports;
use crate::progress::Logged;
use crate::switch::{Stage, Switch};
use crate::turns::Turns;
use crate::ways::Ways;
use bytes::Bytes;
use crossbeam_channel::bounded;
use std::alloc::{AllocError, Global};
use totem_names::ProcId;

/// The capacity of the switch's inbound channel. Its memory is reserved at the start, so that a thread never lacks memory when it
/// reports something to the switch. If the channel is full, the thread waits. The switch itself never waits to send.
const INBOUND: usize = 1024;

/// What the threads of a run hold: the switch's thread, the pacing thread, and three threads for each node.
#[derive(Drop)]
pub struct Network {
    pub switch: Switch,
    pub pacer: Pacer,
    /// The ends of the nodes in ascending order. The nodes are numbered from 1.
    pub nodes: Vec<NodeEnds>,
}

impl Network {
    /// Makes the network of this many nodes, for this many ticks. Before anything else, the switch forwards the packet `first` to
    /// node 1, without a fate.
    #[tactic(auto, using(crate::proofs::Numbers::ends_more))]
    pub fn new(
        alloc: Global,
        nodes: u16,
        ticks: u32,
        fates: Fates,
        first: Bytes,
    ) -> Result<Network, AllocError>
        requires { 0 < nodes }
        ensures { IfOk result (λ network. map (λ ends. ends.node) network.nodes.items ≡ node_numbers nodes) }
    {
        let (to_switch, inbound) = bounded(alloc, INBOUND)?;
        let (paces, answers) = bounded(alloc, 1)?;
        let mut ports = Vec::new(alloc);
        let mut ends = Vec::new(alloc);
        'nodes: for number in 0..nodes {
            let (port, held) = Port::new(alloc, ProcId::of(number + 1), &to_switch)?;
            ports.push(port)?;
            ends.push(held)?;
        }
        Ok(Network {
            switch: Switch {
                inbound,
                paces,
                ports: Ports::new(ports, nodes),
                ways: Ways::new(alloc, nodes, fates)?,
                turns: Turns::new(nodes, ticks),
                asked: false,
                stage: Stage::Tick,
                logged: Logged::nothing(),
                delivered_in: None,
                first,
            },
            pacer: Pacer::new(to_switch, answers),
            nodes: ends,
        })
    }
}
