//! The ends of the network's channels that the three threads of a node hold.
use crate::address::Address;
use crate::progress::Logged;
use crate::sending::give;
use crate::words::{ClientWord, Inbound, PacketWord, Sent, TimerWord};
use bytes::Bytes;
use crossbeam_channel::{Receiver, Sender};
use std::alloc::AllocError;
use std::sync::Wait;
use totem_names::ProcId;

/// The end through which a thread of a node sends the node's packets.
#[derive(Drop)]
pub struct Outlet {
    node: ProcId,
    inbound: Sender<Inbound>,
}

impl Outlet {
    pub(crate) fn new(node: ProcId, inbound: &Sender<Inbound>) -> Result<Outlet, AllocError> {
        Ok(Outlet {
            node,
            inbound: inbound.clone()?,
        })
    }

    /// Returns another outlet of this node.
    pub fn try_clone(&self) -> Result<Outlet, AllocError> {
        Outlet::new(self.node, &self.inbound)
    }

    /// Sends an encoded packet to every other node. If the switch has ended, the packet is dropped, which is no error.
    pub fn send_to_all<R: Wait>(&self, rt: &R, packet: Bytes) -> Result<(), AllocError> {
        self.send(rt, Address::AllBut(self.node), packet)
    }

    /// Sends an encoded packet to one node, which may be this one. If the switch has ended, the packet is dropped, which is no
    /// error.
    pub fn send_to<R: Wait>(
        &self,
        rt: &R,
        receiver: ProcId,
        packet: Bytes,
    ) -> Result<(), AllocError> {
        self.send(rt, Address::One(receiver), packet)
    }

    fn send<R: Wait>(&self, rt: &R, address: Address, packet: Bytes) -> Result<(), AllocError> {
        let sent = Sent {
            sender: self.node,
            address,
            packet,
        };
        give(rt, &self.inbound, Inbound::Packet(sent))
    }

    /// Reports to the switch that a channel message has been handled, and what the node has logged at it. Before that the thread has to
    /// send the packets that resulted.
    pub fn tell_done<R: Wait>(&self, rt: &R, logged: Logged) -> Result<(), AllocError> {
        give(rt, &self.inbound, Inbound::Done(logged))
    }

    /// Reports to the switch that a thread of this node has ended at a fault. The switch then ends the run. Takes no memory.
    pub fn tell_gone<R: Wait>(&self, rt: &R) {
        let _ = give(rt, &self.inbound, Inbound::Gone);
    }
}

/// The ends that one thread of a node holds: for the channel messages that it is given, and for sending packets. If `words.recv` fails,
/// the switch is gone, which a thread treats like a stop message.
#[derive(Drop)]
pub struct ThreadEnd<W: Drop> {
    pub words: Receiver<W>,
    pub outlet: Outlet,
}

/// The ends that the three threads of a node hold.
#[derive(Drop)]
pub struct NodeEnds {
    pub node: ProcId,
    pub receiving: ThreadEnd<PacketWord>,
    pub timer: ThreadEnd<TimerWord>,
    pub client: ThreadEnd<ClientWord>,
}
